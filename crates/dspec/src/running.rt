ghost use Rattle.std.specs.Prelude.{◌≡◌, ◌≢◌, ◌<◌, ℕ, [], ◌∷◌, IfErr, IfOk, length, None, OnErr, slice_get, Some};
ghost use denote.Param.Send.{IsSync};
ghost use Rattle.dspec_deeds.specs.declared.config.StartFault.TheVariants as start;
ghost use Rattle.dspec_deeds.specs.Ranges.{start_fault};
ghost use Rattle.dspec_cpu.specs.{Called.called, Lists.number_in, Lists.schema_of, Lists.words_of, Standing.IsCallable, Standing.identity};
ghost use Rattle.dspec_session_core.specs.{Consumers.IsConsumerOf, Consumers.set_up_of, Leaving.AllSteady, Sessions.IsSession, declared.left.Left.Left};
ghost use Rattle.dspec.specs.{Lent.AllCallable, Lent.AllReturned, Passed.GotAll, Passed.HasListsWith, Passed.PassesOn, Passed.rests_passed, Serving.ThenServed, Traced.IsOneListWith};
ghost use Rattle.dspec.specs.{Traced.IsKeptWith, Traced.IsTracedWith, Visits.MakesRound, Visits.MakesRounds, Visits.VisitsOne};

use crate::lane::Lane;
use crate::serving_on::WorkCounts;
use crate::work::{Sink, Work};
use dspec_cpu::{Cpu, Shared};
use dspec_deeds::{Config, StartFault};
use dspec_record::{Enablings, Schema};
use dspec_session_core::{Closed, Consumer, Session};
use std::alloc::Global;
use std::sync::atomic::{AtomicU64, Ordering};
use std::thread;
use std::thread::Threads;

/// The most threads at once: a CPU has one of its own.
pub(crate) const MOST_CPUS: usize = 64;

// Each CPU works in a thread of its own, and serves on until all have; then the last thing is told.
fn work_all<R: Threads + Sync, W: Work<Enablings>>(
    rt: &R,
    shared: &Shared,
    work: &W,
    over: &AtomicU64,
    cpus: &mut Vec<Cpu<Enablings>>,
)
    requires { AllCallable shared.now cpus.old.items }
    ensures { AllReturned (λ s. ThenServed (W.does s work.now)) cpus.old.items cpus.new.items }
{
    let counts = WorkCounts::of(cpus.len());
    let works = &counts;
    let part = move |_number: usize, cpu: &mut Cpu<Enablings>|
        requires { IsCallable shared.now cpu.now }
        ensures same { identity cpu.exit.now ≡ identity cpu.entry.now }
        ensures did { ThenServed (W.does (schema_of cpu.entry.now) work.entry.now) (number_in cpu.entry.now) (called cpu.entry.now) (called cpu.exit.now) }
    {
        let mut lane = Lane::of(shared, cpu);
        works.begin();
        work.work(&mut lane);
        works.serve_on(&mut lane);
    };
    thread::for_each_mut(rt, cpus.as_mut_slice(), MOST_CPUS, &part);
    over.store(1, Ordering::SeqCst);
}

// One CPU is asked, and what comes goes to the sink and back.
fn visit<K: Sink<Enablings>>(
    consumer: &mut Consumer,
    shared: &Shared,
    schema: &Enablings,
    cpu: u32,
    sink: &mut K,
)
    requires { IsConsumerOf (words_of shared.now) consumer.old }
    ensures passes { PassesOn (K.gets schema.now) (words_of shared.now) consumer.old sink.old consumer.new sink.new }
    ensures visited { VisitsOne (K.gets schema.now) cpu consumer.old sink.old consumer.new sink.new }
{
    consumer.ask(shared, cpu);
    let Some(batch) = consumer.take(shared, cpu) else {
        return;
    };
    sink.batch(schema, &batch);
    let _ = consumer.give_back(shared, batch);
}

/// One round of the consumer's: each of the first so many CPUs is asked, and what comes goes to the sink and back; then slots are cleaned.
pub fn visit_all<K: Sink<Enablings>>(
    consumer: &mut Consumer,
    shared: &Shared,
    schema: &Enablings,
    count: u32,
    sink: &mut K,
)
    requires { IsConsumerOf (words_of shared.now) consumer.old }
    ensures passes { PassesOn (K.gets schema.now) (words_of shared.now) consumer.old sink.old consumer.new sink.new }
    ensures round { MakesRound (K.gets schema.now) count consumer.old sink.old consumer.new sink.new }
{
    for cpu in 0..count {
        visit(consumer, shared, schema, cpu, sink);
    }
    consumer.clean(shared);
}

/// Rounds until the work is over, each of which visits so many CPUs.
pub(crate) fn drain<K: Sink<Enablings>>(
    shared: &Shared,
    schema: &Enablings,
    count: u32,
    over: &AtomicU64,
    consumer: &mut Consumer,
    sink: &mut K,
)
    requires { IsConsumerOf (words_of shared.now) consumer.old }
    ensures passes { PassesOn (K.gets schema.now) (words_of shared.now) consumer.old sink.old consumer.new sink.new }
    ensures rounds { MakesRounds (K.gets schema.now) count consumer.old sink.old consumer.new sink.new }
{
    for _ in 0..u64::MAX {
        if over.load(Ordering::SeqCst) == 1 {
            break;
        }
        visit_all(consumer, shared, schema, count, sink);
        sink.pause();
    }
}

// Lends each CPU to a thread, and the consumer to one more, which calls the sink.
fn run<R: Threads + Sync, W: Work<Enablings>, K: Sink<Enablings>>(
    rt: &R,
    schema: &Enablings,
    count: u32,
    work: &W,
    session: &mut Session<Enablings>,
    sink: &mut K,
)
    requires session { IsSession schema.now session.old }
    requires count { count ≡ (set_up_of session.old.consumer).cpus }
    ensures lent { IsSession schema.now session.new }
    ensures words { session.new.shared ≡ session.old.shared }
    ensures returned { AllReturned (λ s. ThenServed (W.does s work.now)) session.old.cpus.items session.new.cpus.items }
    ensures passes { PassesOn (K.gets schema.now) (words_of session.old.shared) session.old.consumer sink.old session.new.consumer sink.new }
    ensures rounds { MakesRounds (K.gets schema.now) (set_up_of session.old.consumer).cpus session.old.consumer sink.old session.new.consumer sink.new }
{
    let over = AtomicU64::new(0);
    let (words, flag) = (&session.shared, &over);
    let (cpus, consumer) = (&mut session.cpus, &mut session.consumer);
    let mut drains = ||
        requires { IsConsumerOf (words_of words.now) consumer.now }
        ensures passes { PassesOn (K.gets schema.entry.now) (words_of words.entry.now) consumer.entry.now sink.entry.now consumer.exit.now sink.exit.now }
        ensures rounds { MakesRounds (K.gets schema.entry.now) count consumer.entry.now sink.entry.now consumer.exit.now sink.exit.now }
    { drain(words, schema, count, flag, consumer, sink) };
    let mut works = ||
        requires { IsSync R.row × AllCallable words.now cpus.now.items }
        ensures { AllReturned (λ s. ThenServed (W.does s work.entry.now)) cpus.entry.now.items cpus.exit.now.items }
    { work_all(rt, words, work, flag, cpus) };
    thread::join_mut(rt, &mut drains, &mut works);
}

/// Tells what holds of each CPU, as of every one between two of its calls.
pub(crate) fn all_stand<S: Schema>(cpus: &Vec<Cpu<S>>)
    ensures { AllSteady S.shape_of S.accepted S.text cpus.now.items }
{
    for each in cpus {
        each.invariant();
    }
}

// What nobody had taken of one CPU goes to the sink.
fn pass_rest<K: Sink<Enablings>>(closed: &Closed, schema: &Enablings, cpu: u32, sink: &mut K)
    requires { cpu < length closed.now }
    ensures { (l : Left) → slice_get closed.now cpu ≡ Some l → GotAll (K.gets schema.now) sink.old (rests_passed cpu (l ∷ [])) sink.new }
{
    let (sealed, last) = closed.rest(cpu);
    let Some(batch) = sealed else {
        sink.batch(schema, last);
        return;
    };
    sink.batch(schema, batch);
    sink.batch(schema, last);
}

/// What nobody had taken of a closed session goes to the sink, CPU by CPU: the batch that was sealed, then the last buffer.
pub fn pass_rests<K: Sink<Enablings>>(closed: &Closed, schema: &Enablings, count: u32, sink: &mut K)
    requires { count ≡ length closed.now }
    ensures { GotAll (K.gets schema.now) sink.old (rests_passed 0 closed.now) sink.new }
{
    for cpu in 0..count {
        pass_rest(closed, schema, cpu, sink);
    }
}

/// A whole session: its CPUs work in threads of their own while a further one hands their batches to the sink. A lane whose work has
/// returned makes services until every work has returned, so that no slot waits for it; where some works have not begun, it makes at most
/// 2^20, since they may wait for its thread. Then the session is closed, and what nobody had taken goes to the sink too, CPU by CPU: the
/// batch that was sealed, and the last buffer. Each CPU is promised, of what its work did, of the services after it and of what the sink
/// got of it, what `dspec_promise` has on its page. Where there is no session the sink is as it was.
pub fn trace<R: Threads + Sync, W: Work<Enablings>, K: Sink<Enablings>>(
    rt: &R,
    alloc: Global,
    config: &Config,
    schema: Enablings,
    work: &W,
    sink: &mut K,
) -> Result<Closed, StartFault>
    ensures started { IfOk result (λ _. start_fault config.now ≡ None) }
    ensures refused { IfErr result (λ fault. fault ≢ start.Memory → start_fault config.now ≡ Some fault) }
    ensures memory { IfErr result (λ fault. fault ≡ start.Memory → start_fault config.now ≡ None) }
    ensures unchanged { OnErr result (sink.new ≡ sink.old) }
    ensures all { IfOk result (λ left. length left ≡ config.now.cpus) }
    ensures keeps { IfOk result (λ left. IsKeptWith schema (K.gets schema) (ThenServed (W.does schema work.now)) config.now sink.old left sink.new) }
    ensures traced { IfOk result (λ left. IsTracedWith schema (K.gets schema) (ThenServed (W.does schema work.now)) config.now sink.old left sink.new) }
    ensures listed { IfOk result (λ left. HasListsWith schema (K.gets schema) config.now sink.old left sink.new) }
    ensures one_list { IfOk result (λ left. IsOneListWith schema (K.gets schema) (ThenServed (W.does schema work.now)) config.now sink.old left sink.new) }
{
    let mut session = Session::start(alloc, config, schema)?;
    run(rt, &schema, config.cpus, work, &mut session, sink);
    all_stand(&session.cpus);
    let closed = session.finish();
    pass_rests(&closed, &schema, config.cpus, sink);
    Ok(closed)
}
