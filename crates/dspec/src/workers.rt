ghost use Rattle.std.specs.Prelude.{◌≡◌, ◌≢◌, ◌≤◌, ◌<◌, ◌∷◌, ℕ, [], IfErr, IfOk, length, map, None, OnErr, Some, vec_capacity, vec_len};
ghost use denote.Param.Send.{IsSync};
ghost use Rattle.dspec_deeds.specs.declared.config.StartFault.TheVariants as start;
ghost use Rattle.dspec_deeds.specs.Ranges.{start_fault};
ghost use Rattle.dspec_cpu.specs.{Called.called, Lists.number_in, Lists.schema_of, Lists.words_of, Standing.IsCallable, Standing.identity};
ghost use Rattle.dspec_session_core.specs.{Consumers.IsConsumerOf, Consumers.set_up_of, Sessions.IsSession};
ghost use Rattle.dspec.specs.{Lent.AllCallable, Lent.AllReturned, Passed.HasListsWith, Passed.PassesOn, Serving.ThenServed, Traced.IsOneListWith, Traced.IsKeptWith, Traced.IsTracedWith};
ghost use Rattle.dspec.specs.{Visits.MakesRounds, Workers.AllNumbered, Workers.AllWorked, Workers.WorkedBy, Workers.WorkedOn, Workers.WorkedOne, Workers.cpus_of, Workers.one_for, Workers.workers_of};

use crate::lane::Lane;
use crate::running::{MOST_CPUS, all_stand, drain, pass_rests};
use crate::serving_on::WorkCounts;
use crate::work::Sink;
use crate::worker::Worker;
use dspec_cpu::{Cpu, Shared};
use dspec_deeds::{Config, StartFault};
use dspec_record::{Enablings, Schema};
use dspec_session_core::{Closed, Consumer, Session};
use std::alloc::Global;
use std::sync::atomic::{AtomicU64, Ordering};
use std::thread;
use std::thread::Threads;

/// A CPU, and who works on it.
#[derive(Drop)]
pub(crate) struct Working<W: Drop> {
    pub(crate) cpu: Cpu<Enablings>,
    pub(crate) worker: W,
}

// The first is taken out.
fn first<T>(items: &mut Vec<T>) -> T
    requires { 0 < length items.old.items }
    ensures cons { items.old.items ≡ result ∷ items.new.items }
    ensures capacity { vec_capacity items.new ≡ vec_capacity items.old }
{
    items.remove(0)
}

// Each CPU with the worker of its place. Both lists are empty then, with the room that they had.
fn pair_up<W: Worker<Enablings>>(
    cpus: &mut Vec<Cpu<Enablings>>,
    workers: &mut Vec<W>,
    room: Vec<Working<W>>,
) -> Vec<Working<W>>
    requires count { length workers.old.items ≡ length cpus.old.items }
    requires room { (room.items ≡ []) × (length cpus.old.items ≤ vec_capacity room) }
    ensures pairs { (cpus_of result.items ≡ cpus.old.items) × (workers_of result.items ≡ workers.old.items) }
    ensures emptied { (cpus.new.items ≡ []) × (workers.new.items ≡ []) }
    ensures capacity { (vec_capacity cpus.new ≡ vec_capacity cpus.old) × (vec_capacity workers.new ≡ vec_capacity workers.old) }
{
    let mut pairs = room;
    while !cpus.is_empty() {
        let cpu = first(cpus);
        let worker = first(workers);
        pairs.push_reserved(Working { cpu, worker });
    }
    pairs
}

// The CPUs and the workers again, in their order.
fn part_again<W: Worker<Enablings>>(
    pairs: Vec<Working<W>>,
    cpus: &mut Vec<Cpu<Enablings>>,
    workers: &mut Vec<W>,
)
    requires emptied { (cpus.old.items ≡ []) × (workers.old.items ≡ []) }
    requires room { (length pairs.items ≤ vec_capacity cpus.old) × (length pairs.items ≤ vec_capacity workers.old) }
    ensures { (cpus.new.items ≡ cpus_of pairs.items) × (workers.new.items ≡ workers_of pairs.items) }
{
    let mut pairs = pairs;
    while !pairs.is_empty() {
        let Working { cpu, worker } = first(&mut pairs);
        cpus.push_reserved(cpu);
        workers.push_reserved(worker);
    }
}

// A worker works on its CPU, which serves on until all have.
fn work_one<W: Worker<Enablings>>(pair: &mut Working<W>, shared: &Shared, works: &WorkCounts)
    requires { IsCallable shared.now pair.old.cpu }
    ensures { WorkedOne W.does pair.old pair.new }
{
    let mut lane = Lane::of(shared, &mut pair.cpu);
    works.begin();
    pair.worker.work(&mut lane);
    works.serve_on(&mut lane);
}

// Each works in a thread of its own; then the last thing is told.
fn work_pairs<R: Threads + Sync, W: Worker<Enablings>>(
    rt: &R,
    shared: &Shared,
    over: &AtomicU64,
    pairs: &mut Vec<Working<W>>,
)
    requires { AllCallable shared.now (cpus_of pairs.old.items) }
    ensures { AllWorked W.does pairs.old.items pairs.new.items }
{
    let counts = WorkCounts::of(pairs.len());
    let works = &counts;
    let part = move |_number: usize, pair: &mut Working<W>|
        requires { IsCallable shared.now pair.now.cpu }
        ensures { WorkedOne W.does pair.entry.now pair.exit.now }
    { work_one(pair, shared, works) };
    thread::for_each_mut(rt, pairs.as_mut_slice(), MOST_CPUS, &part);
    over.store(1, Ordering::SeqCst);
}

// Lends each pair to a thread, and the consumer to one more, which calls the sink.
fn run_pairs<R: Threads + Sync, W: Worker<Enablings>, K: Sink<Enablings>>(
    rt: &R,
    shared: &Shared,
    schema: &Enablings,
    count: u32,
    pairs: &mut Vec<Working<W>>,
    consumer: &mut Consumer,
    sink: &mut K,
)
    requires consumer { IsConsumerOf (words_of shared.now) consumer.old }
    requires callable { AllCallable shared.now (cpus_of pairs.old.items) }
    ensures worked { AllWorked W.does pairs.old.items pairs.new.items }
    ensures passes { PassesOn (K.gets schema.now) (words_of shared.now) consumer.old sink.old consumer.new sink.new }
    ensures rounds { MakesRounds (K.gets schema.now) count consumer.old sink.old consumer.new sink.new }
{
    let over = AtomicU64::new(0);
    let flag = &over;
    let mut drains = ||
        requires { IsConsumerOf (words_of shared.now) consumer.now }
        ensures passes { PassesOn (K.gets schema.entry.now) (words_of shared.entry.now) consumer.entry.now sink.entry.now consumer.exit.now sink.exit.now }
        ensures rounds { MakesRounds (K.gets schema.entry.now) count consumer.entry.now sink.entry.now consumer.exit.now sink.exit.now }
    { drain(shared, schema, count, flag, consumer, sink) };
    let mut works = ||
        requires { IsSync R.row × AllCallable shared.now (cpus_of pairs.now.items) }
        ensures { AllWorked W.does pairs.entry.now.items pairs.exit.now.items }
    { work_pairs(rt, shared, flag, pairs) };
    thread::join_mut(rt, &mut drains, &mut works);
}

// Pairs CPUs and workers, lends the pairs, and takes them apart again.
fn run_workers<R: Threads + Sync, W: Worker<Enablings>, K: Sink<Enablings>>(
    rt: &R,
    schema: &Enablings,
    count: u32,
    room: Vec<Working<W>>,
    session: &mut Session<Enablings>,
    workers: &mut Vec<W>,
    sink: &mut K,
)
    requires session { IsSession schema.now session.old }
    requires cpus { count ≡ (set_up_of session.old.consumer).cpus }
    requires count { length workers.old.items ≡ length session.old.cpus.items }
    requires room { (room.items ≡ []) × (length session.old.cpus.items ≤ vec_capacity room) }
    ensures lent { IsSession schema.now session.new }
    ensures words { session.new.shared ≡ session.old.shared }
    ensures all { length workers.new.items ≡ length workers.old.items }
    ensures returned { AllReturned (λ s. ThenServed (WorkedBy (W.does s) workers.old.items workers.new.items)) session.old.cpus.items session.new.cpus.items }
    ensures passes { PassesOn (K.gets schema.now) (words_of session.old.shared) session.old.consumer sink.old session.new.consumer sink.new }
    ensures rounds { MakesRounds (K.gets schema.now) (set_up_of session.old.consumer).cpus session.old.consumer sink.old session.new.consumer sink.new }
{
    let mut pairs = pair_up(&mut session.cpus, workers, room);
    let consumer = &mut session.consumer;
    run_pairs(
        rt,
        &session.shared,
        schema,
        count,
        &mut pairs,
        consumer,
        sink,
    );
    part_again(pairs, &mut session.cpus, workers);
}

/// As `trace`, with a worker for each CPU, which is called by `&mut` in a thread of its own, and stands at its place again after the
/// close, as its work left it. There are as many CPUs as workers: the configuration's own number isn't read. Each CPU is promised what
/// `trace` promises, of what its worker did on it. Where there is no session workers and sink are as they were.
pub fn trace_workers<R: Threads + Sync, W: Worker<Enablings>, K: Sink<Enablings>>(
    rt: &R,
    alloc: Global,
    config: &Config,
    schema: Enablings,
    workers: &mut Vec<W>,
    sink: &mut K,
) -> Result<Closed, StartFault>
    ensures started { IfOk result (λ _. start_fault (one_for workers.old.items config.now) ≡ None) }
    ensures refused { IfErr result (λ fault. fault ≢ start.Memory → start_fault (one_for workers.old.items config.now) ≡ Some fault) }
    ensures memory { IfErr result (λ fault. fault ≡ start.Memory → start_fault (one_for workers.old.items config.now) ≡ None) }
    ensures unchanged { OnErr result ((workers.new ≡ workers.old) × (sink.new ≡ sink.old)) }
    ensures all { IfOk result (λ left. (length left ≡ length workers.old.items) × (length workers.new.items ≡ length workers.old.items)) }
    ensures keeps { IfOk result (λ c. IsKeptWith schema (K.gets schema) (WorkedOn (W.does schema) workers.old.items workers.new.items) (one_for workers.old.items config.now) sink.old c sink.new) }
    ensures traced { IfOk result (λ c. IsTracedWith schema (K.gets schema) (WorkedOn (W.does schema) workers.old.items workers.new.items) (one_for workers.old.items config.now) sink.old c sink.new) }
    ensures listed { IfOk result (λ c. HasListsWith schema (K.gets schema) (one_for workers.old.items config.now) sink.old c sink.new) }
    ensures one_list { IfOk result (λ c. IsOneListWith schema (K.gets schema) (WorkedOn (W.does schema) workers.old.items workers.new.items) (one_for workers.old.items config.now) sink.old c sink.new) }
{
    let Ok(cpus) = u32::try_from(workers.len()) else {
        return Err(StartFault::Cpus);
    };
    let config = Config { cpus, ..*config };
    config.check()?;
    let Ok(room) = Vec::with_capacity(alloc, workers.len()) else {
        return Err(StartFault::Memory);
    };
    let mut session = Session::start(alloc, &config, schema)?;
    run_workers(rt, &schema, cpus, room, &mut session, workers, sink);
    all_stand(&session.cpus);
    let closed = session.finish();
    pass_rests(&closed, &schema, cpus, sink);
    Ok(closed)
}
