//! The exports of a session: its start, what it hands out, and its end.

ghost use Rattle.std.specs.Prelude.{◌≡◌, None, true, false};
ghost use Rattle.dspec_c.specs.{Configs.asked_for, Handles.held_in, Handles.is_full, SessionCalls.ConsumerOfAnswers, SessionCalls.CpuOfAnswers, SessionCalls.EndsSo, SessionCalls.FinishAnswers};
ghost use Rattle.dspec_c.specs.{SessionCalls.GivesConsumer, SessionCalls.GivesCpu, SessionCalls.HandsOut, SessionCalls.HandsOutCpu, SessionCalls.KeptSo, SessionCalls.LooksHome};
ghost use Rattle.dspec_c.specs.{SessionCalls.StartAnswers, SessionCalls.StartsSo, SessionCalls.consumer_due, Tending.TendAnswers, Whole.Going, Whole.IsHome, Whole.inside_at};
ghost use Rattle.dspec_c.specs.declared.held.HandleValue.TheVariants as held_as;

use crate::configs::CConfig;
use crate::consumer_side::{ConsumerSide, places_for_batches};
use crate::ended::EndedSession;
use crate::handle::{Handle, HandleContents, lent};
use crate::held::HandleValue;
use crate::schema_calls::schema_in;
use crate::statuses::{
    BAD_HANDLE, BAD_POLICY, BUSY, FULL_HANDLE, NO_MEMORY, NO_SUCH_CPU, NOT_HOME, OK, OUT, of_start,
};
use crate::under_way::UnderWay;
use dspec_record::Enablings;
use std::alloc::Global;

// Puts a session into its handle. It is a call of its own so that what lets the session go, where memory is refused, takes stack only here.
#[inline(never)]
fn keep(alloc: Global, whole: UnderWay, session: &mut Handle) -> u32
    requires { is_full session.old ≡ false }
    ensures { KeptSo whole result session.old session.new }
{
    let Ok(room) = HandleContents::room(alloc) else {
        return NO_MEMORY;
    };
    session.put(room, HandleValue::Session(whole));
    OK
}

fn start(alloc: Global, config: &CConfig, schema: &Enablings, session: &mut Handle) -> u32
    requires { is_full session.old ≡ false }
    ensures { StartsSo (asked_for config.now) schema.now result session.old session.new }
{
    let Some(config) = config.read() else {
        return BAD_POLICY;
    };
    let whole = match UnderWay::start(alloc, &config, schema) {
        Ok(whole) => whole,
        Err(fault) => return of_start(fault),
    };
    keep(alloc, whole, session)
}

/// Starts a session over the schema as it is now.
#[unsafe(no_mangle)]
pub extern "C" fn dspec_start(
    alloc: Global,
    config: &CConfig,
    schema: &mut Handle,
    session: &mut Handle,
) -> u32
    ensures full { is_full session.old ≡ true → (result ≡ 18) × ((schema.new ≡ schema.old) × (session.new ≡ session.old)) }
    ensures answers { is_full session.old ≡ false → StartAnswers (asked_for config.now) (held_in schema.old) result (held_in schema.new) session.old session.new }
    ensures stays { is_full schema.new ≡ is_full schema.old }
{
    if session.is_held() {
        return FULL_HANDLE;
    }
    let Some(schema) = schema_in(schema) else {
        return BAD_HANDLE;
    };
    start(alloc, config, &schema, session)
}

// All memory comes first: the CPU stays where it is, as it was, where any is refused.
fn give_cpu(alloc: Global, session: &mut UnderWay, number: u32, cpu: &mut Handle) -> u32
    requires inside { inside_at number session.old.places ≡ true }
    requires empty { is_full cpu.old ≡ false }
    ensures { HandsOut (GivesCpu number) None session.old result session.new cpu.old cpu.new }
{
    let Ok(room) = HandleContents::room(alloc) else {
        return NO_MEMORY;
    };
    let Ok(shared) = session.share() else {
        return NO_MEMORY;
    };
    let Ok(out) = session.cpu(alloc, shared, number) else {
        return NO_MEMORY;
    };
    cpu.put(room, HandleValue::Cpu(out));
    OK
}

fn hand_out_cpu(alloc: Global, session: &mut UnderWay, number: u32, cpu: &mut Handle) -> u32
    requires { is_full cpu.old ≡ false }
    ensures { HandsOutCpu number session.old result session.new cpu.old cpu.new }
{
    if !session.has_cpu(number) {
        return NO_SUCH_CPU;
    }
    if !session.has_cpu_in(number) {
        return OUT;
    }
    give_cpu(alloc, session, number, cpu)
}

/// Hands out a CPU that is at its place: it was never handed out, or came home.
#[unsafe(no_mangle)]
pub extern "C" fn dspec_cpu_of(
    alloc: Global,
    session: &mut Handle,
    number: u32,
    cpu: &mut Handle,
) -> u32
    ensures full { is_full cpu.old ≡ true → (result ≡ 18) × ((session.new ≡ session.old) × (cpu.new ≡ cpu.old)) }
    ensures answers { is_full cpu.old ≡ false → CpuOfAnswers number (held_in session.old) result (held_in session.new) cpu.old cpu.new }
    ensures stays { is_full session.new ≡ is_full session.old }
{
    if cpu.is_held() {
        return FULL_HANDLE;
    }
    lent!(session as Session(whole), BAD_HANDLE => hand_out_cpu(alloc, whole, number, cpu))
}

fn hand_out_consumer(alloc: Global, session: &mut UnderWay, consumer: &mut Handle) -> u32
    requires { is_full consumer.old ≡ false }
    ensures { HandsOut GivesConsumer (consumer_due session.old) session.old result session.new consumer.old consumer.new }
{
    if !session.has_consumer_in() {
        return OUT;
    }
    let Ok(room) = HandleContents::room(alloc) else {
        return NO_MEMORY;
    };
    let Ok(taken) = places_for_batches(alloc, session.count()) else {
        return NO_MEMORY;
    };
    let Ok(shared) = session.share() else {
        return NO_MEMORY;
    };
    let Some(out) = session.consumer(shared) else {
        return OUT;
    };
    consumer.put(room, HandleValue::Consumer(ConsumerSide::new(out, taken)));
    OK
}

/// Hands out the consumer.
#[unsafe(no_mangle)]
pub extern "C" fn dspec_consumer_of(
    alloc: Global,
    session: &mut Handle,
    consumer: &mut Handle,
) -> u32
    ensures full { is_full consumer.old ≡ true → (result ≡ 18) × ((session.new ≡ session.old) × (consumer.new ≡ consumer.old)) }
    ensures answers { is_full consumer.old ≡ false → ConsumerOfAnswers (held_in session.old) result (held_in session.new) consumer.old consumer.new }
    ensures stays { is_full session.new ≡ is_full session.old }
{
    if consumer.is_held() {
        return FULL_HANDLE;
    }
    lent!(session as Session(whole), BAD_HANDLE => hand_out_consumer(alloc, whole, consumer))
}

/// Makes a service of each CPU that is home or was never handed out.
#[unsafe(no_mangle)]
pub extern "C" fn dspec_tend(session: &mut Handle, settled: &mut u64) -> u32
    ensures answers { TendAnswers (held_in session.old) result settled.old settled.new (held_in session.new) }
    ensures stays { is_full session.new ≡ is_full session.old }
{
    lent!(session as Session(whole), BAD_HANDLE => {
        *settled = whole.tend();
        OK
    })
}

fn is_home(held: &mut HandleValue) -> Result<(), u32>
    ensures { LooksHome held.old result held.new }
{
    match held {
        HandleValue::Session(whole) => {
            if whole.is_home() {
                Ok(())
            } else {
                Err(NOT_HOME)
            }
        }
        _ => Err(BAD_HANDLE),
    }
}

// What is left of the session whose parts are home; or what is held, as it was.
fn end(held: HandleValue) -> Result<EndedSession, HandleValue>
    requires { (whole : Going) → held ≡ held_as.Session whole → IsHome whole }
    ensures { EndsSo held result }
{
    match held {
        HandleValue::Session(whole) => match whole.finish() {
            Ok(ended) => Ok(ended),
            Err(whole) => Err(HandleValue::Session(whole)),
        },
        other => Err(other),
    }
}

/// Ends a session whose CPUs and consumer are home. What is left of it has the session's box.
#[unsafe(no_mangle)]
pub extern "C" fn dspec_finish(alloc: Global, session: &mut Handle, closed: &mut Handle) -> u32
    ensures full { is_full closed.old ≡ true → (result ≡ 18) × ((session.new ≡ session.old) × (closed.new ≡ closed.old)) }
    ensures answers { is_full closed.old ≡ false → FinishAnswers (held_in session.old) session.old closed.old result session.new closed.new }
{
    if closed.is_held() {
        return FULL_HANDLE;
    }
    let Some((mut held, room)) = session.take(alloc) else {
        return BAD_HANDLE;
    };
    if let Err(why) = is_home(&mut held) {
        session.put(room, held);
        return why;
    }
    match end(held) {
        Ok(ended) => {
            closed.put(room, HandleValue::Closed(ended));
            OK
        }
        Err(back) => {
            session.put(room, back);
            BUSY
        }
    }
}
