//! The end of a session in one call: its CPUs and its consumer go home, and it ends.

ghost use Rattle.std.specs.Prelude.{◌≡◌, true, false};
ghost use Rattle.dspec_c.specs.{Closing.CloseAnswers, Closing.EmptiesAll, Closing.KeepAll, Closing.KeepsHeld, Closing.are_cpus_in, Closing.closing_of, Closing.is_session_in, Handles.held_in};
ghost use Rattle.dspec_c.specs.{Handles.is_full, SessionCalls.is_consumer_in, SessionCalls.is_cpu_in};

use crate::handle::Handle;
use crate::held::HandleValue;
use crate::home_calls::{dspec_consumer_home, dspec_cpu_home};
use crate::session_calls::dspec_finish;
use crate::statuses::{BAD_HANDLE, FULL_HANDLE};
use std::alloc::Global;

fn is_session(held: &HandleValue) -> bool
    ensures { result ≡ is_session_in held.now }
{
    matches!(held, HandleValue::Session(_))
}

fn is_consumer(held: &HandleValue) -> bool
    ensures { result ≡ is_consumer_in held.now }
{
    matches!(held, HandleValue::Consumer(_))
}

fn is_cpu(held: &HandleValue) -> bool
    ensures { result ≡ is_cpu_in held.now }
{
    matches!(held, HandleValue::Cpu(_))
}

fn has_session(session: &mut Handle) -> bool
    ensures has { result ≡ is_session_in (held_in session.old) }
    ensures leaves { KeepsHeld session.old session.new }
{
    session.is_held() && is_session(&session.lend().held)
}

fn has_consumer(consumer: &mut Handle) -> bool
    ensures has { result ≡ is_consumer_in (held_in consumer.old) }
    ensures leaves { KeepsHeld consumer.old consumer.new }
{
    consumer.is_held() && is_consumer(&consumer.lend().held)
}

fn has_cpu(cpu: &mut Handle) -> bool
    ensures has { result ≡ is_cpu_in (held_in cpu.old) }
    ensures leaves { KeepsHeld cpu.old cpu.new }
{
    cpu.is_held() && is_cpu(&cpu.lend().held)
}

// Whether each of the handles has a CPU.
fn have_cpus(cpus: &mut [&mut Handle]) -> bool
    ensures have { result ≡ are_cpus_in cpus.old }
    ensures leave { KeepAll cpus.old cpus.new }
{
    for at in 0..cpus.len() {
        let cpu = &mut cpus[at];
        if !has_cpu(cpu) {
            return false;
        }
    }
    true
}

// Sends each of the CPUs home.
fn send_all(alloc: Global, cpus: &mut [&mut Handle])
    requires { are_cpus_in cpus.old ≡ true }
    ensures { EmptiesAll cpus.old cpus.new }
{
    for number in 0..cpus.len() {
        let cpu = &mut cpus[number];
        dspec_cpu_home(alloc, cpu);
    }
}

/// Sends the CPUs and the consumer home, and ends the session.
#[unsafe(no_mangle)]
pub extern "C" fn dspec_close(
    alloc: Global,
    session: &mut Handle,
    cpus: &mut [&mut Handle],
    consumer: &mut Handle,
    closed: &mut Handle,
) -> u32
    ensures full { is_full closed.old ≡ true → (result ≡ 18) × (session.new ≡ session.old) × (cpus.new ≡ cpus.old) × (consumer.new ≡ consumer.old) × (closed.new ≡ closed.old) }
    ensures answers { is_full closed.old ≡ false → CloseAnswers result (closing_of session.old cpus.old consumer.old closed.old) (closing_of session.new cpus.new consumer.new closed.new) }
{
    if closed.is_held() {
        return FULL_HANDLE;
    }
    if !has_session(session) || !has_consumer(consumer) || !have_cpus(cpus) {
        return BAD_HANDLE;
    }
    send_all(alloc, cpus);
    dspec_consumer_home(alloc, consumer);
    dspec_finish(alloc, session, closed)
}
