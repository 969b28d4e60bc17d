ghost use Rattle.std.specs.Prelude.{◌≡◌, ◌<◌, true};
ghost use Rattle.dspec_session.specs.Demonstrated.{CanWork, CpuRounds, MadeRound, Worked};

use super::calling::{decide, service, speculate, speculation, trace};
use crate::gate::Gate;
use dspec_cpu::{Cpu, Shared};
use dspec_record::Enablings;

/// How many rounds a CPU makes.
const ROUNDS: u32 = 100;

/// How many calls a round has.
const CALLS: u32 = 5;

/// One round: the calls with this value, each between the gate's two. False: the gate was shut, and the round isn't finished.
fn make_round<G: Gate>(
    cpu: &mut Cpu<Enablings>,
    number: u32,
    shared: &Shared,
    gate: &G,
    round: u32,
) -> bool
    requires cpu { CanWork shared.now 4 cpu.old }
    requires few { round < 100 }
    ensures worked { Worked 4 2 cpu.old cpu.new result }
    ensures made { result ≡ true → MadeRound round cpu.old cpu.new }
{
    let call = CALLS * round;
    if !gate.before(number, call + 1) {
        return false;
    }
    trace(cpu, shared, round);
    gate.after(number, call + 1);
    if !gate.before(number, call + 2) {
        return false;
    }
    let id = speculation(cpu, shared);
    gate.after(number, call + 2);
    if !gate.before(number, call + 3) {
        return false;
    }
    speculate(cpu, shared, id, round);
    gate.after(number, call + 3);
    if !gate.before(number, call + 4) {
        return false;
    }
    decide(cpu, shared, id, round % 2 == 1);
    gate.after(number, call + 4);
    if !gate.before(number, call + 5) {
        return false;
    }
    service(cpu, shared);
    gate.after(number, call + 5);
    true
}

/// A worker: the CPU makes all its rounds and comes back, with whether it finished them. Where the gate is shut, it ends.
pub(crate) fn work<G: Gate>(
    cpu: Cpu<Enablings>,
    number: u32,
    shared: &Shared,
    gate: &G,
) -> (Cpu<Enablings>, bool)
    requires { CanWork shared.now 400 cpu }
    ensures worked { Worked 400 200 cpu result.0 result.1 }
    ensures rounds { result.1 ≡ true → CpuRounds cpu 100 result.0 }
{
    let mut cpu = cpu;
    for round in 0..ROUNDS {
        if !make_round(&mut cpu, number, shared, gate, round) {
            return (cpu, false);
        }
    }
    (cpu, true)
}
