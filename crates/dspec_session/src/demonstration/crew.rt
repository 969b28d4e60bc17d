ghost use Rattle.std.specs.Prelude.{◌≡◌, IfSome, IsSome};
ghost use Rattle.dspec_cpu.specs.Lists.{words_of};
ghost use Rattle.dspec_session_core.specs.Consumers.{IsConsumerOf, Stays};
ghost use Rattle.dspec_session.specs.{Crews.AllCanWork, Crews.AllWorked, Demonstrated.CameBack, Demonstrated.CanWork, Visits.ConsumerRounds, Visits.none_taken};

use super::four::Four;
use super::order::Order;
use super::rounds::serve;
use super::working::work;
use crate::gate::{Gate, RoundGate};
use dspec_cpu::{Cpu, Shared};
use dspec_record::Enablings;
use dspec_session_core::Consumer;
use std::snapshot::Snapshot;
use std::sync::Wait;
use std::thread;
use std::thread::{Promise, PromisedHandle, Scope, Threads};

/// What a worker gives back: its CPU, and whether it finished.
pub(crate) type Back = (Cpu<Enablings>, bool);

/// A worker gives back the CPU that it took.
pub(crate) struct SameCpu {
    taken: Snapshot<Cpu<Enablings>>,
}

impl Drop for SameCpu {
    fn drop(self) {
        let SameCpu { taken: _ } = self;
    }
}

impl Promise<Back> for SameCpu {
    ghost kept_by = { λ p back. CameBack p.taken.value back.0 back.1 };
}

/// A worker that was started.
type Worker = PromisedHandle<Back, SameCpu>;

/// Starts a worker, where a thread can be made.
fn start<'s, 'e, G: Gate>(
    scope: &'s Scope<'s, &'e ()>,
    cpu: Cpu<Enablings>,
    number: u32,
    shared: &'e Shared,
    gate: &'e G,
) -> Option<Worker>
    requires { CanWork shared.now 400 cpu }
    ensures taken { IfSome result (λ worker. worker.promise.taken.value ≡ cpu) }
{
    let promise = SameCpu {
        taken: Snapshot::of(&cpu),
    };
    let worker = scope.spawn_with(
        promise,
        move || -> Back
            requires { CanWork shared.now 400 cpu }
            ensures { CameBack cpu result.0 result.1 }
        { work(cpu, number, shared, gate) },
    );
    worker.ok()
}

/// Waits for a worker that was started to end.
fn join<R: Threads>(rt: &R, worker: Option<Worker>) -> Option<Back>
    ensures { IfSome result (λ back. IsSome worker
        × IfSome worker (λ w. CameBack w.promise.taken.value back.0 back.1)) }
{
    match worker {
        Some(worker) => Some(worker.join(rt)),
        None => None,
    }
}

/// What is back once all have ended: the CPUs, each with whether it finished, and the consumer, with the order that it saw.
pub(crate) struct Crew {
    pub(crate) workers: Four<Back>,
    pub(crate) consumer: Consumer,
    pub(crate) orders: Four<Order>,
}

/// Each CPU makes its calls in a thread of its own, while the consumer makes its rounds in this one. None: not all of the threads
/// could be made; those that were have ended.
pub(crate) fn run<G: RoundGate, R: Threads + Wait>(
    rt: &R,
    gate: &G,
    schema: &Enablings,
    shared: &Shared,
    cpus: Four<Cpu<Enablings>>,
    consumer: Consumer,
) -> Option<Crew>
    requires cpus { AllCanWork shared.now cpus }
    requires consumer { IsConsumerOf (words_of shared.now) consumer }
    ensures workers { IfSome result (λ crew. AllWorked cpus crew.workers) }
    ensures consumer { IfSome result (λ crew. Stays (words_of shared.now) consumer crew.consumer) }
    ensures rounds { IfSome result (λ crew. ConsumerRounds schema.now consumer none_taken 1000 crew.consumer crew.orders) }
{
    let Four {
        first,
        second,
        third,
        fourth,
    } = cpus;
    thread::scope(
        thread::scope_env(),
        rt,
        move |scope| -> Option<Crew>
            requires cpus { AllCanWork shared.now (record { first = first; second = second; third = third; fourth = fourth }) }
            requires consumer { IsConsumerOf (words_of shared.now) consumer }
            ensures workers { IfSome result (λ crew. AllWorked (record { first = first; second = second; third = third; fourth = fourth }) crew.workers) }
            ensures consumer { IfSome result (λ crew. Stays (words_of shared.entry.now) consumer crew.consumer) }
            ensures rounds { IfSome result (λ crew. ConsumerRounds schema.entry.now consumer none_taken 1000 crew.consumer crew.orders) }
        {
            let first = start(scope, first, 0, shared, gate);
            let second = start(scope, second, 1, shared, gate);
            let third = start(scope, third, 2, shared, gate);
            let fourth = start(scope, fourth, 3, shared, gate);
            let (consumer, orders) = serve(consumer, schema, shared, gate);
            let first = join(rt, first);
            let second = join(rt, second);
            let third = join(rt, third);
            let fourth = join(rt, fourth);
            let workers = Four {
                first: first?,
                second: second?,
                third: third?,
                fourth: fourth?,
            };
            Some(Crew {
                workers,
                consumer,
                orders,
            })
        },
    )
}
