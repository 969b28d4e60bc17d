ghost use Rattle.std.specs.Prelude.{◌≡◌, ◌<◌, IfOk};
ghost use denote.Param.Send.{IsSync};
ghost use Rattle.dspec_cpu.specs.{Lists.words_of, Standing.identity};
ghost use Rattle.dspec_session_core.specs.Sessions.{IsSession};
ghost use Rattle.fuzz.specs.Lent.{AllCanBeCalled, AllWereCalled, CanBeCalled};

use crate::consuming::consume;
use crate::planning::SeedPlan;
use crate::sharing::SharedState;
use crate::taken::CollectedBatches;
use crate::working::work;
use dspec_cpu::{Cpu, Shared};
use dspec_record::Enablings;
use dspec_session_core::Session;
use std::alloc::{AllocError, Global};
use std::thread;
use std::thread::Threads;

/// Each CPU is called in a thread of its own.
fn work_all<R: Threads + Sync>(
    rt: &R,
    cpus: Vec<Cpu<Enablings>>,
    shared: &Shared,
    board: &SharedState,
    plan: &SeedPlan,
    alloc: Global,
) -> Vec<Cpu<Enablings>>
    requires { AllCanBeCalled shared.now board.now.schema cpus.items }
    ensures { AllWereCalled cpus.items result.items }
{
    let mut cpus = cpus;
    let threads = cpus.len().max(1);
    let part = move |worker: usize, cpu: &mut Cpu<Enablings>|
        requires { CanBeCalled shared.now board.now.schema cpu.now }
        ensures { identity cpu.exit.now ≡ identity cpu.entry.now }
    { work(cpu, shared, board, plan, alloc, (worker % 64) as u32) };
    thread::for_each_mut(rt, cpus.as_mut_slice(), threads, &part);
    cpus
}

/// All workers make their calls, each in a thread of its own, while the consumer makes its own in another.
pub fn race<R: Threads + Sync>(
    rt: &R,
    session: Session<Enablings>,
    board: &SharedState,
    plan: &SeedPlan,
    alloc: Global,
    basket: CollectedBatches,
) -> Result<(Session<Enablings>, CollectedBatches), AllocError>
    requires { IsSession board.now.schema session }
    ensures { IfOk result (λ r. IsSession board.now.schema r.0) }
{
    let Session {
        cpus,
        consumer,
        shared,
    } = session;
    let common = &shared;
    let (consumed, cpus) = thread::join(
        rt,
        move || consume(consumer, common, board, plan, alloc, basket),
        move || -> Vec<Cpu<Enablings>>
            requires { IsSync R.row × AllCanBeCalled common.now board.now.schema cpus.items }
            ensures { AllWereCalled cpus.items result.items }
        { work_all(rt, cpus, common, board, plan, alloc) },
    );
    let (consumer, basket) = consumed?;
    let lent_back = Session {
        shared,
        cpus,
        consumer,
    };
    Ok((lent_back, basket))
}
