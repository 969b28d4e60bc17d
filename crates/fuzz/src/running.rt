ghost use Rattle.std.specs.Prelude.{◌≡◌, ◌<◌, IfOk, length};
ghost use Rattle.dspec_session_core.specs.Sessions.{IsSession};

use crate::fault::ThreadFuzzFault;
use crate::planning::SeedPlan;
use crate::racing::race;
use crate::sharing::SharedState;
use crate::taken::CollectedBatches;
use dspec_record::Enablings;
use dspec_samples::{Log, Story, enable};
use dspec_session_core::Session;
use std::alloc::{AllocError, Global};
use std::thread::Threads;

/// What was left of a session is read after what the consumer took.
fn read_left(
    alloc: Global,
    session: Session<Enablings>,
    board: SharedState,
    plan: &SeedPlan,
    basket: CollectedBatches,
) -> Result<Story, AllocError>
    requires { IsSession board.schema session }
{
    let mut basket = basket;
    let mut reports = Vec::new(alloc);
    let cpus = session.cpus.len() as u32;
    let closed = session.finish();
    for cpu in 0..cpus {
        let (sealed, last) = closed.rest(cpu);
        if let Some(batch) = sealed {
            basket.read(alloc, &board.schema, cpu, batch)?;
        }
        basket.read(alloc, &board.schema, cpu, last)?;
        reports.push(*closed.report(cpu))?;
    }
    let mut logs: Vec<Log> = Vec::new(alloc);
    for log in board.logs {
        logs.push(log.into_inner())?;
    }
    Ok(Story {
        config: plan.config,
        logs,
        streams: basket.streams,
        reports,
        refused: basket.refused,
    })
}

/// Runs the session of a plan in threads, and gives all that is known of it once it has ended.
pub fn run<'a, R: Threads + Sync>(
    rt: &R,
    alloc: Global,
    plan: &SeedPlan,
) -> Result<Story, ThreadFuzzFault<'a>> {
    let schema = enable()?;
    let schema = if plan.stamped {
        schema.stamped()
    } else {
        schema
    };
    let board = SharedState::new(alloc, &plan.config, schema, plan.places)?;
    let session = Session::start(alloc, &plan.config, board.schema)?;
    let basket = CollectedBatches::new(alloc, plan.config.cpus)?;
    let (session, basket) = race(rt, session, &board, plan, alloc, basket)?;
    Ok(read_left(alloc, session, board, plan, basket)?)
}
