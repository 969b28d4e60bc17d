ghost use Rattle.std.specs.Prelude.{IfOk};
ghost use Rattle.dspec_session.specs.{Races.AllBalanced, Results.AreLinesOf, Results.IsDone};

mod calling;
mod crew;
mod ending;
mod four;
mod lines;
mod opening;
mod order;
mod race;
mod records;
mod rounds;
mod showing;
mod team;
mod working;

use crate::gate::{Gate, PassedBy, RoundGate};
use dspec_deeds::StartFault;
use ending::stop;
pub use lines::DemoLine;
use opening::open;
use race::race;
use records::enable;
pub use showing::Demonstration;
use std::alloc::Global;
use std::error::Error;
use std::fmt;
use std::sync::Wait;
use std::thread::Threads;

/// Why the demonstration has no report.
#[derive(Clone, Copy, Debug, PartialEq, Eq)]
pub enum DemoFault {
    /// Its session can't start; of its configuration that is want of memory alone.
    Start(StartFault),
    /// The gate was shut for one of its CPUs.
    GateShut,
    /// Not all of its threads could be made.
    Spawn,
}

impl Error for DemoFault {}

impl fmt::Display for DemoFault {
    fn fmt<W: fmt::Write>(&self, f: &mut fmt::Formatter<W>) -> fmt::Result {
        f.pad(match self {
            DemoFault::Start(_) => "the session can't start",
            DemoFault::GateShut => "gate shut",
            DemoFault::Spawn => "no thread can be made",
        })
    }
}

/// Runs a session of four CPUs, each in a thread of its own, while its consumer asks, takes, gives back and cleans in this one,
/// and stops it. A CPU makes a hundred rounds of five calls: a trace, a speculation, a record offered to it, a decision, which
/// is a commit in every other round, and a service; the consumer makes a thousand rounds. The gate stands around each call and
/// after each round. Each worker is started by a call of its own, and all have ended before this answers.
pub fn demonstrate<G: RoundGate, R: Threads + Wait>(
    rt: &R,
    alloc: Global,
    gate: &G,
) -> Result<Demonstration, DemoFault>
    ensures { IfOk result IsDone }
{
    let schema = enable();
    let session = match open(alloc, schema) {
        Ok(session) => session,
        Err(fault) => return Err(DemoFault::Start(fault)),
    };
    let Some(raced) = race(rt, gate, &schema, session) else {
        return Err(DemoFault::Spawn);
    };
    if !raced.finished {
        return Err(DemoFault::GateShut);
    }
    Ok(Demonstration {
        session: stop(raced.session),
        schema,
        orders: raced.orders,
    })
}

/// The lines of a demonstration of whose consumer's rounds the gate isn't told.
pub fn demo<G: Gate, R: Threads + Wait>(
    rt: &R,
    alloc: Global,
    gate: &G,
) -> Result<[DemoLine; 4], DemoFault>
    ensures balanced { IfOk result (λ lines. AllBalanced 200 lines) }
    ensures shown { IfOk result (λ lines. AreLinesOf lines) }
{
    let shown = demonstrate(rt, alloc, &PassedBy { gate })?;
    Ok(shown.lines())
}
