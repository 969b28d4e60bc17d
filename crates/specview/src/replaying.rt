//! A schedule of whole calls, made on a session from one thread, and what is printed of it: what the player prints of the same schedule.

ghost use Rattle.std.specs.Prelude.{◌≡◌, IfErr, IfOk, string_bytes};
ghost use Rattle.dspec_schedule.specs.{Reading.header_of, Schedules.plan_of};
ghost use Rattle.specview.specs.Replays.{IsReplayFault, IsReplayOf, replay_printed};

use crate::fault::ViewFault;
use dspec_replay::{Replayed, SessionFault, printed_with_bytes, replay_schedule};
use dspec_schedule::{Schedule, printed, read_schedule};
use std::alloc::{AllocError, Global};

/// A session that doesn't go on, told at the line of its turn.
fn told(fault: SessionFault, schedule: &Schedule) -> ViewFault
    ensures { IsReplayFault result }
{
    match fault {
        SessionFault::Play(fault) => ViewFault::from(schedule.blame(fault)),
        SessionFault::NoText(cpu) => ViewFault::NoText { cpu },
        SessionFault::NoWholeCall(turn) => ViewFault::NoWholeCall {
            line: schedule.lines.get(turn).copied().unwrap_or(0),
        },
    }
}

/// What is printed of a replay, with its bytes where they are wanted.
fn print_replay(
    alloc: Global,
    schedule: &Schedule,
    replayed: &Replayed,
    with_bytes: bool,
) -> Result<String, AllocError>
    ensures { IfOk result (λ text. string_bytes text ≡ replay_printed with_bytes (header_of (plan_of schedule.now)) replayed.now) }
{
    let header = schedule.header();
    if with_bytes {
        printed_with_bytes(alloc, header, replayed)
    } else {
        printed(alloc, header, &replayed.outcome)
    }
}

/// Replays the schedule of a text, and gives what is printed of it. It isn't inlined: a session takes more stack than what else the
/// program does, and that would pay for it.
#[inline(never)]
pub fn replay_text(alloc: Global, text: &[u8], with_bytes: bool) -> Result<String, ViewFault>
    ensures replayed { IfOk result (λ told. IsReplayOf text.now with_bytes (string_bytes told)) }
    ensures fault { IfErr result IsReplayFault }
{
    let schedule = read_schedule(alloc, text)?;
    let replayed = match replay_schedule(alloc, &schedule) {
        Ok(replayed) => replayed,
        Err(fault) => return Err(told(fault, &schedule)),
    };
    Ok(print_replay(alloc, &schedule, &replayed, with_bytes)?)
}
