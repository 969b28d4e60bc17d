ghost use Rattle.std.specs.Prelude.{List, ℕ, IfErr, IfOk};
ghost use Rattle.dspec_replay.specs.PlayedTexts.{IsPlayedText, IsTextFault};
ghost use Rattle.dspec_schedule.specs.{Reading.HasOneHeader, Schedules.plan_of};

use dspec_core::{Outcome, play};
use dspec_record::{DefaultAction, Header, StampedAction};
use dspec_schedule::{Schedule, ScheduleFault, read_schedule};
use std::alloc::Global;

/// A schedule and what its play left.
#[derive(Debug, Drop)]
pub struct Played {
    /// The schedule that the text says.
    pub schedule: Schedule,
    /// What its play left.
    pub outcome: Outcome,
}

/// Plays the schedule of a text, with its enablings, or with the default action, which is stamped under header 2.
pub fn play_text(alloc: Global, text: &[u8]) -> Result<Played, ScheduleFault>
    ensures played { IfOk result (λ played. IsPlayedText text.now (plan_of played.schedule) played.outcome) }
    ensures one_header { IfOk result (λ played. HasOneHeader (plan_of played.schedule)) }
    ensures told { IfErr result (IsTextFault text.now) }
{
    let schedule = read_schedule(alloc, text)?;
    let turns = schedule.turns.as_slice();
    let played = match (schedule.enablings, schedule.header()) {
        (Some(enablings), _) => play(alloc, &schedule.config, enablings, turns),
        (None, Header::One) => play(alloc, &schedule.config, DefaultAction, turns),
        (None, Header::Two) => play(alloc, &schedule.config, StampedAction, turns),
    };
    match played {
        Ok(outcome) => Ok(Played { schedule, outcome }),
        Err(fault) => Err(schedule.blame(fault)),
    }
}
