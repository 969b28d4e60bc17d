ghost use Rattle.std.specs.Prelude.{◌≡◌, None, map, IfErr, IfOk};
ghost use Rattle.dspec_schedule.specs.{Reading.header_of, Schedules.plan_of};
ghost use Rattle.dspec_replay.specs.Replayed.{IsDue, accepted_in, call_that_ended, schedule_refusal, whole_call_of};

use crate::playing::SessionReplay;
use crate::session_fault::SessionFault;
use crate::texts::Replayed;
use dspec_deeds::{Config, Turn};
use dspec_record::{DefaultAction, Header, Schema, StampedAction};
use dspec_schedule::Schedule;
use std::alloc::Global;

/// Plays turns under a schema, and ends the session: each turn, in order, by its actor. The schedule isn't played where its
/// configuration has a fault, else because of the first turn that is no whole call, names a CPU that there isn't or has a record
/// that isn't one of the schema; want of memory may come at any time.
#[tactic(auto, using(crate::proofs::Refusals::so_far_refused))]
pub fn replay<S: Schema>(
    alloc: Global,
    config: &Config,
    schema: S,
    turns: &[Turn],
) -> Result<Replayed, SessionFault>
    ensures answered { IfOk result (λ replayed. map call_that_ended replayed.outcome.answers ≡ map whole_call_of turns.now) }
    ensures allowed { IfOk result (λ _. schedule_refusal (S.accepted schema) config.now turns.now ≡ None) }
    ensures refused { IfErr result (IsDue (schedule_refusal (S.accepted schema) config.now turns.now)) }
{
    let mut playing = SessionReplay::start(alloc, config, schema)?;
    for (number, turn) in turns.iter().enumerate() {
        playing.turn(number, *turn)?;
    }
    playing.close(alloc)
}

/// The play of a schedule under its enablings, else under the default action of its header.
pub fn replay_schedule(alloc: Global, schedule: &Schedule) -> Result<Replayed, SessionFault>
    ensures answered { IfOk result (λ replayed. map call_that_ended replayed.outcome.answers ≡ map whole_call_of schedule.now.turns.items) }
    ensures allowed { IfOk result (λ _. schedule_refusal (accepted_in schedule.now.enablings (header_of (plan_of schedule.now))) schedule.now.config schedule.now.turns.items ≡ None) }
    ensures refused { IfErr result (IsDue (schedule_refusal (accepted_in schedule.now.enablings (header_of (plan_of schedule.now))) schedule.now.config schedule.now.turns.items)) }
{
    let turns = schedule.turns.as_slice();
    match (schedule.enablings, schedule.header()) {
        (Some(enablings), _) => replay(alloc, &schedule.config, enablings, turns),
        (None, Header::One) => replay(alloc, &schedule.config, DefaultAction, turns),
        (None, Header::Two) => replay(alloc, &schedule.config, StampedAction, turns),
    }
}
