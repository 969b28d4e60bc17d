//! The steps of a play, as text.

ghost use Rattle.std.specs.Prelude.{IfErr, IfOk};
ghost use Rattle.specview.specs.Stepping.{HasSteps, IsStepsFault};

use crate::fault::ViewFault;
use dspec_picture::steps_of;
use dspec_record::{DefaultAction, Header, StampedAction};
use dspec_schedule::read_schedule;
use std::alloc::Global;

/// Plays the schedule of a text step by step, over its enablings, or over the default action, which is stamped under header 2, and tells
/// each step in a line.
#[tactic(auto, using(crate::proofs::Taking::steps_fault))]
pub fn steps_of_text(alloc: Global, text: &[u8]) -> Result<String, ViewFault>
    ensures played { IfOk result (λ _. HasSteps text.now) }
    ensures fault { IfErr result (IsStepsFault text.now) }
{
    let schedule = read_schedule(alloc, text)?;
    let (header, turns) = (schedule.header(), schedule.turns.as_slice());
    let steps = match (schedule.enablings, header) {
        (Some(enablings), _) => steps_of(alloc, header, &schedule.config, enablings, turns),
        (None, Header::One) => steps_of(alloc, header, &schedule.config, DefaultAction, turns),
        (None, Header::Two) => steps_of(alloc, header, &schedule.config, StampedAction, turns),
    };
    match steps {
        Ok(told) => Ok(told),
        Err(fault) => Err(ViewFault::from(schedule.blame(fault))),
    }
}
