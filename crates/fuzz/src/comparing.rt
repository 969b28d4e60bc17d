//! What the player and a session make of a schedule.

ghost use Rattle.std.specs.Prelude.{◌≡◌, IfOk};
ghost use Rattle.fuzz.specs.Comparing.{IsAlike, IsRefusedAlike, IsToldBySession, session_refusal};

use crate::encoding::encoded;
use crate::sample::Sample;
use dspec_core::play;
use dspec_deeds::{Config, Turn};
use dspec_interleaving::{Outcome, PlayFault};
use dspec_record::{DefaultAction, Header, StampedAction};
use dspec_replay::{SessionFault, printed_with_bytes, replay_schedule};
use dspec_schedule::Schedule;
use std::alloc::{AllocError, Global};

/// What one of the two made of a schedule.
#[derive(Debug, PartialEq, Drop)]
pub enum ScheduleOutcome {
    /// It played it, and this is printed.
    Printed(String),
    /// It refused it.
    Refused(PlayFault),
    /// The session couldn't go on where the player has to.
    CantGoOn(SessionFault),
}

/// How both compare.
#[derive(Debug, Clone, Copy, PartialEq, Eq)]
pub enum Comparison {
    /// Both print the same.
    Alike,
    /// Both refuse it, and tell the same.
    RefusedAlike,
    /// Anything else.
    Differ,
}

/// The play of a schedule, by the player.
fn play_schedule(alloc: Global, schedule: &Schedule) -> Result<Outcome, PlayFault> {
    let (config, turns) = (&schedule.config, schedule.turns.as_slice());
    match (schedule.enablings, schedule.header()) {
        (Some(enablings), _) => play(alloc, config, enablings, turns),
        (None, Header::One) => play(alloc, config, DefaultAction, turns),
        (None, Header::Two) => play(alloc, config, StampedAction, turns),
    }
}

/// What the player makes of a schedule, with the bytes that are due.
fn player_told(alloc: Global, sample: &Sample) -> Result<ScheduleOutcome, AllocError> {
    let schedule = &sample.schedule;
    match play_schedule(alloc, schedule) {
        Ok(outcome) => {
            let due = encoded(alloc, sample, outcome)?;
            let text = printed_with_bytes(alloc, schedule.header(), &due)?;
            Ok(ScheduleOutcome::Printed(text))
        }
        Err(PlayFault::Memory) => Err(AllocError),
        Err(fault) => Ok(ScheduleOutcome::Refused(fault)),
    }
}

/// What a session makes of a schedule, with the bytes of its batches.
fn session_told(alloc: Global, schedule: &Schedule) -> Result<ScheduleOutcome, AllocError>
    ensures { IfOk result (λ told. IsToldBySession (session_refusal schedule.now) told) }
{
    match replay_schedule(alloc, schedule) {
        Ok(replayed) => {
            let text = printed_with_bytes(alloc, schedule.header(), &replayed)?;
            Ok(ScheduleOutcome::Printed(text))
        }
        Err(SessionFault::Play(PlayFault::Memory)) => Err(AllocError),
        Err(SessionFault::Play(fault)) => Ok(ScheduleOutcome::Refused(fault)),
        Err(fault) => Ok(ScheduleOutcome::CantGoOn(fault)),
    }
}

/// What each of the two makes of a schedule, the player's in front.
pub fn both_told(
    alloc: Global,
    sample: &Sample,
) -> Result<(ScheduleOutcome, ScheduleOutcome), AllocError>
    ensures { IfOk result (λ told. IsToldBySession (session_refusal sample.now.schedule) told.1) }
{
    let player = player_told(alloc, sample)?;
    let session = session_told(alloc, &sample.schedule)?;
    Ok((player, session))
}

/// How both compare.
pub fn verdict_of(player: &ScheduleOutcome, session: &ScheduleOutcome) -> Comparison
    ensures alike { result ≡ Comparison.Alike → IsAlike player.now session.now }
    ensures refused { result ≡ Comparison.RefusedAlike → IsRefusedAlike player.now session.now }
    ensures same_text { IsAlike player.now session.now → result ≡ Comparison.Alike }
    ensures same_fault { IsRefusedAlike player.now session.now → result ≡ Comparison.RefusedAlike }
{
    match (player, session) {
        (ScheduleOutcome::Printed(one), ScheduleOutcome::Printed(other)) if one == other =>
            Comparison::Alike,
        (ScheduleOutcome::Refused(one), ScheduleOutcome::Refused(other)) if one == other =>
            Comparison::RefusedAlike,
        _ => Comparison::Differ,
    }
}
