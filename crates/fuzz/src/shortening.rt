//! Fewer turns with the same end: a difference.

use crate::comparing::{Comparison, both_told, verdict_of};
use crate::sample::Sample;
use dspec_deeds::CpuOp;
use std::alloc::{AllocError, Global};

/// Whether the player and a session still differ.
fn differs(alloc: Global, sample: &Sample) -> Result<bool, AllocError> {
    let (player, session) = both_told(alloc, sample)?;
    Ok(verdict_of(&player, &session) == Comparison::Differ)
}

/// Takes out each turn without which both still differ, the last first. Says whether one was.
fn thin(alloc: Global, sample: &mut Sample) -> Result<bool, AllocError> {
    // Naming the type once tells the toolchain which module holds it, which it wants for a turn that is held.
    let _named: Option<CpuOp> = None;
    let mut is_shorter = false;
    for place in (0..sample.schedule.turns.len()).rev() {
        if place >= sample.schedule.turns.len() {
            continue;
        }
        let turn = sample.schedule.turns.remove(place);
        if differs(alloc, sample)? {
            is_shorter = true;
        } else {
            sample.schedule.turns.insert(place, turn)?;
        }
    }
    Ok(is_shorter)
}

/// Takes turns out of a schedule at which both differ, until none can be taken out alone.
pub fn shorten(alloc: Global, sample: &mut Sample) -> Result<(), AllocError> {
    for _ in 0..sample.schedule.turns.len() {
        if !thin(alloc, sample)? {
            break;
        }
    }
    Ok(())
}
