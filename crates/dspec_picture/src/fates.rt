//! What is read off the deeds for a band: the fate of each offered record, and what a buffer held.

use crate::svg::RecordStyle;
use dspec_deeds::{DecideFate, Deed, SpeculateFate, TraceFate};
use dspec_record::Rec;
use dspec_word::SpecId;
use std::alloc::{AllocError, Global};

/// Whether the fate is a commit's that decides.
pub(crate) fn commits(fate: DecideFate) -> bool {
    matches!(fate, DecideFate::Copied(_) | DecideFate::Lost(_))
}

/// Whether the fate is a discard's that decides.
pub(crate) fn discards(fate: DecideFate) -> bool {
    matches!(fate, DecideFate::Thrown(_))
}

/// The fate that the emptying of its buffer gives to a record that waits.
fn emptied_as(fate: DecideFate) -> RecordStyle {
    match fate {
        DecideFate::Copied(_) => RecordStyle::Taken,
        DecideFate::Lost(_) => RecordStyle::Dropped,
        DecideFate::Thrown(_) => RecordStyle::Discarded,
        DecideFate::Void | DecideFate::Stopped => RecordStyle::Abandoned,
    }
}

/// The same where a deed of the CPU empties its buffer of the speculation.
fn emptied_by(cpu: u32, id: SpecId, deed: &Deed) -> Option<RecordStyle> {
    let (by, other, fate) = match *deed {
        Deed::Commit(by, other, fate) if commits(fate) => (by, other, fate),
        Deed::Discard(by, other, fate) if discards(fate) => (by, other, fate),
        Deed::Settle(by, other, fate) => (by, other, fate),
        _ => return None,
    };
    if cpu == by && id == other {
        return Some(emptied_as(fate));
    }
    None
}

/// The look of a traced record, which no later deed changes.
pub(crate) fn traced_look(fate: TraceFate) -> RecordStyle {
    match fate {
        TraceFate::Kept => RecordStyle::Taken,
        TraceFate::Dropped => RecordStyle::Dropped,
        TraceFate::Stopped => RecordStyle::Void,
    }
}

/// The look of a record offered to a speculation, before any later deed.
fn first_look(fate: SpeculateFate) -> RecordStyle {
    match fate {
        SpeculateFate::Kept => RecordStyle::Abandoned,
        SpeculateFate::Dropped => RecordStyle::Dropped,
        SpeculateFate::Void | SpeculateFate::Stopped => RecordStyle::Void,
    }
}

/// The look, in the end, of a record that the CPU offered to the speculation, by the deeds after that.
pub(crate) fn spoken_look(
    cpu: u32,
    id: SpecId,
    fate: SpeculateFate,
    after: &[Deed],
) -> RecordStyle {
    let mut look = first_look(fate);
    for deed in after {
        if matches!(look, RecordStyle::Abandoned) {
            look = emptied_by(cpu, id, deed).unwrap_or(look);
        }
    }
    look
}

/// What the CPU's buffer of the speculation keeps by the deed, if anything.
fn kept_by(cpu: u32, id: SpecId, deed: &Deed) -> Option<Rec> {
    match *deed {
        Deed::Speculate(by, other, rec, SpeculateFate::Kept) if cpu == by && id == other => {
            Some(rec)
        }
        _ => None,
    }
}

/// The records in the CPU's buffer of the speculation after the first deeds, in order of time.
pub(crate) fn held(
    alloc: Global,
    cpu: u32,
    id: SpecId,
    before: &[Deed],
) -> Result<Vec<Rec>, AllocError> {
    let mut recs = Vec::new(alloc);
    for deed in before {
        if let Some(rec) = kept_by(cpu, id, deed) {
            recs.push(rec)?;
        }
        if emptied_by(cpu, id, deed).is_some() {
            recs.truncate(0);
        }
    }
    Ok(recs)
}

/// How many records the deed puts on the CPU's stream.
fn accepted_count(
    alloc: Global,
    cpu: u32,
    deed: &Deed,
    before: &[Deed],
) -> Result<usize, AllocError> {
    match *deed {
        Deed::Commit(by, id, DecideFate::Copied(_)) | Deed::Settle(by, id, DecideFate::Copied(_))
            if cpu == by => { Ok(held(alloc, cpu, id, before)?.len()) }
        _ => Ok(0),
    }
}

/// The most records that one deed put on the CPU's stream, and 1 where none did.
pub(crate) fn deepest(alloc: Global, cpu: u32, deeds: &[Deed]) -> Result<u64, AllocError> {
    let mut most = 1;
    for at in 0..deeds.len() {
        most = most.max(accepted_count(alloc, cpu, &deeds[at], &deeds[..at])?);
    }
    Ok(most as u64)
}

/// Whether the deed is a seal of the CPU.
fn seals_now(cpu: u32, deed: &Deed) -> bool {
    match *deed {
        Deed::Seal(by) => cpu == by,
        _ => false,
    }
}

/// How many batches the CPU sealed in the first deeds.
pub(crate) fn seals(cpu: u32, before: &[Deed]) -> u64 {
    let mut count = 0u64;
    for deed in before {
        count = count.saturating_add(u64::from(seals_now(cpu, deed)));
    }
    count
}
