//! The batches of a CPU, by the deeds of a play: what it accepted between two switches, and how often its buffer had no room.

ghost use Rattle.std.specs.Prelude.{◌≡◌, ◌++◌, map, reverse, if◌then◌else◌, IfOk};
ghost use Rattle.dspec_deeds.specs.{FateKinds.is_copied, FateKinds.is_lost, FateKinds.count_of, Own.is_drop, Own.seals_now, Own.stream, Reports.accepts_now};
ghost use Rattle.specview.specs.Batches.{TellsCounts, last_share, shares, shown_share};

use dspec_deeds::{DecideFate, Deed, TraceFate};
use dspec_record::Rec;
use std::alloc::{AllocError, Global};

/// A batch of a CPU.
#[derive(Debug, Clone, Copy)]
pub struct Share<'a> {
    /// How often the buffer had no room for a record or a block.
    pub drops: u64,
    /// The records that it accepted.
    pub records: &'a [Rec],
}

/// How many records of a block came, where it was copied.
fn copied(fate: DecideFate) -> usize
    ensures { result ≡ (if is_copied fate then count_of fate else 0) }
{
    match fate {
        DecideFate::Copied(count) => count as usize,
        _ => 0,
    }
}

/// How many records the CPU's buffer accepted by a deed.
fn accepted_by(cpu: u32, deed: &Deed) -> usize
    ensures { result ≡ accepts_now cpu deed.now }
{
    match *deed {
        Deed::Trace(by, _, TraceFate::Kept) if by == cpu => 1,
        Deed::Commit(by, _, fate) if by == cpu => copied(fate),
        Deed::Settle(by, _, fate) if by == cpu => copied(fate),
        _ => 0,
    }
}

/// How often the CPU's buffer had no room at a deed.
fn dropped_by(cpu: u32, deed: &Deed) -> u64
    ensures { result ≡ (if is_drop cpu deed.now then 1 else 0) }
{
    match *deed {
        Deed::Trace(by, _, TraceFate::Dropped) if by == cpu => 1,
        Deed::Commit(by, _, DecideFate::Lost(_)) if by == cpu => 1,
        Deed::Settle(by, _, DecideFate::Lost(_)) if by == cpu => 1,
        _ => 0,
    }
}

/// Whether the CPU sealed a batch by a deed.
fn is_seal_of(cpu: u32, deed: &Deed) -> bool
    ensures { result ≡ seals_now cpu deed.now }
{
    match *deed {
        Deed::Seal(by) => by == cpu,
        _ => false,
    }
}

/// The batches with one more after them, where it has something.
pub fn with_last<'a>(
    mut found: Vec<Share<'a>>,
    last: Share<'a>,
) -> Result<Vec<Share<'a>>, AllocError>
    ensures { IfOk result (λ all. map shown_share all.items ≡ map shown_share found.entry.items ++ last_share (shown_share last.entry)) }
{
    if last.drops == 0 && last.records.is_empty() {
        return Ok(found);
    }
    found.push(last)?;
    Ok(found)
}

/// All batches of a CPU in order of time, of all its accepted records, and after them what its buffer has at the end, where there
/// is something.
pub fn shares_of<'a>(
    alloc: Global,
    cpu: u32,
    deeds: &[Deed],
    records: &'a [Rec],
) -> Result<Vec<Share<'a>>, AllocError>
    requires accepted { records.now ≡ stream cpu (reverse deeds.now) }
    requires told { TellsCounts cpu (reverse deeds.now) }
    ensures { IfOk result (λ found. map shown_share found.items ≡ shares cpu (reverse deeds.now)) }
{
    let mut found = Vec::new(alloc);
    let mut rest = records;
    let mut count: usize = 0;
    let mut drops: u64 = 0;
    for deed in deeds {
        if is_seal_of(cpu, deed) {
            let (records, after) = rest.split_at(count);
            found.push(Share { drops, records })?;
            rest = after;
            count = 0;
            drops = 0;
            continue;
        }
        count += accepted_by(cpu, deed);
        drops += dropped_by(cpu, deed);
    }
    let last = Share {
        drops,
        records: rest,
    };
    with_last(found, last)
}
