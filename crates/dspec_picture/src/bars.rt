//! The bars of slots: a segment for each state of a slot's word.

use crate::fates::{commits, discards};
use crate::grid::{COLUMNS, SLOTS, bar_top, row_end, row_top, was_given};
use crate::svg::{SlotLook, print_numbered, print_segment};
use dspec_deeds::{Deed, SpeculateFate};
use dspec_word::{Code, SpecId};
use std::alloc::AllocError;

/// A slot as the deeds so far leave it, and the CPU that its speculation was granted to, as long as that is one.
#[derive(Clone, Copy)]
struct SlotWalk {
    look: SlotLook,
    caller: u32,
}

/// Whether the identifier is of the slot's speculation.
fn is_present(look: SlotLook, id: SpecId) -> bool {
    look.slot == id.slot() && look.issue == id.issue()
}

/// The code once a record is granted to this CPU.
fn granted(walk: SlotWalk, cpu: u32) -> Code {
    match walk.look.code {
        Code::Active => Code::ActiveOne,
        Code::ActiveOne if cpu != walk.caller => Code::ActiveMany,
        code => code,
    }
}

/// The code once this CPU commits.
fn committed(walk: SlotWalk, cpu: u32) -> Code {
    match walk.look.code {
        Code::Active => Code::Committing,
        Code::ActiveOne if cpu == walk.caller => Code::Committing,
        Code::ActiveOne | Code::ActiveMany => Code::CommittingMany,
        code => code,
    }
}

/// The code once it is discarded.
fn discarded(code: Code) -> Code {
    match code {
        Code::Inactive => Code::Inactive,
        _ => Code::Discarding,
    }
}

/// The slot with another code.
fn recoded(walk: SlotWalk, caller: u32, code: Code) -> SlotWalk {
    let look = SlotLook { code, ..walk.look };
    SlotWalk { look, caller }
}

/// The slot after one more deed.
fn walked(walk: SlotWalk, deed: &Deed) -> SlotWalk {
    let look = walk.look;
    match *deed {
        Deed::Release(slot) if slot == look.slot => {
            let issue = look.issue.saturating_add(1);
            let code = Code::Inactive;
            let look = SlotLook { slot, issue, code };
            SlotWalk { look, caller: 0 }
        }
        Deed::Opened(cpu, id) if is_present(look, id) => recoded(walk, cpu, Code::Active),
        Deed::Speculate(cpu, id, _, SpeculateFate::Kept | SpeculateFate::Dropped)
            if is_present(look, id) => { recoded(walk, cpu, granted(walk, cpu)) }
        Deed::Commit(cpu, id, fate) if commits(fate) && is_present(look, id) => {
            recoded(walk, cpu, committed(walk, cpu))
        }
        Deed::Discard(cpu, id, fate) if discards(fate) && is_present(look, id) => {
            recoded(walk, cpu, discarded(look.code))
        }
        _ => walk,
    }
}

/// The slot after these deeds.
fn walked_all(slot: u32, deeds: &[Deed]) -> SlotWalk {
    let (issue, code) = (0, Code::Inactive);
    let look = SlotLook { slot, issue, code };
    let mut walk = SlotWalk { look, caller: 0 };
    for deed in deeds {
        walk = walked(walk, deed);
    }
    walk
}

/// Where a word changes that stands before this column of a row.
fn change_x(column: u64) -> u64 {
    if column == 0 {
        return 100;
    }
    column.saturating_mul(50).saturating_add(75)
}

/// The segments of a slot in a row whose columns end at a place: a segment for each state that begins in it.
fn push_segments(
    text: &mut String,
    y: u64,
    end: u64,
    walk: SlotWalk,
    row: &[Deed],
) -> Result<(), AllocError> {
    let mut walk = walk;
    let mut x = change_x(0);
    for at in 0..row.len() {
        let next = walked(walk, &row[at]);
        if next.look != walk.look {
            let change = change_x((at as u64).saturating_add(1));
            print_segment(text, x, y, change.saturating_sub(x), walk.look)?;
            x = change;
        }
        walk = next;
    }
    print_segment(text, x, y, end.saturating_sub(x), walk.look)
}

/// The bars of a row: one for each slot that was given out.
pub(crate) fn push_bars(
    text: &mut String,
    stride: u64,
    row: u64,
    deeds: &[Deed],
) -> Result<(), AllocError> {
    let count = deeds.len() as u64;
    let front = COLUMNS.saturating_mul(row).min(count) as usize;
    let after = &deeds[front..];
    let here = &after[..after.len().min(COLUMNS as usize)];
    for slot in 0..SLOTS {
        if was_given(slot, deeds) {
            let y = row_top(stride, row).saturating_add(bar_top(slot, deeds));
            print_numbered(
                text,
                "name",
                8,
                y.saturating_add(15),
                "slot",
                u64::from(slot),
            )?;
            let walk = walked_all(slot, &deeds[..front]);
            push_segments(text, y, row_end(row, count), walk, here)?;
        }
    }
    Ok(())
}
