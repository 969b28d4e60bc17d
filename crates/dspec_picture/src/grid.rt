//! Where things stand. Places are counted up to the greatest number and no further, so that no call has to bound them.

use dspec_deeds::Deed;

/// How many columns a row has at the most.
pub(crate) const COLUMNS: u64 = 40;

/// How many numbers a slot may have.
pub(crate) const SLOTS: u32 = 64;

/// How many rows so many deeds take.
pub(crate) fn row_count(deeds: u64) -> u64 {
    1 + deeds.saturating_sub(1) / COLUMNS
}

/// Where the box of a column begins.
pub(crate) fn box_x(column: u64) -> u64 {
    103 + 50 * (column % COLUMNS)
}

/// The middle of a column.
pub(crate) fn middle_x(column: u64) -> u64 {
    125 + 50 * (column % COLUMNS)
}

/// Where the columns of a row end.
pub(crate) fn row_end(row: u64, deeds: u64) -> u64 {
    100 + 50 * COLUMNS.min(deeds.saturating_sub(COLUMNS.saturating_mul(row)))
}

/// How wide the picture is.
pub(crate) fn picture_width(deeds: u64) -> u64 {
    110 + 50 * COLUMNS.min(deeds).max(13)
}

/// Whether the deed gives out the slot.
fn opens(slot: u32, deed: &Deed) -> bool {
    match deed {
        Deed::Opened(_, id) => slot == id.slot(),
        _ => false,
    }
}

/// Whether the slot was given out at some time.
pub(crate) fn was_given(slot: u32, deeds: &[Deed]) -> bool {
    deeds.iter().any(|deed| opens(slot, deed))
}

/// How many slots below this one have a bar.
pub(crate) fn bars_above(slot: u32, deeds: &[Deed]) -> u64 {
    let mut bars = 0u64;
    for below in 0..slot {
        bars = bars.saturating_add(u64::from(was_given(below, deeds)));
    }
    bars
}

/// Whether the deed is the CPU's, about a speculation of this slot.
fn speculates_to(cpu: u32, slot: u32, deed: &Deed) -> bool {
    match deed {
        Deed::Speculate(by, id, _, _) => cpu == *by && slot == id.slot(),
        Deed::Commit(by, id, _) | Deed::Discard(by, id, _) | Deed::Settle(by, id, _) => {
            cpu == *by && slot == id.slot()
        }
        _ => false,
    }
}

/// Whether the CPU spoke to the slot at some time.
pub(crate) fn has_lane(cpu: u32, slot: u32, deeds: &[Deed]) -> bool {
    deeds.iter().any(|deed| speculates_to(cpu, slot, deed))
}

/// Where a slot's bar begins in a row.
pub(crate) fn bar_top(slot: u32, deeds: &[Deed]) -> u64 {
    bars_above(slot, deeds)
        .saturating_mul(34)
        .saturating_add(16)
}

/// Where the boxes of a slot's lane begin in the CPU's band; the stream's begin where the lane of a slot after the last one would.
pub(crate) fn lane_top(cpu: u32, slot: u32, deeds: &[Deed]) -> u64 {
    let mut lanes = 0u64;
    for below in 0..slot {
        lanes = lanes.saturating_add(u64::from(has_lane(cpu, below, deeds)));
    }
    lanes.saturating_mul(32).saturating_add(18)
}

/// Where a row begins.
pub(crate) fn row_top(stride: u64, row: u64) -> u64 {
    stride.saturating_mul(row)
}
