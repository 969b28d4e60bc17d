//! What the deeds of one CPU show in its band, each in its column.

use crate::drawing::{Band, Sheet};
use crate::fates::{held, seals, spoken_look, traced_look};
use crate::grid::{COLUMNS, box_x, lane_top, middle_x, row_top};
use crate::svg::{
    Offered, RecordStyle, print_box, print_cross, print_down, print_numbered, print_seal,
    print_words,
};
use dspec_deeds::{DecideFate, Deed, TraceFate};
use dspec_record::Rec;
use dspec_word::SpecId;
use std::alloc::AllocError;

/// The distance of two records of one block.
const STACK: u64 = 22;

/// How far the foot of a small text stands above what it names.
pub(crate) const ABOVE: u64 = 3;

/// A column of a CPU's band, with the deeds before its own and after that.
#[derive(Clone, Copy)]
struct ColumnMark<'a> {
    page: Sheet<'a>,
    band: Band,
    column: u64,
    before: &'a [Deed],
    after: &'a [Deed],
}

impl ColumnMark<'_> {
    /// Where the band begins in the column's row.
    fn top(&self) -> u64 {
        row_top(self.page.stride, self.column / COLUMNS).saturating_add(self.band.top)
    }

    /// Where its stream does.
    fn stream(&self) -> u64 {
        self.top().saturating_add(self.band.stream)
    }

    /// Where the lane of a speculation does.
    fn lane(&self, id: SpecId) -> u64 {
        self.top()
            .saturating_add(lane_top(self.band.cpu, id.slot(), self.page.deeds))
    }

    /// A small text above what stands at a height.
    fn label(&self, text: &mut String, y: u64, words: &str) -> Result<(), AllocError> {
        print_words(
            text,
            "label",
            middle_x(self.column),
            y.saturating_sub(ABOVE),
            words,
        )
    }

    /// The same with a number, above the stream.
    fn numbered(&self, text: &mut String, words: &str, number: u64) -> Result<(), AllocError> {
        let y = self.stream().saturating_sub(ABOVE);
        print_numbered(text, "label", middle_x(self.column), y, words, number)
    }

    /// The box of a record at a height.
    fn record(
        &self,
        text: &mut String,
        y: u64,
        filled: bool,
        look: RecordStyle,
        target: Option<SpecId>,
        content: &Rec,
    ) -> Result<(), AllocError> {
        let offered = Offered {
            cpu: self.band.cpu,
            header: self.page.header,
            target,
            content,
        };
        print_box(
            self.page.alloc,
            text,
            box_x(self.column),
            y,
            filled,
            look,
            &offered,
        )
    }

    /// What a copied buffer shows: an arrow down to its records on the stream, below one another, or a stroke where it was empty.
    fn copied(&self, text: &mut String, id: SpecId, x: u64, y: u64) -> Result<(), AllocError> {
        let recs = held(self.page.alloc, self.band.cpu, id, self.before)?;
        if recs.is_empty() {
            return print_down(text, "tick", x, y, 20);
        }
        let mut place = self.stream();
        print_down(text, "arrow", x, y, place.saturating_sub(y))?;
        for rec in &recs {
            self.record(text, place, true, RecordStyle::Taken, Some(id), rec)?;
            place = place.saturating_add(STACK);
        }
        Ok(())
    }

    /// A decision or a settlement in its speculation's lane, by its name, and what became of the buffer.
    fn decision(
        &self,
        text: &mut String,
        verb: &str,
        id: SpecId,
        fate: DecideFate,
    ) -> Result<(), AllocError> {
        let (x, y) = (middle_x(self.column), self.lane(id));
        self.label(text, y, verb)?;
        match fate {
            DecideFate::Copied(_) => self.copied(text, id, x, y),
            DecideFate::Lost(_) => print_cross(text, x, y, RecordStyle::Dropped),
            DecideFate::Thrown(0) => print_down(text, "tick", x, y, 20),
            DecideFate::Thrown(_) => print_cross(text, x, y, RecordStyle::Discarded),
            DecideFate::Void => print_words(text, "label", x, y.saturating_add(14), "void"),
            DecideFate::Stopped => print_words(text, "label", x, y.saturating_add(14), "stopped"),
        }
    }

    /// The end of a batch.
    fn seal(&self, text: &mut String) -> Result<(), AllocError> {
        let band = self.band;
        let number = seals(band.cpu, self.before).saturating_add(1);
        let (x, y) = (middle_x(self.column), self.stream());
        print_seal(text, x, y, band.cpu, number, number <= band.taken)?;
        self.numbered(text, "batch", number)
    }

    /// What a walk over the slots shows at a slot: where it found none free, so much at the last one.
    fn miss(&self, text: &mut String, slot: u32) -> Result<(), AllocError> {
        if slot != self.page.slots {
            return Ok(());
        }
        let y = self.stream().saturating_sub(ABOVE);
        print_words(text, "label red", middle_x(self.column), y, "no slot")
    }

    /// What the deed shows, if it is the CPU's.
    fn deed(&self, text: &mut String, deed: &Deed) -> Result<(), AllocError> {
        let cpu = self.band.cpu;
        match *deed {
            Deed::Trace(by, rec, fate) if by == cpu => {
                let filled = matches!(fate, TraceFate::Kept);
                self.record(text, self.stream(), filled, traced_look(fate), None, &rec)
            }
            Deed::Scan(by, false) if by == cpu => self.label(text, self.stream(), "stopped"),
            Deed::Opened(by, id) if by == cpu => self.numbered(text, "opens", u64::from(id.slot())),
            Deed::Miss(by, slot, _) if by == cpu => self.miss(text, slot),
            Deed::Speculate(by, id, rec, fate) if by == cpu => {
                let look = spoken_look(cpu, id, fate, self.after);
                self.record(text, self.lane(id), false, look, Some(id), &rec)
            }
            Deed::Commit(by, id, fate) if by == cpu => self.decision(text, "commit", id, fate),
            Deed::Discard(by, id, fate) if by == cpu => self.decision(text, "discard", id, fate),
            Deed::Settle(by, id, fate) if by == cpu => self.decision(text, "settle", id, fate),
            Deed::Seal(by) if by == cpu => self.seal(text),
            _ => Ok(()),
        }
    }
}

/// What all deeds of the CPU show.
pub(crate) fn push_band(
    text: &mut String,
    page: &Sheet<'_>,
    band: &Band,
) -> Result<(), AllocError> {
    let deeds = page.deeds;
    for at in 0..deeds.len() {
        let mark = ColumnMark {
            page: *page,
            band: *band,
            column: at as u64,
            before: &deeds[..at],
            after: &deeds[at + 1..],
        };
        mark.deed(text, &deeds[at])?;
    }
    Ok(())
}
