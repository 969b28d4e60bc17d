//! The picture of a play.
ghost use Rattle.std.specs.Prelude.{◌≡◌, ◌<◌, ◌↔◌, Err, length};
ghost use Rattle.dspec_picture.specs.declared.drawing.PictureFault.TheVariants.{Memory};

use crate::bars::push_bars;
use crate::fates::deepest;
use crate::grid::{
    COLUMNS, SLOTS, bar_top, bars_above, has_lane, lane_top, middle_x, picture_width, row_count,
    row_end, row_top,
};
use crate::marks::{ABOVE, push_band};
use crate::svg::{
    RecordStyle, print_down, print_ground, print_head, print_key, print_level, print_numbered,
    print_words,
};
use dspec_deeds::{Config, Deed};
use dspec_record::Header;
use std::alloc::{AllocError, Global};

/// How many deeds a picture shows at the most.
pub const MOST_DEEDS: usize = 2_000;

/// Why a play has no picture.
#[derive(Clone, Copy, Debug, PartialEq, Eq, thiserror::Error)]
pub enum PictureFault {
    /// More deeds than a picture shows.
    #[error("more than 2000 deeds")]
    TooManyDeeds,
    /// A growth was refused.
    #[error("out of memory")]
    Memory,
}

impl From<AllocError> for PictureFault {
    ghost from_gives = { λ _ fault. fault ≡ Memory };

    fn from(_fault: AllocError) -> Self {
        PictureFault::Memory
    }
}

/// What a picture rests on: its deeds, the header of their records, how many slots the session has, and the height of a row.
#[derive(Clone, Copy)]
pub(crate) struct Sheet<'a> {
    pub(crate) alloc: Global,
    pub(crate) deeds: &'a [Deed],
    pub(crate) header: Header,
    pub(crate) slots: u32,
    pub(crate) stride: u64,
}

/// A CPU's band: how many of its batches the consumer took, where it begins in a row and how high it is, and where its stream's boxes begin in it.
#[derive(Clone, Copy)]
pub(crate) struct Band {
    pub(crate) cpu: u32,
    pub(crate) taken: u64,
    pub(crate) top: u64,
    pub(crate) height: u64,
    pub(crate) stream: u64,
}

/// Where the bands of a row begin.
fn bands_top(deeds: &[Deed]) -> u64 {
    bars_above(SLOTS, deeds)
        .saturating_mul(34)
        .saturating_add(24)
}

/// The bands of all CPUs, below one another, and how high a row with them is.
fn bands_of(
    alloc: Global,
    cpus: u32,
    batches: &[u64],
    deeds: &[Deed],
) -> Result<(Vec<Band>, u64), AllocError> {
    let mut bands = Vec::new(alloc);
    let mut top = bands_top(deeds);
    for cpu in 0..cpus {
        let stream = lane_top(cpu, SLOTS, deeds);
        let deep = deepest(alloc, cpu, deeds)?.saturating_mul(22);
        let height = stream.saturating_add(deep).saturating_add(6);
        let taken = batches.get(cpu as usize).copied().unwrap_or(0);
        bands.push(Band {
            cpu,
            taken,
            top,
            height,
            stream,
        })?;
        top = top.saturating_add(height).saturating_add(8);
    }
    Ok((bands, top.saturating_add(8)))
}

/// The name and the line of the lane of each slot that the CPU spoke to, in a row whose columns end at a place.
fn push_lanes(
    text: &mut String,
    deeds: &[Deed],
    cpu: u32,
    y: u64,
    end: u64,
) -> Result<(), AllocError> {
    for slot in 0..SLOTS {
        if has_lane(cpu, slot, deeds) {
            let top = y.saturating_add(lane_top(cpu, slot, deeds));
            print_numbered(
                text,
                "name",
                55,
                top.saturating_add(14),
                "slot",
                u64::from(slot),
            )?;
            print_level(text, "lane", top.saturating_add(10), end)?;
        }
    }
    Ok(())
}

/// What stands after the marks of a CPU, in one row.
fn push_frame(
    text: &mut String,
    page: &Sheet<'_>,
    band: &Band,
    row: u64,
) -> Result<(), AllocError> {
    let count = page.deeds.len() as u64;
    let y = row_top(page.stride, row).saturating_add(band.top);
    let (end, stream) = (row_end(row, count), y.saturating_add(band.stream));
    print_ground(text, y, picture_width(count), band.height)?;
    print_numbered(
        text,
        "name bold",
        8,
        y.saturating_add(32),
        "cpu",
        u64::from(band.cpu),
    )?;
    push_lanes(text, page.deeds, band.cpu, y, end)?;
    print_words(text, "name", 55, stream.saturating_add(14), "stream")?;
    print_level(text, "stream", stream.saturating_add(10), end)
}

/// A release above its slot's bar, or a stop through all bands.
fn push_shared(
    text: &mut String,
    page: &Sheet<'_>,
    column: u64,
    deed: &Deed,
) -> Result<(), AllocError> {
    let (x, row) = (middle_x(column), row_top(page.stride, column / COLUMNS));
    match *deed {
        Deed::Release(slot) => {
            let y = row.saturating_add(bar_top(slot, page.deeds));
            print_words(text, "label", x, y.saturating_sub(ABOVE), "free")
        }
        Deed::Halt => {
            let top = bands_top(page.deeds);
            let y = row.saturating_add(top);
            print_down(text, "stop", x, y, page.stride.saturating_sub(top))?;
            print_words(text, "label red", x, y.saturating_sub(ABOVE), "stop")
        }
        _ => Ok(()),
    }
}

/// The bars of each row and its bands; what the deeds of each CPU show; what those show that aren't of a CPU.
fn push_deeds(text: &mut String, page: &Sheet<'_>, bands: &[Band]) -> Result<(), AllocError> {
    let deeds = page.deeds;
    for row in 0..row_count(deeds.len() as u64) {
        push_bars(text, page.stride, row, deeds)?;
        for band in bands {
            push_frame(text, page, band, row)?;
        }
    }
    for band in bands {
        push_band(text, page, band)?;
    }
    for at in 0..deeds.len() {
        push_shared(text, page, at as u64, &deeds[at])?;
    }
    Ok(())
}

/// The five fates, each with its name.
fn push_legend(text: &mut String, y: u64) -> Result<(), AllocError> {
    print_key(text, 100, y, RecordStyle::Taken)?;
    print_key(text, 220, y, RecordStyle::Dropped)?;
    print_key(text, 370, y, RecordStyle::Discarded)?;
    print_key(text, 490, y, RecordStyle::Void)?;
    print_key(text, 610, y, RecordStyle::Abandoned)
}

/// The text of the picture.
fn drawn(
    alloc: Global,
    config: &Config,
    header: Header,
    batches: &[u64],
    deeds: &[Deed],
) -> Result<String, AllocError> {
    let (bands, stride) = bands_of(alloc, config.cpus, batches, deeds)?;
    let page = Sheet {
        alloc,
        deeds,
        header,
        slots: config.nspec,
        stride,
    };
    let count = deeds.len() as u64;
    let foot = row_top(stride, row_count(count)).saturating_add(6);
    let mut text = String::new(alloc);
    print_head(&mut text, picture_width(count), foot.saturating_add(34))?;
    push_deeds(&mut text, &page, bands.as_slice())?;
    push_legend(&mut text, foot)?;
    text.push_str("</svg>\n")?;
    Ok(text)
}

/// The SVG text of a play: its deeds in order of time, and how many batches of each CPU the consumer took.
pub fn picture(
    alloc: Global,
    config: &Config,
    header: Header,
    batches: &[u64],
    deeds: &[Deed],
) -> Result<String, PictureFault>
    ensures refused { (result ≡ Err PictureFault.TooManyDeeds) ↔ (2000 < length deeds.now) }
{
    if deeds.len() > MOST_DEEDS {
        return Err(PictureFault::TooManyDeeds);
    }
    Ok(drawn(alloc, config, header, batches, deeds)?)
}
