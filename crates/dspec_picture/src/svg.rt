//! The text of what a picture is made of, in SVG. Places and sizes are in units of the picture, x to the right and y downwards.

use crate::words::standing_name;
use dspec_record::{Header, Rec};
use dspec_schedule::print_record;
use dspec_word::{Code, SpecId};
use std::alloc::{AllocError, Global};

/// How a record looks: by the fate that it has in the end.
#[derive(Clone, Copy, Debug, PartialEq, Eq)]
pub(crate) enum RecordStyle {
    /// A principal buffer accepted it.
    Taken,
    /// There was no room for it, or for its block.
    Dropped,
    /// A discard threw it away.
    Discarded,
    /// It was offered after a stop, or to a speculation that wasn't open.
    Void,
    /// It waited for a decision that never came.
    Abandoned,
}

/// A record as its box tells it: who offered it, where to, under which header, and what it says.
#[derive(Clone, Copy)]
pub(crate) struct Offered<'a> {
    pub(crate) cpu: u32,
    pub(crate) header: Header,
    pub(crate) target: Option<SpecId>,
    pub(crate) content: &'a Rec,
}

/// A state of a slot's word: which slot, how often it was released, and the code.
#[derive(Clone, Copy, Debug, PartialEq, Eq)]
pub(crate) struct SlotLook {
    pub(crate) slot: u32,
    pub(crate) issue: u64,
    pub(crate) code: Code,
}

/// The most characters of a record that its box shows whole.
const LABEL: usize = 6;

/// The head of a picture of this size.
pub(crate) fn print_head(text: &mut String, width: u64, height: u64) -> Result<(), AllocError> {
    write!(
        text,
        "<svg xmlns='http://www.w3.org/2000/svg' role='img' width='{width}' height='{height}' viewBox='0 0 {width} {height}'>\n"
    )?;
    text.push_str(STYLE)
}

/// The ground of a band.
pub(crate) fn print_ground(
    text: &mut String,
    y: u64,
    width: u64,
    height: u64,
) -> Result<(), AllocError> {
    write!(
        text,
        "<rect class='ground' y='{y}' width='{width}' height='{height}'/>\n"
    )
}

/// A text at a place.
pub(crate) fn print_words(
    text: &mut String,
    class: &str,
    x: u64,
    y: u64,
    words: &str,
) -> Result<(), AllocError> {
    write!(
        text,
        "<text class='{class}' x='{x}' y='{y}'>{words}</text>\n"
    )
}

/// The same with a number after it.
pub(crate) fn print_numbered(
    text: &mut String,
    class: &str,
    x: u64,
    y: u64,
    words: &str,
    number: u64,
) -> Result<(), AllocError> {
    write!(
        text,
        "<text class='{class}' x='{x}' y='{y}'>{words} {number}</text>\n"
    )
}

/// A line from the columns' beginning to where they end.
pub(crate) fn print_level(
    text: &mut String,
    class: &str,
    y: u64,
    end: u64,
) -> Result<(), AllocError> {
    write!(text, "<path class='{class}' d='M100 {y}H{end}'/>\n")
}

/// A line downwards.
pub(crate) fn print_down(
    text: &mut String,
    class: &str,
    x: u64,
    y: u64,
    height: u64,
) -> Result<(), AllocError> {
    write!(text, "<path class='{class}' d='M{x} {y}v{height}'/>\n")
}

/// The head of a group: its classes and the origin of what stands in it.
fn print_group(
    text: &mut String,
    class: &str,
    more: &str,
    x: u64,
    y: u64,
) -> Result<(), AllocError> {
    write!(
        text,
        "<g class='{class}{more}' transform='translate({x},{y})'>"
    )
}

fn look_name(look: RecordStyle) -> &'static str {
    match look {
        RecordStyle::Taken => "taken",
        RecordStyle::Dropped => "dropped",
        RecordStyle::Discarded => "discarded",
        RecordStyle::Void => "void",
        RecordStyle::Abandoned => "abandoned",
    }
}

fn filled_name(filled: bool) -> &'static str {
    if filled { " on" } else { "" }
}

/// The line through a record that is gone.
fn strike(look: RecordStyle) -> &'static str {
    match look {
        RecordStyle::Dropped => "<path d='M-3 10H47'/>",
        RecordStyle::Discarded => "<path d='M0 22L44 -2'/>",
        RecordStyle::Taken | RecordStyle::Void | RecordStyle::Abandoned => "",
    }
}

/// Where a record was offered to.
fn print_target(text: &mut String, target: Option<SpecId>) -> Result<(), AllocError> {
    match target {
        None => text.push_str("the principal buffer"),
        Some(id) => write!(text, "speculation {}", id.raw()),
    }
}

/// The text in a box: the record, or where that is long its EPID and three dots, or the dots alone.
fn print_label(text: &mut String, whole: &str, epid: u32) -> Result<(), AllocError> {
    if whole.len() <= LABEL {
        return text.push_str(whole);
    }
    if epid < 100_000 {
        return write!(text, "{epid}&#8230;");
    }
    text.push_str("&#8230;")
}

/// A record's box, and whether it is filled, as those on a stream are.
pub(crate) fn print_box(
    alloc: Global,
    text: &mut String,
    x: u64,
    y: u64,
    filled: bool,
    look: RecordStyle,
    offered: &Offered<'_>,
) -> Result<(), AllocError> {
    let (cpu, name, line) = (offered.cpu, look_name(look), strike(look));
    let mut whole = String::new(alloc);
    print_record(&mut whole, offered.header, offered.content)?;
    let whole = whole.as_str();
    print_group(text, name, filled_name(filled), x, y)?;
    write!(text, "<title>cpu {cpu}, record {whole}, offered to ")?;
    print_target(text, offered.target)?;
    write!(
        text,
        ", {name}</title><rect width='44' height='20' rx='4'/><text x='22' y='14'>"
    )?;
    print_label(text, whole, offered.content.epid())?;
    write!(text, "</text>{line}</g>\n")
}

/// The end of a buffer that wasn't copied: x of its middle.
pub(crate) fn print_cross(
    text: &mut String,
    x: u64,
    y: u64,
    look: RecordStyle,
) -> Result<(), AllocError> {
    let name = look_name(look);
    print_group(text, name, "", x, y)?;
    write!(
        text,
        "<title>records {name}</title><path d='M-6 4L6 16M6 4L-6 16'/></g>\n"
    )
}

/// An entry of the legend.
pub(crate) fn print_key(
    text: &mut String,
    x: u64,
    y: u64,
    look: RecordStyle,
) -> Result<(), AllocError> {
    let filled = matches!(look, RecordStyle::Taken);
    let (name, line) = match look {
        RecordStyle::Dropped => ("dropped, lost", strike(look)),
        _ => (look_name(look), strike(look)),
    };
    print_group(text, look_name(look), filled_name(filled), x, y)?;
    write!(
        text,
        "<rect width='44' height='20' rx='4'/><text x='22' y='14'>r</text>{line}<text class='name' x='52' y='14'>{name}</text></g>\n"
    )
}

/// The end of a batch on a stream, and whether the consumer took it.
pub(crate) fn print_seal(
    text: &mut String,
    x: u64,
    y: u64,
    cpu: u32,
    number: u64,
    taken: bool,
) -> Result<(), AllocError> {
    let (more, end) = if taken {
        ("", "taken by the consumer")
    } else {
        (" left", "not taken")
    };
    print_group(text, "seal", more, x, y)?;
    write!(
        text,
        "<title>cpu {cpu}, batch {number}, {end}</title><path d='M0 -1V21'/></g>\n"
    )
}

/// The class of a segment, which its colour goes by, and the width that the identifier and the state's name take.
fn code_look(code: Code) -> (&'static str, u64) {
    match code {
        Code::Inactive => ("s0", 50),
        Code::Active => ("s1", 96),
        Code::ActiveOne => ("s2", 78),
        Code::ActiveMany => ("s3", 84),
        Code::Committing => ("s4", 120),
        Code::CommittingMany => ("s5", 150),
        Code::Discarding => ("s6", 120),
    }
}

/// The number of the slot's speculation, where it has one.
fn slot_id(state: SlotLook) -> Option<u64> {
    match state.code {
        Code::Inactive => None,
        _ => Some(
            state
                .issue
                .saturating_mul(64)
                .saturating_add(u64::from(state.slot)),
        ),
    }
}

/// What a segment shows: as much of identifier and state as there is room for.
fn print_state(
    text: &mut String,
    width: u64,
    room: u64,
    state: SlotLook,
) -> Result<(), AllocError> {
    let name = standing_name(state.code);
    match slot_id(state) {
        Some(id) if room <= width => {
            write!(text, "<text class='state' x='5' y='14'>{id} {name}</text>")
        }
        Some(id) if width >= 50 || (width >= 25 && id < 1000) => {
            write!(text, "<text class='state' x='5' y='14'>{id}</text>")
        }
        None if room <= width => write!(text, "<text class='state' x='5' y='14'>{name}</text>"),
        _ => Ok(()),
    }
}

/// The speculation of a segment, for a screen reader.
fn print_told(text: &mut String, state: SlotLook) -> Result<(), AllocError> {
    match slot_id(state) {
        None => Ok(()),
        Some(id) => write!(text, "speculation {id}, "),
    }
}

/// A state of a slot's word.
pub(crate) fn print_segment(
    text: &mut String,
    x: u64,
    y: u64,
    width: u64,
    state: SlotLook,
) -> Result<(), AllocError> {
    let (class, room) = code_look(state.code);
    let (slot, name) = (state.slot, standing_name(state.code));
    print_group(text, class, "", x, y)?;
    write!(text, "<title>slot {slot}, ")?;
    print_told(text, state)?;
    write!(
        text,
        "{name}</title><rect width='{width}' height='20' rx='3'/>"
    )?;
    print_state(text, width, room, state)?;
    text.push_str("</g>\n")
}

/// The title of the picture, the tip of its arrows, its classes and its ground.
const STYLE: &str = "\
<title>What a play did, deed by deed</title>\n\
<defs><marker id='tip' markerWidth='6' markerHeight='6' refX='6' refY='3' orient='auto'><path class='tip' d='M0 0L6 3L0 6z'/></marker></defs>\n\
<style>\n\
text{font-family:Helvetica,Arial,sans-serif;font-size:11px;text-anchor:middle}\n\
text.name,g text.name{text-anchor:start;fill:#222}\n\
text.state{text-anchor:start;fill:#222;font-size:10px}\n\
text.label{font-size:9px;fill:#555;stroke:#fafafa;stroke-width:3px;paint-order:stroke}\n\
text.bold{font-weight:bold}\n\
text.red{fill:#c62828}\n\
path{fill:none}.tip{fill:#2e7d32}\n\
.ground{fill:#fafafa}\n\
.lane{stroke:#ddd}\n\
.stream{stroke:#aaa;stroke-width:2}\n\
.arrow{stroke:#2e7d32;stroke-width:2;marker-end:url(#tip)}\n\
.tick{stroke:#555;stroke-width:2}\n\
.stop{stroke:#c62828;stroke-width:2;stroke-dasharray:6 3}\n\
.seal path{stroke:#333;stroke-width:3}\n\
.left path{stroke-dasharray:4 2}\n\
.taken rect{fill:#fff;stroke:#2e7d32}.taken text{fill:#2e7d32}\n\
.on rect{fill:#2e7d32}.on text{fill:#fff}\n\
.dropped rect,.dropped path{fill:#fff;stroke:#c62828;stroke-width:1.5}.dropped text{fill:#c62828}\n\
.discarded rect,.discarded path{fill:#fff;stroke:#6d6d6d}.discarded text{fill:#6d6d6d}\n\
.dropped text+path,.discarded text+path{stroke-opacity:.45}\n\
.void rect{fill:#fff;stroke:#6d6d6d;stroke-dasharray:3 2}.void text{fill:#6d6d6d}\n\
.abandoned rect{fill:#fff;stroke:#b26a00;stroke-width:3}.abandoned text{fill:#b26a00}\n\
.s0 rect{fill:#f2f2f2;stroke:#ccc}.s1 rect{fill:#e3effb;stroke:#5b9bd8}.s2 rect{fill:#b5d6f4;stroke:#5b9bd8}.s3 rect{fill:#7fb6e8;stroke:#2f6fb0}\n\
.s4 rect{fill:#c9e9ca;stroke:#2e7d32;stroke-dasharray:6 2}.s5 rect{fill:#8ccf8f;stroke:#2e7d32;stroke-dasharray:6 2}\n\
.s6 rect{fill:#e3c4c4;stroke:#8c2f2f;stroke-dasharray:2 2}\n\
</style>\n\
<rect width='100%' height='100%' fill='#fff'/>\n";
