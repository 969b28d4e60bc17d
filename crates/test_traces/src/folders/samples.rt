//! A trace of one CPU: its clock, its metadata and its file.
use dspec_ctf_reading::{ClockText, EventText, Field, FieldText, Kind, Label, Metadata};
use std::alloc::{AllocError, Global};

/// The clock of the trace here: a tick is a nanosecond, and it began 25 ticks after a second.
pub const CLOCK: ClockText<'static> = ClockText {
    frequency: 1_000_000_000,
    uuid: None,
    start: Some((1_700_000_000, 25)),
};

/// A field of these numbers.
pub fn field(alloc: Global, name: &'static str, width: Field, kind: Kind) -> FieldText<'static> {
    FieldText {
        name,
        width,
        kind,
        labels: Vec::new(alloc),
    }
}

/// A trace with a clock and one event, 3, of a labelled number and of one with a sign.
pub fn metadata(alloc: Global) -> Result<Metadata<'static>, AllocError> {
    let mut status = field(alloc, "status", Field::One, Kind::Unsigned);
    status.labels.push(Label {
        text: "not found",
        number: 1,
    })?;
    let mut fields = Vec::new(alloc);
    fields.push(status)?;
    fields.push(field(alloc, "delta", Field::Two, Kind::Signed))?;
    let mut events = Vec::new(alloc);
    events.push(EventText {
        id: 3,
        name: "step",
        fields,
    })?;
    Ok(Metadata {
        uuid: "00112233-4455-6677-8899-aabbccddeeff",
        process: None,
        clock: Some(CLOCK),
        events,
    })
}

/// Two packets of CPU 1, of 83 and of 98 bytes: 3@5(1, -2), and 3@5(0, 7) with 3@9(2, 1), before which four were missed.
pub const FILE: [u8; 181] = [
    193, 31, 252, 193, 0, 17, 34, 51, 68, 85, 102, 119, 136, 153, 170, 187, 204, 221, 238, 255, 0,
    0, 0, 0, 5, 0, 0, 0, 0, 0, 0, 0, 5, 0, 0, 0, 0, 0, 0, 0, 152, 2, 0, 0, 0, 0, 0, 0, 152, 2, 0,
    0, 0, 0, 0, 0, 0, 0, 0, 0, 0, 0, 0, 0, 1, 0, 0, 0, 3, 0, 0, 0, 5, 0, 0, 0, 0, 0, 0, 0, 1, 254,
    255, 193, 31, 252, 193, 0, 17, 34, 51, 68, 85, 102, 119, 136, 153, 170, 187, 204, 221, 238,
    255, 0, 0, 0, 0, 5, 0, 0, 0, 0, 0, 0, 0, 9, 0, 0, 0, 0, 0, 0, 0, 16, 3, 0, 0, 0, 0, 0, 0, 16,
    3, 0, 0, 0, 0, 0, 0, 4, 0, 0, 0, 0, 0, 0, 0, 1, 0, 0, 0, 3, 0, 0, 0, 5, 0, 0, 0, 0, 0, 0, 0, 0,
    7, 0, 3, 0, 0, 0, 9, 0, 0, 0, 0, 0, 0, 0, 2, 1, 0,
];
