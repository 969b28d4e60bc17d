//! Random records.

use crate::sample::{MOST_FIELDS, SampleFields};
use dspec_record::{Field, Header, Rec};
use dspec_samples::Dice;

/// A record in so many isn't one of the schema.
const STRANGE_IN: u32 = 400;

/// How many probe identifiers of the default action are taken.
const PLAIN_EPIDS: u32 = 9;

/// The parts of a record.
#[derive(Debug, Clone, Copy, PartialEq, Eq)]
struct RecordParts {
    epid: u32,
    values: [u64; MOST_FIELDS + 1],
    count: usize,
}

/// A value that fits a field: small, or any.
fn value(dice: &mut Dice, field: Field) -> u64 {
    let any = if dice.once_in(2) {
        u64::from(dice.roll(10))
    } else {
        dice.word()
    };
    match field {
        Field::One => any & 0xFF,
        Field::Two => any & 0xFFFF,
        Field::Four => any & 0xFFFF_FFFF,
        Field::Eight => any,
    }
}

/// The parts of a record of the schema: of an enabling, or of the default action where there is none.
fn plain(dice: &mut Dice, probes: &[SampleFields]) -> RecordParts {
    let mut values = [0; MOST_FIELDS + 1];
    if probes.is_empty() {
        return RecordParts {
            epid: 1 + dice.roll(PLAIN_EPIDS),
            values,
            count: 0,
        };
    }
    let index = (dice.word() % probes.len() as u64) as usize;
    let fields = probes[index].fields();
    for (place, field) in fields.iter().enumerate() {
        if let Some(slot) = values.get_mut(place) {
            *slot = value(dice, *field);
        }
    }
    RecordParts {
        epid: u32::try_from(index).unwrap_or(0).saturating_add(1),
        values,
        count: fields.len(),
    }
}

/// The same with an identifier or values that no schema has, or that this one may not have.
fn strange(dice: &mut Dice, parts: RecordParts) -> RecordParts {
    match dice.roll(4) {
        0 => RecordParts { epid: 0, ..parts },
        1 => RecordParts {
            epid: 99 + dice.roll(9),
            values: [dice.word(); MOST_FIELDS + 1],
            count: 1,
        },
        2 => RecordParts {
            count: MOST_FIELDS + 1,
            ..parts
        },
        _ => RecordParts {
            values: [u64::MAX; MOST_FIELDS + 1],
            ..parts
        },
    }
}

/// A stamp: small, or any.
fn stamp(dice: &mut Dice, header: Header) -> u64 {
    match header {
        Header::One => 0,
        Header::Two if dice.once_in(4) => dice.word(),
        Header::Two => u64::from(dice.roll(1000)),
    }
}

/// A record, most often of the schema.
pub fn record(dice: &mut Dice, header: Header, probes: &[SampleFields]) -> Rec {
    let plain = plain(dice, probes);
    let parts = if dice.once_in(STRANGE_IN) {
        strange(dice, plain)
    } else {
        plain
    };
    let stamp = stamp(dice, header);
    let count = parts.count.min(MOST_FIELDS + 1);
    match Rec::stamped(parts.epid, stamp, &parts.values[..count]) {
        Some(rec) => rec,
        None => unreachable!(),
    }
}
