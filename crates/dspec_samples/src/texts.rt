use dspec_buffer::{ReadFault, read_all};
use dspec_record::{ReadKind, Rec, Schema};

/// The text of the records 1, 2(7) and 4(9) of the four enablings.
pub const PADDED_TEXT: [u8; 32] = [
    1, 0, 0, 0, 0, 0, 0, 0, 2, 0, 0, 0, 0, 0, 0, 0, 7, 0, 0, 0, 0, 0, 0, 0, 4, 0, 0, 0, 9, 0, 0, 0,
];

/// Where it may be cut between its records: the bytes that are left, and how many records they are.
pub const WHOLE_TEXTS: [(usize, usize); 4] = [(0, 0), (4, 1), (24, 2), (32, 3)];

/// A fault that a reader tells.
pub fn fault(kind: ReadKind, at: usize) -> Option<ReadFault> {
    Some(ReadFault { kind, at })
}

/// What a reader tells of the first so many bytes of the padded text.
pub fn cut_fault(length: usize) -> Option<ReadFault> {
    match length {
        0 | 4 | 24 | 32 => None,
        1..=3 => fault(ReadKind::Truncated, 0),
        5..=7 => fault(ReadKind::Truncated, 4),
        8 => fault(ReadKind::Padding, 4),
        9..=23 => fault(ReadKind::Truncated, 8),
        _ => fault(ReadKind::Truncated, 24),
    }
}

/// Damages of the padded text: a place, the byte that stands there instead, and what a reader tells then.
pub fn damages() -> [(usize, u8, Option<ReadFault>); 4] {
    [
        (13, 1, fault(ReadKind::GapNotZero, 8)),
        (8, 9, fault(ReadKind::UnknownEpid, 8)),
        (8, 0, fault(ReadKind::Padding, 8)),
        (4, 1, None),
    ]
}

/// A text with this byte at a place; the same text where it has no such place.
pub fn damaged(text: [u8; 32], at: usize, byte: u8) -> [u8; 32] {
    let mut text = text;
    if let Some(place) = text.get_mut(at) {
        *place = byte;
    }
    text
}

/// Whether the text is read as these records.
pub fn is_read<S: Schema>(schema: &S, text: &[u8], wanted: &[Rec]) -> bool {
    let Ok(mut records) = read_all(schema, text) else {
        return false;
    };
    for rec in wanted {
        if records.next() != Some(*rec) {
            return false;
        }
    }
    records.next().is_none()
}

/// What a reader tells of the text, where it isn't one.
pub fn fault_of<S: Schema>(schema: &S, text: &[u8]) -> Option<ReadFault> {
    read_all(schema, text).err()
}
