//! Packets by time.
use crate::same::{same, stream_of, three_enablings};
use dspec_buffer::{ReadFault, read_all};
use dspec_ctf::{TimeFault, first_refused};
use dspec_record::ReadKind;
use std::alloc::{AllocError, Global};
use std::test::Fail;

/// The records 1@9 and 3@5(171, 4660).
pub const FIRST: [u8; 28] = [
    1, 0, 0, 0, 9, 0, 0, 0, 0, 0, 0, 0, 3, 0, 0, 0, 5, 0, 0, 0, 0, 0, 0, 0, 171, 0, 52, 18,
];

/// The records 1@5 and 1@2.
pub const SECOND: [u8; 24] = [
    1, 0, 0, 0, 5, 0, 0, 0, 0, 0, 0, 0, 1, 0, 0, 0, 2, 0, 0, 0, 0, 0, 0, 0,
];

/// Their packet on CPU 1, with seven events that were missed: 1@2, 3@5, 1@5 and 1@9, in 119 bytes, or 952 bits.
pub const PACKET: [u8; 119] = [
    193, 31, 252, 193, 0, 17, 34, 51, 68, 85, 102, 119, 136, 153, 170, 187, 204, 221, 238, 255, 0,
    0, 0, 0, 2, 0, 0, 0, 0, 0, 0, 0, 9, 0, 0, 0, 0, 0, 0, 0, 184, 3, 0, 0, 0, 0, 0, 0, 184, 3, 0,
    0, 0, 0, 0, 0, 7, 0, 0, 0, 0, 0, 0, 0, 1, 0, 0, 0, 1, 0, 0, 0, 2, 0, 0, 0, 0, 0, 0, 0, 3, 0, 0,
    0, 5, 0, 0, 0, 0, 0, 0, 0, 171, 52, 18, 1, 0, 0, 0, 5, 0, 0, 0, 0, 0, 0, 0, 1, 0, 0, 0, 9, 0,
    0, 0, 0, 0, 0, 0,
];

/// The packet without records: 68 bytes, or 544 bits.
const EMPTY: [u8; 68] = [
    193, 31, 252, 193, 0, 17, 34, 51, 68, 85, 102, 119, 136, 153, 170, 187, 204, 221, 238, 255, 0,
    0, 0, 0, 0, 0, 0, 0, 0, 0, 0, 0, 0, 0, 0, 0, 0, 0, 0, 0, 32, 2, 0, 0, 0, 0, 0, 0, 32, 2, 0, 0,
    0, 0, 0, 0, 7, 0, 0, 0, 0, 0, 0, 0, 1, 0, 0, 0,
];

#[test]
fn sorted_packets(rt: HostRuntime) -> Result<(), Fail> {
    let enablings = three_enablings()?.stamped();
    let stream = stream_of(&enablings, 7);
    let packets = stream.packets_by_time(rt.alloc(), &[&FIRST, &SECOND])?;
    same(&rt, packets.as_slice() == PACKET.as_slice(), true);
    let packets = stream.packets_by_time(rt.alloc(), &[&[]])?;
    same(&rt, packets.as_slice() == EMPTY.as_slice(), true);
    let packets = stream_of(&enablings, 0).packets_by_time(rt.alloc(), &[])?;
    same(&rt, packets.len(), 0);
    Ok(())
}

#[test]
fn sorted_records(rt: HostRuntime) -> Result<(), Fail> {
    let enablings = three_enablings()?.stamped();
    let mut records = Vec::new(rt.alloc());
    for text in [&FIRST[..], &SECOND[..]] {
        for record in read_all(&enablings, text)? {
            records.push(record)?;
        }
    }
    let None = first_refused(&enablings, &records) else {
        return Err(Fail::from(AllocError));
    };
    let packets = stream_of(&enablings, 7).packets_by_time_of(rt.alloc(), &records)?;
    same(&rt, packets.as_slice() == PACKET.as_slice(), true);
    let packets = stream_of(&enablings, 7).packets_by_time_of(rt.alloc(), &[])?;
    same(&rt, packets.as_slice() == EMPTY.as_slice(), true);
    Ok(())
}

/// The text of so many records 1, the first with the highest stamp.
fn falling(alloc: Global, count: u64) -> Result<Vec<u8>, AllocError> {
    let mut text = Vec::new(alloc);
    for place in 0..count {
        text.extend_from_slice(&[1, 0, 0, 0])?;
        text.extend_from_slice(&(count - place).to_le_bytes())?;
    }
    Ok(text)
}

/// Whether the eight bytes at a place are this number.
fn has_at(bytes: &[u8], place: usize, number: u64) -> bool {
    match bytes.get(place..) {
        Some(tail) => tail.starts_with(&number.to_le_bytes()),
        None => false,
    }
}

#[test]
fn two_packets(rt: HostRuntime) -> Result<(), Fail> {
    let enablings = three_enablings()?.stamped();
    let text = falling(rt.alloc(), 4097)?;
    let packets = stream_of(&enablings, 7).packets_by_time(rt.alloc(), &[&text])?;
    same(&rt, packets.len(), 68 + 4096 * 12 + 68 + 12);
    for (place, number) in [
        (24, 1),
        (32, 4096),
        (56, 0),
        (49_244, 4097),
        (49_252, 4097),
        (49_276, 7),
    ] {
        same(&rt, has_at(&packets, place, number), true);
    }
    Ok(())
}

#[test]
fn refused_texts(rt: HostRuntime) -> Result<(), Fail> {
    let enablings = three_enablings()?;
    let (stamped, kind) = (enablings.stamped(), ReadKind::Truncated);
    let fault = ReadFault { kind, at: 12 };
    for (schema, texts, wanted) in [
        (&enablings, [].as_slice(), TimeFault::NoStamp),
        (&enablings, &[&SECOND[..23]], TimeFault::NoStamp),
        (
            &stamped,
            &[&FIRST, &SECOND[..23]],
            TimeFault::Text { number: 1, fault },
        ),
    ] {
        let found = stream_of(schema, 0).packets_by_time(rt.alloc(), texts);
        same(&rt, found.err(), Some(wanted));
    }
    Ok(())
}
