//! Packets of batches as taken.
use crate::same::{same, stream_of, three_enablings};
use dspec_buffer::{ReadFault, read_all};
use dspec_ctf::{PacketFault, first_refused};
use dspec_record::ReadKind;
use std::alloc::AllocError;
use std::test::Fail;

/// The records 1, 2(7) and 3(171, 4660), with a padding word and a gap.
pub const TEXT: [u8; 32] = [
    1, 0, 0, 0, 0, 0, 0, 0, 2, 0, 0, 0, 0, 0, 0, 0, 7, 0, 0, 0, 0, 0, 0, 0, 3, 0, 0, 0, 171, 0, 52,
    18,
];

/// Their packet on CPU 1, after five events that were missed: 75 bytes, or 600 bits.
pub const PACKET: [u8; 75] = [
    193, 31, 252, 193, 0, 17, 34, 51, 68, 85, 102, 119, 136, 153, 170, 187, 204, 221, 238, 255, 0,
    0, 0, 0, 88, 2, 0, 0, 0, 0, 0, 0, 88, 2, 0, 0, 0, 0, 0, 0, 5, 0, 0, 0, 0, 0, 0, 0, 1, 0, 0, 0,
    1, 0, 0, 0, 2, 0, 0, 0, 7, 0, 0, 0, 0, 0, 0, 0, 3, 0, 0, 0, 171, 52, 18,
];

/// The packet without events after it, once three more were missed: 52 bytes, or 416 bits.
const EMPTY: [u8; 52] = [
    193, 31, 252, 193, 0, 17, 34, 51, 68, 85, 102, 119, 136, 153, 170, 187, 204, 221, 238, 255, 0,
    0, 0, 0, 160, 1, 0, 0, 0, 0, 0, 0, 160, 1, 0, 0, 0, 0, 0, 0, 8, 0, 0, 0, 0, 0, 0, 0, 1, 0, 0,
    0,
];

#[test]
fn unstamped_packets(rt: HostRuntime) -> Result<(), Fail> {
    let enablings = three_enablings()?;
    let mut stream = stream_of(&enablings, 0);
    let packet = stream.packet(rt.alloc(), 5, &TEXT)?;
    same(&rt, packet.as_slice() == PACKET.as_slice(), true);
    let packet = stream.packet(rt.alloc(), 3, &[])?;
    same(&rt, packet.as_slice() == EMPTY.as_slice(), true);
    same(&rt, stream.missed, 8);
    Ok(())
}

#[test]
fn packets_of_records(rt: HostRuntime) -> Result<(), Fail> {
    let enablings = three_enablings()?;
    let mut records = Vec::new(rt.alloc());
    for record in read_all(&enablings, &TEXT)? {
        records.push(record)?;
    }
    let None = first_refused(&enablings, &records) else {
        return Err(Fail::from(AllocError));
    };
    let mut stream = stream_of(&enablings, 0);
    let packet = stream.packet_of(rt.alloc(), 5, &records)?;
    same(&rt, packet.as_slice() == PACKET.as_slice(), true);
    let packet = stream.packet_of(rt.alloc(), 3, &[])?;
    same(&rt, packet.as_slice() == EMPTY.as_slice(), true);
    Ok(())
}

/// The record 3(171, 4660) with a stamp, as a buffer has it.
const STAMPED_TEXT: [u8; 16] = [3, 0, 0, 0, 8, 7, 6, 5, 4, 3, 2, 1, 171, 0, 52, 18];

/// What stands after the front of its packet.
const STAMPED_EVENT: [u8; 15] = [3, 0, 0, 0, 8, 7, 6, 5, 4, 3, 2, 1, 171, 52, 18];

#[test]
fn stamped_packets(rt: HostRuntime) -> Result<(), Fail> {
    let enablings = three_enablings()?.stamped();
    let packet = stream_of(&enablings, 0).packet(rt.alloc(), 0, &STAMPED_TEXT)?;
    same(&rt, packet.len(), 67);
    same(&rt, packet.as_slice().ends_with(&STAMPED_EVENT), true);
    Ok(())
}

#[test]
fn refused_packets(rt: HostRuntime) -> Result<(), Fail> {
    let enablings = three_enablings()?;
    let mut stream = stream_of(&enablings, u64::MAX);
    let kind = ReadKind::Truncated;
    let cut = PacketFault::Text(ReadFault { kind, at: 24 });
    for (missed, text, wanted) in [
        (1, TEXT.as_slice(), PacketFault::Missed),
        (1, &TEXT[..31], PacketFault::Missed),
        (0, &TEXT[..31], cut),
    ] {
        let found = stream.packet(rt.alloc(), missed, text).err();
        same(&rt, found, Some(wanted));
    }
    same(&rt, stream.missed, u64::MAX);
    Ok(())
}
