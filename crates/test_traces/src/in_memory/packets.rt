//! Packets of batches.
use super::one_enabling;
use crate::same::{UUID, same};
use dspec_ctf::{CpuPackets, Packet, PacketFault, PutFault};
use std::alloc::{AllocError, Global};
use std::ops::Range;
use std::process::Abort;
use std::test::Fail;

/// A number in so many bytes, the lowest first.
fn add_number(bytes: &mut Vec<u8>, size: u32, number: u64) -> Result<(), AllocError> {
    let mut left = number;
    for _ in 0..size {
        bytes.push((left % 256) as u8)?;
        left /= 256;
    }
    Ok(())
}

/// The text of records with these stamps, whose values are their stamps.
fn text_of(alloc: Global, stamps: &[u64]) -> Result<Vec<u8>, AllocError> {
    let mut bytes = Vec::new(alloc);
    for stamp in stamps {
        add_number(&mut bytes, 4, 1)?;
        add_number(&mut bytes, 8, *stamp)?;
        add_number(&mut bytes, 4, *stamp)?;
    }
    Ok(bytes)
}

/// The packet of those records of CPU 3 as the format has it: of the trace, of the first stamp and the last, up to where its events go and its own size,
/// both in bits, what was missed; and zeros after its events, up to 1,024 bytes.
fn packet_of(
    alloc: Global,
    span: (u64, u64),
    missed: u64,
    stamps: &[u64],
) -> Result<Vec<u8>, AllocError> {
    let bits = 8 * (68 + 16 * (stamps.len() as u64 % 1000));
    let mut bytes = Vec::new(alloc);
    add_number(&mut bytes, 4, 0xC1FC_1FC1)?;
    bytes.extend_from_slice(&UUID)?;
    add_number(&mut bytes, 4, 0)?;
    add_number(&mut bytes, 8, span.0)?;
    add_number(&mut bytes, 8, span.1)?;
    add_number(&mut bytes, 8, bits)?;
    add_number(&mut bytes, 8, 8192)?;
    add_number(&mut bytes, 8, missed)?;
    add_number(&mut bytes, 4, 3)?;
    bytes.extend_from_slice(&text_of(alloc, stamps)?)?;
    bytes.resize(1024, 0)?;
    Ok(bytes)
}

/// The files of CPU 3.
fn files_of(alloc: Global) -> Result<CpuPackets, Fail> {
    match CpuPackets::of(alloc, UUID, &one_enabling()?, 3) {
        Some(files) => Ok(files),
        None => Err(Fail::from(AllocError)),
    }
}

/// The next packet, and its bytes.
fn next_of(alloc: Global, files: &mut CpuPackets) -> Result<(Option<Packet>, Vec<u8>), Fail> {
    let mut room = Vec::from_elem(alloc, 7u8, 4096)?;
    match files.put(&mut room) {
        Ok(packet) => {
            let size = packet.map_or(0, |packet| packet.size);
            room.truncate(size);
            Ok((packet, room))
        }
        Err(_) => Err(Fail::from(AllocError)),
    }
}

/// The next packet is this one.
fn is_next(
    rt: &impl Abort,
    alloc: Global,
    files: &mut CpuPackets,
    file: usize,
    records: usize,
    wanted: &[u8],
) -> Result<(), Fail> {
    let (packet, bytes) = next_of(alloc, files)?;
    let due = Packet {
        file,
        size: wanted.len(),
        records,
    };
    same(rt, packet, Some(due));
    same(rt, bytes.as_slice() == wanted, true);
    Ok(())
}

/// The files of CPU 3 with a batch of records with these stamps opened, before which so many were missed.
fn opened(rt: &impl Abort, alloc: Global, missed: u64, stamps: &[u64]) -> Result<CpuPackets, Fail> {
    let mut files = files_of(alloc)?;
    same(rt, files.open(missed, &text_of(alloc, stamps)?), Ok(()));
    Ok(files)
}

/// The next packet has the records with these stamps, the first stamp and the last, and goes to this file.
fn has_records(
    rt: &impl Abort,
    alloc: Global,
    files: &mut CpuPackets,
    file: usize,
    missed: u64,
    stamps: &[u64],
) -> Result<(), Fail> {
    let (Some(first), Some(last)) = (stamps.first(), stamps.last()) else {
        return Err("no stamps".into());
    };
    let wanted = packet_of(alloc, (*first, *last), missed, stamps)?;
    is_next(rt, alloc, files, file, stamps.len(), &wanted)
}

/// The next packet is two of one stamp without records, which tell that the number of missed records rose.
fn has_told(
    rt: &impl Abort,
    alloc: Global,
    files: &mut CpuPackets,
    stamp: u64,
    missed: Range<u64>,
) -> Result<(), Fail> {
    let mut wanted = packet_of(alloc, (stamp, stamp), missed.start, &[])?;
    wanted.extend_from_slice(&packet_of(alloc, (stamp, stamp), missed.end, &[])?)?;
    is_next(rt, alloc, files, 0, 0, &wanted)
}

#[test]
fn runs_of_a_batch(rt: HostRuntime) -> Result<(), Fail> {
    let alloc = rt.alloc();
    let mut files = opened(&rt, alloc, 0, &[10, 20, 5, 15, 20, 30])?;
    has_records(&rt, alloc, &mut files, 0, 0, &[10, 20])?;
    has_records(&rt, alloc, &mut files, 1, 0, &[5, 15])?;
    has_records(&rt, alloc, &mut files, 0, 0, &[20, 30])?;
    same(&rt, next_of(alloc, &mut files)?.0, None);
    same(&rt, files.cpu(), 3);
    Ok(())
}

#[test]
fn missed_is_told_first(rt: HostRuntime) -> Result<(), Fail> {
    let alloc = rt.alloc();
    let mut files = opened(&rt, alloc, 4, &[9])?;
    has_told(&rt, alloc, &mut files, 0, 0..4)?;
    has_records(&rt, alloc, &mut files, 0, 4, &[9])?;
    files.miss(2);
    has_told(&rt, alloc, &mut files, 9, 4..6)?;
    same(&rt, next_of(alloc, &mut files)?.0, None);
    Ok(())
}

#[test]
fn room_that_is_too_small(rt: HostRuntime) -> Result<(), Fail> {
    let alloc = rt.alloc();
    let mut files = opened(&rt, alloc, 0, &[1, 2])?;
    let mut room = [7u8; 1023];
    same(&rt, files.put(&mut room), Err(PutFault::TooSmall(1024)));
    same(&rt, room == [7u8; 1023], true);
    let mut room = [7u8; 1024];
    let packet = Packet {
        file: 0,
        size: 1024,
        records: 2,
    };
    same(&rt, files.put(&mut room), Ok(Some(packet)));
    let wanted = packet_of(alloc, (1, 2), 0, &[1, 2])?;
    same(&rt, room.as_slice() == wanted.as_slice(), true);
    Ok(())
}

/// Sixty records of 16 bytes have no room in one packet: 68 bytes and 59 of them are 1,012.
#[test]
fn run_of_two_packets(rt: HostRuntime) -> Result<(), Fail> {
    let alloc = rt.alloc();
    let mut stamps = Vec::new(alloc);
    for stamp in 1..61u64 {
        stamps.push(stamp)?;
    }
    let mut files = opened(&rt, alloc, 0, &stamps)?;
    let first = stamps.get(..59).unwrap_or(&[]);
    let mut wanted = packet_of(alloc, (1, 59), 0, first)?;
    wanted.extend_from_slice(&packet_of(alloc, (60, 60), 0, &[60])?)?;
    is_next(&rt, alloc, &mut files, 0, 60, &wanted)?;
    same(&rt, next_of(alloc, &mut files)?.0, None);
    Ok(())
}

#[test]
fn what_is_lost_is_told(rt: HostRuntime) -> Result<(), Fail> {
    let alloc = rt.alloc();
    let mut files = opened(&rt, alloc, 0, &[10, 20, 5, 30])?;
    has_records(&rt, alloc, &mut files, 0, 0, &[10, 20])?;
    has_records(&rt, alloc, &mut files, 1, 0, &[5])?;
    same(&rt, files.lose(), 2);
    let packet = next_of(alloc, &mut files)?.0;
    same(&rt, packet.map_or(9, |packet| packet.file), 0);
    same(&rt, files.lose(), 0);
    same(&rt, files.open(1, &text_of(alloc, &[40])?), Ok(()));
    has_told(&rt, alloc, &mut files, 20, 0..3)?;
    has_records(&rt, alloc, &mut files, 0, 3, &[40])?;
    same(&rt, next_of(alloc, &mut files)?.0, None);
    Ok(())
}

/// While a packet of a batch may be lost, or one is left, no room is exchanged. Once there is none, what each missed is told of it as before.
#[test]
fn rooms_are_swapped_between_batches(rt: HostRuntime) -> Result<(), Fail> {
    let alloc = rt.alloc();
    let mut files = opened(&rt, alloc, 0, &[10, 20])?;
    let mut others = opened(&rt, alloc, 4, &[9])?;
    same(&rt, files.swap_rooms(&mut others), false);
    has_records(&rt, alloc, &mut files, 0, 0, &[10, 20])?;
    same(&rt, next_of(alloc, &mut files)?.0, None);
    same(&rt, files.swap_rooms(&mut others), false);
    has_told(&rt, alloc, &mut others, 0, 0..4)?;
    has_records(&rt, alloc, &mut others, 0, 4, &[9])?;
    same(&rt, others.swap_rooms(&mut files), false);
    same(&rt, others.lose(), 1);
    same(&rt, others.swap_rooms(&mut files), true);
    same(&rt, files.lose(), 0);
    same(&rt, others.lose(), 0);
    same(&rt, files.open(0, &text_of(alloc, &[30])?), Ok(()));
    has_records(&rt, alloc, &mut files, 0, 0, &[30])?;
    same(&rt, others.open(0, &[]), Ok(()));
    has_told(&rt, alloc, &mut others, 9, 4..5)?;
    same(&rt, next_of(alloc, &mut others)?.0, None);
    Ok(())
}

#[test]
fn batch_that_is_left(rt: HostRuntime) -> Result<(), Fail> {
    let alloc = rt.alloc();
    let mut files = opened(&rt, alloc, 0, &[10, 5, 4])?;
    has_records(&rt, alloc, &mut files, 0, 0, &[10])?;
    let short = files.open(0, &[1, 0, 0]).err();
    same(&rt, matches!(short, Some(PacketFault::Text(_))), true);
    same(&rt, files.open(u64::MAX, &[]), Err(PacketFault::Missed));
    same(&rt, files.open(0, &[]), Ok(()));
    has_told(&rt, alloc, &mut files, 10, 0..2)?;
    same(&rt, next_of(alloc, &mut files)?.0, None);
    Ok(())
}

/// The stamps 64, 63, .. 1 have a file each, and 0 would have one more.
#[test]
fn one_file_too_many(rt: HostRuntime) -> Result<(), Fail> {
    let alloc = rt.alloc();
    let mut stamps = Vec::new(alloc);
    for back in 0..65u64 {
        stamps.push(64 - back)?;
    }
    let mut files = opened(&rt, alloc, 0, &stamps)?;
    for file in 0..64usize {
        let packet = next_of(alloc, &mut files)?.0;
        same(&rt, packet.map_or(99, |packet| packet.file), file);
    }
    let mut room = [0u8; 1024];
    let fault = PutFault::Packet(PacketFault::Clock(64));
    same(&rt, files.put(&mut room), Err(fault));
    same(&rt, files.lose(), 1);
    Ok(())
}
