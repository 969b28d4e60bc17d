//! Packets of 1,024 bytes, as taken.
use super::packets::{PACKET, TEXT};
use super::rows::filled;
use crate::same::{same, stream_of, three_enablings};
use dspec_ctf::PacketFault;
use std::alloc::{AllocError, Global};
use std::test::Fail;

/// A packet as taken around so many records 1, after so many events that were missed.
fn packet_of(alloc: Global, missed: u8, records: u64) -> Result<Vec<u8>, AllocError> {
    let bits = 8 * (52 + 4 * (records % 1000));
    let mut bytes = Vec::new(alloc);
    bytes.extend_from_slice(&PACKET[..24])?;
    bytes.extend_from_slice(&bits.to_le_bytes())?;
    bytes.extend_from_slice(&[0; 8])?;
    bytes.extend_from_slice(&[missed, 0, 0, 0, 0, 0, 0, 0, 1, 0, 0, 0])?;
    for _ in 0..records % 1000 {
        bytes.extend_from_slice(&[1, 0, 0, 0])?;
    }
    filled(alloc, 32, &bytes)
}

/// The text of so many records 1.
fn text_of(alloc: Global, records: u64) -> Result<Vec<u8>, AllocError> {
    let mut bytes = Vec::new(alloc);
    for _ in 0..records {
        bytes.extend_from_slice(&[1, 0, 0, 0])?;
    }
    Ok(bytes)
}

#[test]
fn packets_of_batches(rt: HostRuntime) -> Result<(), Fail> {
    let enablings = three_enablings()?;
    let mut stream = stream_of(&enablings, 0);
    let packets = stream.batch_packets(rt.alloc(), 5, &TEXT)?;
    let wanted = filled(rt.alloc(), 32, &PACKET)?;
    same(&rt, packets.as_slice() == wanted.as_slice(), true);
    let packets = stream.batch_packets(rt.alloc(), 3, &[])?;
    let wanted = packet_of(rt.alloc(), 8, 0)?;
    same(&rt, packets.as_slice() == wanted.as_slice(), true);
    same(&rt, stream.missed, 8);
    Ok(())
}

/// 52 bytes and 243 records of four bytes are 1,024: that is one packet, and one more record begins another. Both tell what was missed.
#[test]
fn full_packets(rt: HostRuntime) -> Result<(), Fail> {
    let enablings = three_enablings()?;
    let text = text_of(rt.alloc(), 244)?;
    let full = text.get(..972).unwrap_or(&[]);
    let packets = stream_of(&enablings, 0).batch_packets(rt.alloc(), 9, full)?;
    let mut wanted = packet_of(rt.alloc(), 9, 243)?;
    same(&rt, packets.as_slice() == wanted.as_slice(), true);
    let packets = stream_of(&enablings, 0).batch_packets(rt.alloc(), 9, &text)?;
    wanted.extend_from_slice(&packet_of(rt.alloc(), 9, 1)?)?;
    same(&rt, packets.as_slice() == wanted.as_slice(), true);
    Ok(())
}

#[test]
fn refused_batches(rt: HostRuntime) -> Result<(), Fail> {
    let enablings = three_enablings()?;
    let mut stream = stream_of(&enablings, u64::MAX);
    let found = stream.batch_packets(rt.alloc(), 1, &TEXT[..31]).err();
    same(&rt, found, Some(PacketFault::Missed));
    let found = stream.batch_packets(rt.alloc(), 0, &TEXT[..31]).err();
    same(&rt, matches!(found, Some(PacketFault::Text(_))), true);
    same(&rt, stream.missed, u64::MAX);
    Ok(())
}
