//! What happened, in order of time.

ghost use Rattle.std.specs.Prelude.{OnOk};
ghost use Rattle.dspec_ctf_reading.specs.Folders.Marks.{IsByTime};

use super::clock::{Base, nanoseconds};
use super::fault::FileFault;
use super::packet::{ReadPacket, read_packet};
use crate::{ClockText, Event, Metadata};
use std::alloc::{AllocError, Global};

/// What happened.
#[derive(Debug, Drop)]
pub enum What {
    /// This event.
    Event(Event),
    /// So many events were missed, up to here from the packet before.
    Missed(u64),
}

/// What happened, when, and which file tells it.
#[derive(Debug, Drop)]
pub struct Mark {
    /// In nanoseconds from the base of all marks on; 0 where there is no clock.
    pub time: u128,
    /// The number of the file, in the order in which the files were read.
    pub file: usize,
    /// What happened.
    pub what: What,
}

/// The time of a stamp, 0 where there is no clock, or one without ticks.
fn time_of(clock: Option<&ClockText<'_>>, base: Base, stamp: Option<u64>) -> u128 {
    match (clock, stamp) {
        (Some(clock), Some(stamp)) => nanoseconds(clock, base, stamp).unwrap_or(0),
        _ => 0,
    }
}

/// Adds what a packet tells.
fn put_packet(
    marks: &mut Vec<Mark>,
    metadata: &Metadata<'_>,
    base: Base,
    file: usize,
    missed: u64,
    packet: ReadPacket<'_>,
) -> Result<(), AllocError> {
    let clock = metadata.clock.as_ref();
    for event in packet.events {
        marks.push(Mark {
            time: time_of(clock, base, event.stamp),
            file,
            what: What::Event(event),
        })?;
    }
    if missed < packet.front.discarded {
        let end = packet.front.span.map(|span| span.1);
        marks.push(Mark {
            time: time_of(clock, base, end),
            file,
            what: What::Missed(packet.front.discarded - missed),
        })?;
    }
    Ok(())
}

/// Adds what a file tells, in its order. Gives what is wrong with the file; what stands before that place was added.
pub fn marks_of(
    alloc: Global,
    metadata: &Metadata<'_>,
    base: Base,
    file: usize,
    bytes: &[u8],
    marks: &mut Vec<Mark>,
) -> Result<Option<FileFault>, AllocError> {
    let mut rest = bytes;
    let mut missed = 0u64;
    while !rest.is_empty() {
        let at = bytes.len().saturating_sub(rest.len());
        let packet = match read_packet(alloc, metadata, at, rest) {
            Ok(packet) => packet,
            Err(fault) => return Ok(Some(fault)),
        };
        rest = packet.after;
        let discarded = packet.front.discarded;
        put_packet(marks, metadata, base, file, missed, packet)?;
        missed = discarded;
    }
    Ok(None)
}

/// Puts marks in order of time; those of one time stay in their order.
pub fn sort_by_time(marks: &mut Vec<Mark>) -> Result<(), AllocError>
    ensures { OnOk result (IsByTime marks.old.items marks.new.items) }
{
    marks.sort_by_key(|mark| mark.time)?;
    Ok(())
}
