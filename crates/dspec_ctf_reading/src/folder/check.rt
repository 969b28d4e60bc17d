//! What is wrong with a file of a trace, if anything.

ghost use Rattle.std.specs.Prelude.{◌≡◌, IfErr, IfOk, IsTrue, OnErr, OnOk, true};
ghost use Rattle.dspec_ctf_reading.specs.{Folders.Checks.IsSoundFrom, Folders.Checks.RisesFrom, Folders.Checks.RisesTo, Folders.Checks.is_of_bytes, Folders.Checks.packet_as_read};
ghost use Rattle.dspec_ctf_reading.specs.{Folders.Checks.stamps_of, Folders.Checks.times_of, Fronts.front_of, Told.told_layout};

use super::fault::{FileFault, Wrong};
use super::packet::{ReadPacket, read_packet};
use crate::{Event, Metadata};
use std::alloc::Global;

/// Whose packets a file should have.
#[derive(Debug, Clone, Copy)]
pub struct Whose {
    /// The trace's uuid.
    pub uuid: [u8; 16],
    /// The number of the CPU.
    pub cpu: u32,
}

/// Where the stamps of events fall: at the event of this place, from the stamp before it to its own.
#[derive(Debug, Clone, Copy)]
struct Fall {
    place: usize,
    from: u64,
    to: u64,
}

/// The last stamp of these events, before which stands `last`; or where the first is that is less than the one before it.
fn rising(last: u64, events: &[Event]) -> Result<u64, Fall>
    ensures rises { IfOk result (RisesTo last (stamps_of events.now)) }
    ensures falls { IfErr result (λ _. ¬ RisesFrom last (stamps_of events.now)) }
{
    let mut before = last;
    for (place, event) in events.iter().enumerate() {
        let stamp = event.stamp.unwrap_or(0);
        if stamp < before {
            return Err(Fall {
                place,
                from: before,
                to: stamp,
            });
        }
        before = stamp;
    }
    Ok(before)
}

/// In how many bytes an event stands, of a trace with a clock.
fn size_of(metadata: &Metadata<'_>, event: &Event) -> usize {
    let mut size = 12usize;
    let Some(text) = metadata.events.get(event.place) else {
        return size;
    };
    for field in &text.fields {
        size = size.saturating_add(field.width.width());
    }
    size
}

/// Where the event at a place begins, after so many bytes.
fn event_at(metadata: &Metadata<'_>, events: &[Event], place: usize, body_at: usize) -> usize {
    let mut at = body_at;
    for event in events.iter().take(place) {
        at = at.saturating_add(size_of(metadata, event));
    }
    at
}

/// Sees that a packet's time doesn't fall, from the last stamp before it on; gives its own last.
fn see_times(
    metadata: &Metadata<'_>,
    last: u64,
    at: usize,
    packet: &ReadPacket<'_>,
) -> Result<u64, FileFault>
    ensures rises { IfOk result (RisesTo last (times_of (packet_as_read (told_layout metadata.now) packet.now))) }
    ensures falls { IfErr result (λ _. ¬ RisesFrom last (times_of (packet_as_read (told_layout metadata.now) packet.now))) }
{
    let Some((begin, end)) = packet.front.span else {
        return Ok(last);
    };
    if begin < last {
        return Err(falls(at, last, begin));
    }
    match rising(begin, packet.events.as_slice()) {
        Ok(from) => {
            if end < from {
                return Err(falls(at, from, end));
            }
            Ok(end)
        }
        Err(fall) => {
            let at = event_at(
                metadata,
                packet.events.as_slice(),
                fall.place,
                packet.body_at,
            );
            Err(falls(at, fall.from, fall.to))
        }
    }
}

/// A stamp falls at a place of a file.
fn falls(at: usize, from: u64, to: u64) -> FileFault
    ensures { is_of_bytes result.wrong ≡ true }
{
    FileFault {
        at,
        wrong: Wrong::Falls { from, to },
    }
}

/// Sees that a packet is of this trace and CPU.
fn see_whose(whose: &Whose, at: usize, packet: &ReadPacket<'_>) -> Result<(), FileFault>
    ensures same { OnOk result (((front_of packet.now.front).uuid ≡ whose.now.uuid) × (packet.now.front.cpu ≡ whose.now.cpu)) }
    ensures other { OnErr result (¬ (((front_of packet.now.front).uuid ≡ whose.now.uuid) × (packet.now.front.cpu ≡ whose.now.cpu))) }
{
    if packet.front.uuid != whose.uuid {
        return Err(FileFault {
            at,
            wrong: Wrong::Uuid,
        });
    }
    if packet.front.cpu != whose.cpu {
        return Err(FileFault {
            at,
            wrong: Wrong::Cpu(packet.front.cpu),
        });
    }
    Ok(())
}

/// Reads all packets of a file, and sees that each is of this trace and CPU, and that time doesn't fall: neither from a packet's end to
/// the next one's begin, nor from event to event within a packet's begin and end. Otherwise the first place where it is so is told.
pub fn check_file(
    alloc: Global,
    metadata: &Metadata<'_>,
    whose: &Whose,
    bytes: &[u8],
) -> Result<(), FileFault>
    ensures sound { OnOk result (IsSoundFrom (told_layout metadata.now) whose.now.uuid whose.now.cpu 0 bytes.now) }
    ensures told { IfErr result (λ fault. IsTrue (is_of_bytes fault.wrong) → ¬ IsSoundFrom (told_layout metadata.now) whose.now.uuid whose.now.cpu 0 bytes.now) }
{
    let mut rest = bytes;
    let mut last = 0u64;
    while !rest.is_empty() {
        let at = bytes.len().saturating_sub(rest.len());
        let packet = match read_packet(alloc, metadata, at, rest) {
            Ok(packet) => packet,
            Err(fault) => return Err(fault),
        };
        match see_whose(whose, at, &packet) {
            Ok(()) => {}
            Err(fault) => return Err(fault),
        }
        last = match see_times(metadata, last, at, &packet) {
            Ok(now) => now,
            Err(fault) => return Err(fault),
        };
        rest = packet.after;
    }
    Ok(())
}
