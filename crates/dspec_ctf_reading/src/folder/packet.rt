//! A file, packet by packet.

ghost use Rattle.std.specs.Prelude.{◌≡◌, ◌<◌, All, IfErr, IfOk, IsTrue, None, Some, length};
ghost use Rattle.dspec_ctf_reading.specs.{Folders.Checks.is_of_bytes, Folders.Checks.packet_as_read, Reading.read_packet as packet_from, Told.Fits, Told.told_layout};

use super::fault::{FileFault, Wrong};
use crate::{Event, Front, Metadata, next_packet, read_events};
use std::alloc::Global;

/// A packet that was read, with all its events.
#[derive(Debug, Drop)]
pub struct ReadPacket<'b> {
    /// What it tells before its events.
    pub front: Front,
    /// Its events, in order.
    pub events: Vec<Event>,
    /// Where its events begin in its file, in bytes.
    pub body_at: usize,
    /// The bytes after it.
    pub after: &'b [u8],
}

/// The packet with which these bytes begin, which begin at this byte of their file.
pub fn read_packet<'b>(
    alloc: Global,
    metadata: &Metadata<'_>,
    at: usize,
    bytes: &'b [u8],
) -> Result<ReadPacket<'b>, FileFault>
    ensures read { IfOk result (λ packet. packet_from (told_layout metadata.now) bytes.now ≡ Some (packet_as_read (told_layout metadata.now) packet, packet.after.now)) }
    ensures none { IfErr result (λ fault. IsTrue (is_of_bytes fault.wrong) → packet_from (told_layout metadata.now) bytes.now ≡ None) }
    ensures fit { IfOk result (λ packet. All (Fits (told_layout metadata.now)) packet.events.items) }
    ensures shorter { IfOk result (λ packet. length packet.after.now < length bytes.now) }
{
    let packet = match next_packet(metadata.clock.is_some(), bytes) {
        Ok(packet) => packet,
        Err(fault) => {
            return Err(FileFault {
                at,
                wrong: Wrong::Packet(fault),
            });
        }
    };
    let content = (packet.front.content_size / 8) as usize;
    let body_at = at.saturating_add(content.saturating_sub(packet.body.len()));
    match read_events(alloc, metadata, packet.body) {
        Ok(events) => Ok(ReadPacket {
            front: packet.front,
            events,
            body_at,
            after: packet.after,
        }),
        Err(fault) => Err(FileFault {
            at: body_at.saturating_add(fault.at),
            wrong: Wrong::Event(fault.fault),
        }),
    }
}
