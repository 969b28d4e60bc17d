//! Packets in the bytes of a file.

ghost use Rattle.std.specs.Option.{option_map};
ghost use Rattle.std.specs.Prelude.{◌≡◌, ◌≢◌, ◌<◌, ◌-◌, ◌/◌, false, length, drop, IfOk, IfErr, IfSome, Some, None};
ghost use Rattle.dspec_ctf_reading.specs.{Fronts.front_of, Fronts.split_packet as packet_split, Packets.FrontDue, Packets.PacketDue, Packets.SizesDue, Packets.WholeDue};
ghost use Rattle.dspec_ctf_reading.specs.{Reading.read_front as front_from, Reading.read_number, Reading.read_packet as packet_from, Reading.sizes_agree, Told.told_layout, Told.told_packet};

use crate::events::check_events;
use crate::fault::{PacketReadFault, WholePacketFault};
use crate::fronts::{Front, SplitPacket, read_front, split_packet};
use crate::numbers::four;
use crate::told::Metadata;

/// The number of the stream in a packet's front, where the bytes have it.
fn stream_of(bytes: &[u8]) -> Option<u32>
    ensures { result ≡ option_map (λ p. p.0) (read_number 4 (drop 20 bytes.now)) }
{
    if bytes.len() < 20 {
        return None;
    }
    let (stream, _) = four(&bytes[20..])?;
    Some(stream)
}

/// Why these bytes begin with no front.
fn front_fault(bytes: &[u8]) -> PacketReadFault
    ensures { FrontDue bytes.now result }
{
    match four(bytes) {
        Some((magic, _)) => {
            if magic != 0xC1FC_1FC1 {
                return PacketReadFault::Magic(magic);
            }
        }
        None => return PacketReadFault::Cut,
    }
    match stream_of(bytes) {
        Some(stream) => {
            if stream == 0 {
                PacketReadFault::Cut
            } else {
                PacketReadFault::Stream(stream)
            }
        }
        None => PacketReadFault::Cut,
    }
}

/// Why the sizes of a front don't agree, of which so many bytes were read, in a file that has so many from its first one on.
fn size_fault(front: &Front, read: usize, there: usize) -> PacketReadFault
    requires { sizes_agree (front_of front.now) read there ≡ false }
    ensures { SizesDue (front_of front.now) read there result }
{
    if front.content_size % 8 != 0 {
        return PacketReadFault::ContentWithinByte(front.content_size);
    }
    if front.packet_size % 8 != 0 {
        return PacketReadFault::PacketWithinByte(front.packet_size);
    }
    if front.content_size / 8 < read as u64 {
        return PacketReadFault::BeforeEvents(front.content_size);
    }
    if front.packet_size < front.content_size {
        return PacketReadFault::AfterPacket {
            content: front.content_size,
            packet: front.packet_size,
        };
    }
    PacketReadFault::AfterFile(front.packet_size)
}

/// The packet with which these bytes begin: its front, the bytes of its events, and those after it. `timed` says whether the trace has a
/// clock.
pub fn next_packet(timed: bool, bytes: &[u8]) -> Result<SplitPacket<'_>, PacketReadFault>
    ensures read { IfOk result (λ packet. packet_split timed bytes.now ≡ Some (told_packet packet)) }
    ensures none { IfErr result (λ _. packet_split timed bytes.now ≡ None) }
    ensures fault { IfErr result (λ fault. PacketDue timed bytes.now fault) }
{
    if let Some(packet) = split_packet(timed, bytes) {
        return Ok(packet);
    }
    match read_front(timed, bytes) {
        Some((front, rest)) => {
            let read = bytes.len() - rest.len();
            Err(size_fault(&front, read, bytes.len()))
        }
        None => Err(front_fault(bytes)),
    }
}

/// The packet with which these bytes begin, where its events can be read too. Takes no memory.
pub fn check_packet<'b>(
    metadata: &Metadata<'_>,
    bytes: &'b [u8],
) -> Result<SplitPacket<'b>, WholePacketFault>
    ensures split { IfOk result (λ packet. packet_split (told_layout metadata.now).timed bytes.now ≡ Some (told_packet packet)) }
    ensures read { IfOk result (λ packet. option_map (λ p. p.1) (packet_from (told_layout metadata.now) bytes.now) ≡ Some packet.after.now) }
    ensures none { IfErr result (λ _. packet_from (told_layout metadata.now) bytes.now ≡ None) }
    ensures fault { IfErr result (λ fault. WholeDue (told_layout metadata.now) bytes.now fault) }
{
    let packet = match next_packet(metadata.clock.is_some(), bytes) {
        Ok(packet) => packet,
        Err(fault) => return Err(WholePacketFault::Packet(fault)),
    };
    match check_events(metadata, packet.body) {
        Ok(_) => Ok(packet),
        Err(fault) => Err(WholePacketFault::Events(fault)),
    }
}
