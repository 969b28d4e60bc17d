//! How much of a file is whole packets.

ghost use Rattle.std.specs.Prelude.{◌≡◌, ◌≤◌, None, drop, length};
ghost use Rattle.dspec_ctf_reading.specs.{Folders.Whole.AreWholeBefore, Folders.Whole.IsFileEnd, Fronts.split_packet as packet_split};

use crate::fronts::split_packet;
use crate::{PacketReadFault, next_packet};

/// The length of a beginning of the bytes that is whole packets, one after another, and after which no whole packet stands. `timed`
/// says whether the trace has a clock.
pub fn whole_len(timed: bool, bytes: &[u8]) -> usize
    ensures within { result ≤ length bytes.now }
    ensures whole { AreWholeBefore timed bytes.now (drop result bytes.now) }
    ensures no_more { packet_split timed (drop result bytes.now) ≡ None }
{
    let mut rest = bytes;
    while let Some(packet) = split_packet(timed, rest) {
        rest = packet.after;
    }
    bytes.len() - rest.len()
}

/// How a file ends.
#[derive(Debug, Clone, Copy, PartialEq, Eq)]
pub enum Ending {
    /// With its last packet.
    Whole,
    /// With a packet that isn't whole, which begins at this byte: its writer was stopped.
    Cut(usize),
    /// At this byte neither a packet begins nor what a stopped writer leaves of one.
    Broken(usize, PacketReadFault),
}

/// Whether a packet's header of this trace stands in these bytes, at whatever byte: the format's number and the trace's uuid.
fn has_header(uuid: &[u8; 16], bytes: &[u8]) -> bool {
    let mut rest = bytes;
    while let Some((_, next)) = rest.split_first() {
        if let Some(after) = rest.strip_prefix(&[0xC1, 0x1F, 0xFC, 0xC1]) {
            if after.starts_with(uuid) {
                return true;
            }
        }
        rest = next;
    }
    false
}

/// How a file of this trace ends. A packet that isn't whole is told as cut only where no packet begins after its first byte.
pub fn ending_of(timed: bool, uuid: &[u8; 16], bytes: &[u8]) -> Ending
    ensures { IsFileEnd timed bytes.now result }
{
    let at = whole_len(timed, bytes);
    let rest = &bytes[at..];
    let Some((_, next)) = rest.split_first() else {
        return Ending::Whole;
    };
    match next_packet(timed, rest) {
        Ok(_) => Ending::Whole,
        Err(fault @ (PacketReadFault::Cut | PacketReadFault::AfterFile(_))) => {
            if has_header(uuid, next) || whole_len(timed, &bytes[..at]) != at {
                return Ending::Broken(at, fault);
            }
            Ending::Cut(at)
        }
        Err(fault) => Ending::Broken(at, fault),
    }
}
