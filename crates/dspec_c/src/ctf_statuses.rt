//! What the calls of a trace answer, as a number; `dspec.h` has their names.

ghost use Rattle.std.specs.Prelude.{◌≡◌};
ghost use Rattle.dspec_c.specs.CtfStatuses.{metadata_status, needed_of, packet_status, put_status, text_size, text_status};

use dspec_ctf::{MetadataFault, NameFault, PacketFault, PutFault, TextFault};

pub const NO_STAMP: u32 = 12;

pub const NO_PACKET: u32 = 24;

/// No such kind of numbers, or no word of a text.
const BAD_KIND: u32 = 27;

/// Why a batch wasn't opened, or a packet wasn't made.
pub fn of_packet(fault: PacketFault) -> u32
    ensures { result ≡ packet_status fault }
{
    match fault {
        PacketFault::Text(_) => 16,
        PacketFault::Missed => 34,
        PacketFault::TooLong => 26,
        PacketFault::Clock(_) => 25,
        PacketFault::Memory => 7,
    }
}

/// Why no packet was handed out.
pub fn of_put(fault: PutFault) -> u32
    ensures { result ≡ put_status fault }
{
    match fault {
        PutFault::TooSmall(_) => 23,
        PutFault::Packet(fault) => of_packet(fault),
    }
}

/// How many bytes it needs, where that is why.
pub fn needed_of(fault: PutFault, was: usize) -> usize
    ensures { result ≡ needed_of fault was }
{
    match fault {
        PutFault::TooSmall(needed) => needed,
        PutFault::Packet(_) => was,
    }
}

fn of_metadata(fault: MetadataFault) -> u32
    ensures { result ≡ metadata_status fault }
{
    match fault {
        MetadataFault::NoStamp => NO_STAMP,
        MetadataFault::NoFrequency => 13,
        MetadataFault::Name(NameFault::Word { .. }) => BAD_KIND,
        MetadataFault::Name(_) => 14,
        MetadataFault::HostName => 28,
        MetadataFault::ProcessName => 28,
        MetadataFault::Memory => 7,
    }
}

/// Why there is no metadata, or no room for it.
pub fn of_text(fault: TextFault) -> u32
    ensures { result ≡ text_status fault }
{
    match fault {
        TextFault::TooSmall(_) => 23,
        TextFault::NotText => 14,
        TextFault::BadKind => BAD_KIND,
        TextFault::Count => 15,
        TextFault::Metadata(fault) => of_metadata(fault),
    }
}

/// How many bytes it needs, where that is why.
pub fn text_size(fault: TextFault, was: usize) -> usize
    ensures { result ≡ text_size fault was }
{
    match fault {
        TextFault::TooSmall(needed) => needed,
        _ => was,
    }
}
