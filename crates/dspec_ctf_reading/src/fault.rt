//! Why a text or bytes can't be read.

ghost use Rattle.std.specs.Prelude.{◌≡◌};
ghost use Rattle.dspec_ctf_reading.specs.declared.fault.{MetadataReadFault.TheVariants.Memory as no_memory, ReadStop.TheVariants.Memory};

use std::alloc::{AllocError, AllocFailed};
use thiserror::Error;

/// What should stand at a place of the metadata.
#[derive(Debug, Clone, Copy, PartialEq, Eq, Error)]
pub enum Expected {
    /// This text.
    #[error("{0:?}")]
    Text(&'static str),
    /// The lines before the trace's uuid, which are the same in each of our traces.
    #[error("the format's types")]
    Types,
    /// The lines between the trace's uuid and the environment.
    #[error("the packets' header and the environment")]
    Header,
    /// The lines of the stream for a trace with a clock, or for one without.
    #[error("the stream of a trace with or without a clock")]
    Stream,
    /// English letters, digits and underscores.
    #[error("a name of letters, digits and underscores")]
    Name,
    /// Printable bytes without quotes and backslashes.
    #[error("printable text without quotes and backslashes")]
    Quoted,
    /// Decimal digits.
    #[error("a number")]
    Number,
    /// A type of a field.
    #[error("a field's type")]
    Type,
}

/// Why a text is no metadata of our traces. Lines are counted from 1.
#[derive(Debug, Clone, Copy, PartialEq, Eq, Error)]
pub enum MetadataReadFault {
    /// What should stand in a line doesn't.
    #[error("line {line}: expected {expected}")]
    Line { line: u64, expected: Expected },
    /// A number has more than 64 bits.
    #[error("line {line}: a number of more than 64 bits")]
    TooLarge { line: u64 },
    /// A growth was refused.
    #[error("out of memory")]
    Memory,
}

/// Where reading a text stopped, with so many bytes left, and why.
#[derive(Debug, Clone, Copy, Drop)]
pub(crate) enum ReadStop {
    /// Something else should stand there.
    Unread { left: usize, expected: Expected },
    /// A number that begins there has more than 64 bits.
    TooLarge { left: usize },
    /// A growth was refused.
    Memory,
}

impl From<AllocError> for ReadStop {
    ghost from_gives = { λ _ e. e ≡ Memory };

    fn from(_e: AllocError) -> ReadStop {
        ReadStop::Memory
    }
}

impl<T: Drop> From<AllocFailed<T>> for ReadStop {
    ghost from_gives = { λ _ e. e ≡ Memory };

    fn from(_e: AllocFailed<T>) -> ReadStop {
        ReadStop::Memory
    }
}

/// Why bytes don't begin with an event.
#[derive(Debug, Clone, Copy, PartialEq, Eq, Error)]
pub enum EventFault {
    /// The metadata has no event of this number.
    #[error("no event has the number {0}")]
    Unknown(u32),
    /// The bytes end before the event does.
    #[error("the bytes end within an event")]
    Cut,
    /// A growth was refused.
    #[error("out of memory")]
    Memory,
}

impl From<AllocError> for EventFault {
    ghost use Rattle.std.specs.Prelude.{◌≡◌};
    ghost use Rattle.dspec_ctf_reading.specs.declared.fault.EventFault.TheVariants.{Memory};

    ghost from_gives = { λ _ e. e ≡ Memory };

    fn from(_e: AllocError) -> EventFault {
        EventFault::Memory
    }
}

impl<T: Drop> From<AllocFailed<T>> for EventFault {
    ghost use Rattle.std.specs.Prelude.{◌≡◌};
    ghost use Rattle.dspec_ctf_reading.specs.declared.fault.EventFault.TheVariants.{Memory};

    ghost from_gives = { λ _ e. e ≡ Memory };

    fn from(_e: AllocFailed<T>) -> EventFault {
        EventFault::Memory
    }
}

/// Why events don't fill the bytes of a packet.
#[derive(Debug, Clone, Copy, PartialEq, Eq, Error)]
#[error("event {before}, at byte {at}: {fault}")]
pub struct EventsFault {
    /// How many events stand before the first one that can't be read.
    pub before: usize,
    /// Where that one begins, in bytes from the first event on.
    pub at: usize,
    /// Why it can't be read.
    pub fault: EventFault,
}

/// Why bytes don't begin with a packet. Sizes are in bits, from the packet's first on: that of its content, which ends with its events, and
/// its own.
#[derive(Debug, Clone, Copy, PartialEq, Eq, Error)]
pub enum PacketReadFault {
    /// The bytes end before what stands before a packet's events does.
    #[error("the bytes end within the front of a packet")]
    Cut,
    /// They begin with another number than the format's.
    #[error("no packet begins with {0:#010x}")]
    Magic(u32),
    /// The packet is of a stream that no trace of ours has.
    #[error("there is no stream {0}")]
    Stream(u32),
    /// The size of the content isn't of whole bytes.
    #[error("content of {0} bits ends within a byte")]
    ContentWithinByte(u64),
    /// Nor is the packet's own.
    #[error("a packet of {0} bits ends within a byte")]
    PacketWithinByte(u64),
    /// The content ends before the events begin.
    #[error("content of {0} bits ends before the events")]
    BeforeEvents(u64),
    /// The content ends after the packet.
    #[error("content of {content} bits ends after its packet of {packet}")]
    AfterPacket { content: u64, packet: u64 },
    /// The packet ends after the bytes.
    #[error("a packet of {0} bits ends after the file")]
    AfterFile(u64),
}

/// Why a packet can't be read whole.
#[derive(Debug, Clone, Copy, PartialEq, Eq, Error)]
pub enum WholePacketFault {
    /// The bytes begin with no packet.
    #[error(transparent)]
    Packet(PacketReadFault),
    /// Its events can't be read; places are counted from its first event on.
    #[error(transparent)]
    Events(EventsFault),
}
