ghost use Rattle.std.specs.Prelude.{◌≡◌};
ghost use Rattle.dspec_ctf.specs.declared.in_memory.fault.PutFault.TheVariants as put;
ghost use Rattle.dspec_ctf.specs.declared.in_memory.fault.TextFault.TheVariants as text;
ghost use Rattle.dspec_ctf.specs.declared.stream.PacketFault.TheVariants.{Memory};
ghost use Rattle.dspec_ctf.specs.declared.fault.MetadataFault.TheVariants as metadata;

use crate::{MetadataFault, PacketFault};
use std::alloc::{AllocError, AllocFailed};
use thiserror::Error;

/// Why no packet was handed out.
#[derive(Debug, Clone, Copy, PartialEq, Eq, Error)]
pub enum PutFault {
    /// The next packet has so many bytes, for which there is no room.
    #[error("a packet of {0} bytes has no room")]
    TooSmall(usize),
    /// There is none of the next records: that is `Clock` or `Memory`.
    #[error("{0}")]
    Packet(PacketFault),
}

impl From<PacketFault> for PutFault {
    ghost from_gives = { λ fault given. given ≡ put.Packet fault };

    fn from(fault: PacketFault) -> Self {
        PutFault::Packet(fault)
    }
}

impl From<AllocError> for PutFault {
    ghost from_gives = { λ _ fault. fault ≡ put.Packet Memory };

    fn from(_refused: AllocError) -> Self {
        PutFault::Packet(PacketFault::Memory)
    }
}

/// Why no metadata was put.
#[derive(Debug, Clone, Copy, PartialEq, Eq, Error)]
pub enum TextFault {
    /// The text has so many bytes, for which there is no room.
    #[error("a text of {0} bytes has no room")]
    TooSmall(usize),
    /// A name, or a text of the identity, isn't UTF-8.
    #[error("a name is no text")]
    NotText,
    /// What the numbers of a field mean is none of 0 to 4.
    #[error("no such kind of numbers")]
    BadKind,
    /// There aren't as many names as events and fields, or not as many kinds as fields.
    #[error("not a name for each event and field")]
    Count,
    /// There is no such metadata.
    #[error("{0}")]
    Metadata(MetadataFault),
}

impl From<MetadataFault> for TextFault {
    ghost from_gives = { λ fault given. given ≡ text.Metadata fault };

    fn from(fault: MetadataFault) -> Self {
        TextFault::Metadata(fault)
    }
}

impl From<AllocError> for TextFault {
    ghost from_gives = { λ _ fault. fault ≡ text.Metadata metadata.Memory };

    fn from(_refused: AllocError) -> Self {
        TextFault::Metadata(MetadataFault::Memory)
    }
}

impl<T: Drop> From<AllocFailed<T>> for TextFault {
    ghost from_gives = { λ _ fault. fault ≡ text.Metadata metadata.Memory };

    fn from(_refused: AllocFailed<T>) -> Self {
        TextFault::Metadata(MetadataFault::Memory)
    }
}
