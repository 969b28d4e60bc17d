ghost use Rattle.std.specs.Prelude.{◌≡◌};
ghost use Rattle.dspec_ctf.specs.declared.fault.MetadataFault.TheVariants.{Memory};

use std::alloc::AllocError;
use thiserror::Error;

/// Why a word can't be a name.
#[derive(Debug, Clone, Copy, PartialEq, Eq, Error)]
pub enum NameKind {
    /// It has more than 255 bytes.
    #[error("longer than 255 bytes")]
    TooLong,
    /// It doesn't begin with an English letter or an underscore, or has a byte that is none of these and no digit.
    #[error("no identifier")]
    NotAnIdentifier,
    /// The metadata's language keeps it for itself.
    #[error("a reserved word")]
    Reserved,
    /// Another one before it is the same, or it is `stamp`, which the event has already.
    #[error("used twice")]
    Repeated,
}

/// Which of the given names can't be used. Names of events are looked at first, then those of the fields of one event after
/// another.
#[derive(Debug, Clone, Copy, PartialEq, Eq, Error)]
pub enum NameFault {
    /// There aren't as many names as enablings.
    #[error("not a name for each enabling")]
    EventCount,
    /// The name of the event with this EPID.
    #[error("event {epid}: {kind}")]
    Event {
        epid: u32,
        kind: NameKind,
    },
    /// The event with this EPID doesn't have as many names as fields, where a text is one field.
    #[error("event {epid}: not a name for each field")]
    FieldCount {
        epid: u32,
    },
    /// The word of a text, by its event's EPID and its field's place: the field isn't of eight bytes, or it is a next word and none of the text
    /// is in front of it.
    #[error("event {epid}, field {place}: no word of a text")]
    Word {
        epid: u32,
        place: usize,
    },
    /// A label of a field's values, by its event's EPID, the field's place and the value, from 0 on: it is empty, has more than 255
    /// bytes, or one that isn't printable ASCII, or a quote or a backslash.
    #[error("event {epid}, field {place}: label {value} can't be shown")]
    Label {
        epid: u32,
        place: usize,
        value: usize,
    },
    /// The name of a field, by its event's EPID and its place, from 0 on.
    #[error("event {epid}, field {place}: {kind}")]
    Field {
        epid: u32,
        place: usize,
        kind: NameKind,
    },
}

/// Why a trace has no metadata.
#[derive(Debug, Clone, Copy, PartialEq, Eq, Error)]
pub enum MetadataFault {
    /// A trace by time of records without a stamp.
    #[error("by time, but records have no stamp")]
    NoStamp,
    /// A trace by time, of a clock of no tick a second.
    #[error("a clock of frequency 0")]
    NoFrequency,
    /// A name can't be used.
    #[error("{0}")]
    Name(NameFault),
    /// The machine's name is no text of one line, as `Process` wants it.
    #[error("the host's name can't be shown")]
    HostName,
    /// The program's name is none.
    #[error("the process's name can't be shown")]
    ProcessName,
    /// A growth was refused.
    #[error("out of memory")]
    Memory,
}

impl From<AllocError> for MetadataFault {
    ghost from_gives = { λ _ fault. fault ≡ Memory };

    fn from(_refused: AllocError) -> Self {
        MetadataFault::Memory
    }
}
