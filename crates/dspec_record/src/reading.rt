use std::error::Error;
use std::fmt;

/// Why bytes can't be read as a record.
#[derive(Debug, Clone, Copy, PartialEq, Eq)]
pub enum ReadKind {
    /// There are fewer bytes than the EPID, or than the record needs.
    Truncated,
    /// No record has this EPID.
    UnknownEpid,
    /// The record doesn't begin at a multiple of its alignment. Only a reader of whole buffers answers this.
    Misaligned,
    /// A byte between two fields, or after the last one, isn't zero.
    GapNotZero,
    /// The EPID is zero, which is a padding word and no record.
    Padding,
}

impl Error for ReadKind {}

impl fmt::Display for ReadKind {
    fn fmt<W: fmt::Write>(&self, f: &mut fmt::Formatter<W>) -> fmt::Result {
        f.pad(match self {
            ReadKind::Truncated => "truncated",
            ReadKind::UnknownEpid => "unknown EPID",
            ReadKind::Misaligned => "misaligned",
            ReadKind::GapNotZero => "gap not zero",
            ReadKind::Padding => "padding in place of a record",
        })
    }
}
