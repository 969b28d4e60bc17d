use dspec_record::ReadKind;
use std::error::Error;
use std::fmt;

/// The first fault of a text, and its place in bytes from the text's start.
#[derive(Debug, Clone, Copy, PartialEq, Eq)]
pub struct ReadFault {
    /// Why no record can be read there.
    pub kind: ReadKind,
    /// In bytes from the text's start, after a padding word that may stand there.
    pub at: usize,
}

impl Error for ReadFault {}

impl fmt::Display for ReadFault {
    fn fmt<W: fmt::Write>(&self, f: &mut fmt::Formatter<W>) -> fmt::Result {
        let ReadFault { kind, at } = *self;
        write!(f, "{kind} at byte {at}")
    }
}
