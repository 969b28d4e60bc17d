ghost use Rattle.std.specs.{Borrow.ftrue, Prelude.◌≡◌, Prelude.ℕ, Prelude.List, Prelude.[]};
ghost use Rattle.dspec_ctf_sink.specs.Writes.{FileWrite};

use crate::fault::FolderFault;
use std::marker::Model;

/// What is noted: a write that a folder was asked for, and why it wasn't taken, where it wasn't; or of a file that these bytes came after its own, or
/// that so many of them are left.
#[derive(Clone, Copy, Drop)]
pub(crate) enum LogEntry<'a> {
    Asked(&'a str, &'a [u8], Option<FolderFault>),
    Appended(&'a [u8]),
    Left(u64),
}

/// What was noted: the writes that a folder was asked for, each with its answer, and the bytes of a file, by what the system answered. Only clauses read
/// it: it takes no memory, and to note something takes no time.
#[derive(Drop)]
pub(crate) struct FileLog {
    ghost writes: { List FileWrite },
    ghost bytes: { List ℕ },
}

impl Model for FileLog {
    ghost also_owns = { λ _. ftrue };
}

// It owns nothing.
unsafe impl Send for FileLog {}

impl FileLog {
    ghost use Rattle.dspec_ctf_sink.specs.FileLogs.{log_then};

    /// Nothing was noted.
    pub(crate) fn none() -> FileLog
        ensures { result ≡ record { writes = []; bytes = [] } }
    {
        FileLog {}
    }

    /// One note more.
    pub(crate) fn then(&self, _entry: &LogEntry<'_>) -> FileLog
        ensures { result ≡ log_then self.now _entry.now }
    {
        FileLog {}
    }
}
