//! What is told while files are read: how far that is, in one line of the error output where that is a terminal, and what is wrong with a file.

use crate::naming::FileName;
use dspec_ctf_reading::folder::FileFault;
use std::io::IsTerminal;
use std::time::Instant;

/// After how many seconds it is told how far the reading is.
const PATIENCE: u64 = 1;

/// The reading of some files, as it is told.
#[derive(Debug, Drop)]
pub(crate) struct ReadingProgress {
    /// When it began; None where nobody sees how far it is.
    begin: Option<Instant>,
    /// How many files there are.
    due: usize,
    /// How many of them were begun.
    begun: usize,
    /// Whether a line is on the terminal.
    is_shown: bool,
    /// Whether nothing is told of files.
    is_quiet: bool,
}

impl ReadingProgress {
    /// The reading of so many files begins.
    pub(crate) fn new(rt: &HostRuntime, due: usize) -> ReadingProgress {
        let begin = match rt.stderr().is_terminal() {
            true => Instant::now(rt).ok(),
            false => None,
        };
        ReadingProgress {
            begin,
            due,
            begun: 0,
            is_shown: false,
            is_quiet: false,
        }
    }

    /// A reading of which nothing is told.
    pub(crate) fn quiet() -> ReadingProgress {
        ReadingProgress {
            begin: None,
            due: 0,
            begun: 0,
            is_shown: false,
            is_quiet: true,
        }
    }

    /// Whether the reading takes so long that it is told how far it is.
    fn is_long(&self, rt: &HostRuntime) -> bool {
        let Some(begin) = self.begin else {
            return false;
        };
        match begin.elapsed(rt) {
            Ok(elapsed) => elapsed.as_secs() >= PATIENCE,
            Err(_) => false,
        }
    }

    /// The next file is read. A line that can't be written changes nothing.
    pub(crate) fn next(&mut self, rt: &HostRuntime) {
        self.begun = self.begun.saturating_add(1);
        if self.is_long(rt) {
            self.is_shown = true;
            let (begun, due) = (self.begun, self.due);
            let _ = eprint!(rt; "\rspecview: reads file {begun} of {due}");
        }
    }

    /// Takes the line away, before something else is written to the terminal.
    pub(crate) fn clear(&mut self, rt: &HostRuntime) {
        if self.is_shown {
            self.is_shown = false;
            let _ = eprint!(rt; "\r\x1b[K");
        }
    }

    /// Tells on the error output what is wrong with a file. A line that can't be written changes nothing.
    pub(crate) fn tell_wrong(
        &mut self,
        rt: &HostRuntime,
        folder: &str,
        file: FileName,
        fault: &FileFault,
    ) {
        if self.is_quiet {
            return;
        }
        self.clear(rt);
        let _ = eprintln!(rt; "specview: {folder}/{file}: {fault}");
    }
}
