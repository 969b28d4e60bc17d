use dspec::Closed;
use dspec_ctf_sink::{ClockStart, Loss, SystemFolder};

/// Where a trace goes, and what it calls its program.
#[derive(Debug, Clone, Copy)]
pub struct FolderPlace<'a> {
    /// The path of the folder: it is made, or is there and empty.
    pub path: &'a str,
    /// The program's name, 1 to 255 bytes of printable ASCII without quotes and backslashes.
    pub name: &'a str,
}

/// The clock of a session's stamps.
#[derive(Debug, Clone, Copy)]
pub struct StampClock {
    /// How many ticks it has in a second.
    pub hertz: u64,
    /// Where it began, where that is known: `ClockStart::at` of the time of day of the stamp 0. Tools then show the time of day of each event.
    pub start: Option<ClockStart>,
}

/// A session that was traced into a folder.
#[derive(Drop)]
pub struct FolderTrace<'a> {
    /// What is left of its CPUs.
    pub closed: Closed,
    /// The folder, whose files are held open still.
    pub folder: SystemFolder<'a>,
    /// The trace's own uuid.
    pub uuid: [u8; 16],
    /// What wasn't written, if anything: in which file and why first, and how many records.
    pub lost: Option<Loss>,
}
