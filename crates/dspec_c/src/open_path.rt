ghost use Rattle.dspec_c.specs.Shows.{TellsOpenPath};

use crate::statuses::number_of;
use dspec_paths::OpenPath;

/// An open path of a table, as C reads it.
#[repr(C)]
#[derive(Drop)]
pub struct COpenPath {
    /// The speculation that its records go into.
    pub newest: u64,
    /// The one before, which is full; 0: there is none.
    pub older: u64,
    /// The stamp of its first record.
    pub begun: u64,
    /// Its number.
    pub number: u32,
    /// The thread that recorded last.
    pub thread: u32,
    /// How many of its first records were thrown away for later ones.
    pub cut: u32,
    /// Its older records were kept, and the others wait for room.
    pub is_kept: bool,
}

impl COpenPath {
    pub(crate) fn of(path: &OpenPath) -> COpenPath
        ensures { TellsOpenPath result path.now }
    {
        COpenPath {
            newest: path.newest.raw(),
            older: number_of(path.older),
            begun: path.begun,
            number: path.number,
            thread: path.thread,
            cut: path.cut,
            is_kept: path.is_kept,
        }
    }
}
