ghost use Rattle.std.specs.Prelude.{IfErr};
ghost use Rattle.dspec_ctf_sink.specs.Faults.{IsFolderFault};

use crate::fault::{FolderFault, write_fault};
use crate::made::make_file;
use crate::system::{SystemFolder, open_folder, path_in};
use std::fs;
use std::fs::File;
use std::io::Write;
use std::os::fd::AsRawFd;

/// What is kept for a CPU: a page of the disk, of which its last packets take half at most.
const PAGE: [u8; 4096] = [0; 4096];

/// Room on the disk of a folder, kept by a hidden file in it, `.room`, which tools pass over. Where it is given back right before `tell_untold`, a trace
/// tells what it couldn't write on a disk that is full by then. The file stays where nobody gives it back.
#[must_use]
#[derive(Drop)]
pub struct KeptRoom<'a> {
    host: &'a HostRuntime,
    folder: File,
    path: String,
}

/// Writes so many pages.
fn fill(file: &mut File, pages: u32) -> Result<(), FolderFault>
    ensures { IfErr result IsFolderFault }
{
    for _ in 0..pages {
        if let Err(fault) = file.write_all(&PAGE) {
            return Err(write_fault(&fault));
        }
    }
    Ok(())
}

impl<'a> SystemFolder<'a> {
    /// Keeps 4,096 bytes of the disk for each of so many CPUs. Refused where `.room` is there, or the disk has no room; then it keeps none.
    pub fn keep_room(&self, cpus: u32) -> Result<KeptRoom<'a>, FolderFault>
        ensures { IfErr result IsFolderFault }
    {
        let (host, alloc) = (self.host, self.host.alloc());
        let path = path_in(alloc, self.folder.as_raw_fd(), "")?;
        let folder = match open_folder(host, path.as_str()) {
            Ok(folder) => folder,
            Err(fault) => return Err(fault),
        };
        let path = path_in(alloc, folder.as_raw_fd(), ".room")?;
        let mut file = match make_file(host, path.as_str()) {
            Ok(file) => file,
            Err(fault) => return Err(fault),
        };
        let filled = fill(&mut file, cpus);
        let room = KeptRoom { host, folder, path };
        match filled {
            Ok(()) => Ok(room),
            Err(fault) => {
                let _ = room.give_back();
                Err(fault)
            }
        }
    }
}

impl KeptRoom<'_> {
    /// Gives the room back. Refused where the file couldn't be removed, as where it is gone.
    pub fn give_back(self) -> Result<(), FolderFault>
        ensures { IfErr result IsFolderFault }
    {
        match fs::remove_file(self.host, self.path.as_str()) {
            Ok(()) => Ok(()),
            Err(fault) => Err(write_fault(&fault)),
        }
    }
}
