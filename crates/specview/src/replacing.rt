//! The file of a picture or of a page, which is made, or takes the place of the one that is there.

use crate::program::ProgramFault;
use dspec_command::{CommandFault, device_fault};
use std::fs::File;
use std::io::Write;
use std::os::unix::fs::MetadataExt;
use std::{fs, io};

/// Whether both names are of one file of the system.
fn are_same(rt: &HostRuntime, one: &str, other: &str) -> bool {
    let (Ok(one), Ok(other)) = (fs::metadata(rt, one), fs::metadata(rt, other)) else {
        return false;
    };
    one.is_file() && one.dev() == other.dev() && one.ino() == other.ino()
}

/// Sees that the file isn't the schedule's own, which is standard input where none is named.
pub fn see_other<'a>(
    rt: &HostRuntime,
    name: &'a str,
    schedule: Option<&str>,
) -> Result<(), ProgramFault<'a>> {
    if are_same(rt, name, schedule.unwrap_or("/dev/stdin")) {
        return Err(ProgramFault::OwnSchedule(name));
    }
    Ok(())
}

/// Writes bytes to an open file.
fn write_bytes(mut file: File, bytes: &[u8]) -> io::Result<()> {
    file.write_all(bytes)
}

/// Writes bytes beside the file of that path, and puts it into its place once it is whole.
fn put_beside(rt: &HostRuntime, path: &str, bytes: &[u8]) -> io::Result<()> {
    let beside = format!(in rt.alloc(); "{path}.new")?;
    let written = match File::create_new(rt, beside.as_str()) {
        Ok(file) => write_bytes(file, bytes),
        Err(reason) => return Err(reason),
    };
    let ended = match written {
        Ok(()) => fs::rename(rt, beside.as_str(), path),
        Err(reason) => Err(reason),
    };
    if ended.is_err() {
        let _ = fs::remove_file(rt, beside.as_str());
    }
    ended
}

/// The same of a file that is there; a link stays one.
fn replace_file(rt: &HostRuntime, name: &str, bytes: &[u8]) -> io::Result<()> {
    let path = fs::canonicalize(rt, name)?;
    put_beside(rt, path.to_str().unwrap_or(name), bytes)
}

/// Writes bytes to what has that name: into a new file, which takes the place of an old one once it is whole; else, as to a device,
/// as it is.
fn write_to(rt: &HostRuntime, name: &str, bytes: &[u8]) -> io::Result<()> {
    match fs::metadata(rt, name) {
        Ok(found) if found.is_file() => replace_file(rt, name, bytes),
        Ok(_) => write_bytes(File::create(rt, name)?, bytes),
        Err(_) => put_beside(rt, name, bytes),
    }
}

/// Writes bytes to the file of that name, which is made, or replaced once the new one is whole.
pub fn write_file<'a>(
    rt: &HostRuntime,
    name: &'a str,
    bytes: &[u8],
) -> Result<(), CommandFault<'a>> {
    match write_to(rt, name, bytes) {
        Ok(()) => Ok(()),
        Err(reason) => Err(device_fault(name, reason)),
    }
}
