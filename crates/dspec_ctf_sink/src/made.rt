//! Files that are made. At which path, nothing but this code knows: no contract of the kit says it.

ghost use Rattle.std.specs.{Fs.new_options, Fs.with_append, Fs.with_create_new, Prelude.◌≡◌, Prelude.IfErr, Prelude.true};
ghost use Rattle.dspec_ctf_sink.specs.Faults.{IsFolderFault, IsWriteFault};

use crate::fault::{FolderFault, write_fault};
use std::fs::{File, OpenOptions};

/// How a file is made: to write after its end, and never one that is there, nor where a link leads.
fn new_file() -> OpenOptions
    ensures { result ≡ with_create_new (with_append new_options true) true }
{
    let mut options = File::options();
    options.append(true).create_new(true);
    options
}

/// Makes the file of that path.
pub(crate) fn make_file(rt: &HostRuntime, path: &str) -> Result<File, FolderFault>
    ensures write { IfErr result IsWriteFault }
    ensures folder { IfErr result IsFolderFault }
{
    match new_file().open(rt, path) {
        Ok(file) => Ok(file),
        Err(fault) => Err(write_fault(&fault)),
    }
}
