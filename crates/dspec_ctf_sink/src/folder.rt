ghost use Rattle.std.specs.Prelude.{IfErr, OnOk, Option, List};
ghost use Rattle.dspec_ctf_sink.specs.Writes.{FileWrite, Refuses, Takes};

use crate::fault::FolderFault;
use std::alloc::Global;

/// A place that takes the files of a trace. What it was asked for, where its type says so, is a list of writes, each with its answer.
pub trait Folder: Drop {
    ghost written: { Self → Option (List FileWrite) };

    /// Writes bytes after those of a file, which is made where there is none: one write. Of one that is refused nothing is there,
    /// unless the fault is `Cut`.
    fn add(&mut self, alloc: Global, name: &str, bytes: &[u8]) -> Result<(), FolderFault>
        ensures taken { OnOk result (Takes (written self.old) name.now bytes.now (written self.new)) }
        ensures refused { IfErr result (Refuses (written self.old) name.now bytes.now (written self.new)) };
}
