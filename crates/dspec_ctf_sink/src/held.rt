//! A file that is held open, and has whole writes alone.

ghost use Rattle.std.specs.{Io.KnownBytes.Appends, Io.KnownBytes.Keeps, IoError.error_kind, Prelude.ℕ, Prelude.◌≤◌, Prelude.◌≢◌, Prelude.◌-◌, Prelude.List, Prelude.length, Prelude.take};
ghost use Rattle.std.specs.{Prelude.drop, Prelude.IfErr, Prelude.IfOk, Prelude.OnErr, Prelude.OnOk, declared.io.ErrorKind.TheVariants.Interrupted};
ghost use Rattle.dspec_ctf_sink.specs.Held.{IsCut, IsLong, LeavesBytes};

use crate::fault::{FolderFault, write_fault};
use std::io;
use std::io::Write;
use std::marker::Model;
use std::os::fd::RawFd;

/// A file that is written after its end, and can be cut back.
pub(crate) trait Cuttable: Write {
    /// The path at which it was made.
    ghost path: { Self → List ℕ };

    /// How many bytes it has.
    fn size(&self) -> io::Result<u64>
        ensures { IfOk result (IsLong (Self.contents self.now)) };

    /// Leaves the first so many bytes.
    fn cut(&mut self, length: u64) -> io::Result<()>
        ensures cut { OnOk result (IsCut (Self.contents self.old) (Self.contents self.new) length) }
        ensures kept { OnErr result (Keeps (Self.contents self.old) (Self.contents self.new)) };
}

/// Writes some of the bytes from a place on, and tells up to where they are written then. A write that was interrupted wrote none, and is no fault.
fn write_from<W: Write>(file: &mut W, bytes: &[u8], from: usize) -> io::Result<usize>
    requires { from ≤ length bytes.now }
    ensures within { IfOk result (λ to. (from ≤ to) × (to ≤ length bytes.now)) }
    ensures written { IfOk result (λ to. Appends (W.contents file.old) (W.contents file.new) (take (to - from) (drop from bytes.now))) }
    ensures kept { OnErr result (Keeps (W.contents file.old) (W.contents file.new)) }
    ensures uninterrupted { IfErr result (λ fault. error_kind fault ≢ Interrupted) }
{
    match file.write(&bytes[from..]) {
        Ok(0) => Err(io::Error::from(io::ErrorKind::WriteZero)),
        Ok(count) => Ok(from + count),
        Err(fault) if fault.kind() == io::ErrorKind::Interrupted => Ok(from),
        Err(fault) => Err(fault),
    }
}

/// Writes all of these bytes. Where that fails, a beginning of them is there.
fn write_whole<W: Write>(file: &mut W, bytes: &[u8]) -> io::Result<()>
    ensures written { OnOk result (Appends (W.contents file.old) (W.contents file.new) bytes.now) }
    ensures begun { (n : ℕ) × Appends (W.contents file.old) (W.contents file.new) (take n bytes.now) }
    ensures uninterrupted { IfErr result (λ fault. error_kind fault ≢ Interrupted) }
{
    let mut at = 0;
    for _ in 0..u64::MAX {
        if at == bytes.len() {
            return Ok(());
        }
        at = write_from(file, bytes, at)?;
    }
    Err(io::Error::from(io::ErrorKind::TimedOut))
}

/// Writes all of these bytes after those that the file has, or none: what a write left that failed in its middle is cut off.
fn write_or_cut<W: Cuttable>(file: &mut W, bytes: &[u8]) -> Result<(), FolderFault>
    ensures written { OnOk result (Appends (W.contents file.old) (W.contents file.new) bytes.now) }
    ensures fault { IfErr result (LeavesBytes (W.contents file.old) (W.contents file.new)) }
{
    let size = match file.size() {
        Ok(size) => size,
        Err(fault) => return Err(write_fault(&fault)),
    };
    let Err(fault) = write_whole(file, bytes) else {
        return Ok(());
    };
    match file.cut(size) {
        Ok(()) => Err(write_fault(&fault)),
        Err(_) => Err(FolderFault::Cut),
    }
}

/// A file that is held open. It has whole writes alone, or takes no more.
#[derive(Drop)]
pub(crate) struct HeldFile<W: Cuttable> {
    name: String,
    file: W,
    broken: bool,
}

impl<W: Cuttable> Model for HeldFile<W> {
    ghost use Rattle.std.specs.Prelude.{string_bytes};
    ghost use Rattle.dspec_ctf_sink.specs.Held.{Held};

    ghost Value = { Held };

    ghost view = { λ i. record { name = string_bytes i.name; bytes = W.contents i.file; broken = i.broken } };
}

impl<W: Cuttable> HeldFile<W> {
    ghost use Rattle.std.specs.{Io.KnownBytes.Appends, Prelude.◌≡◌, Prelude.◌↔◌, Prelude.IsTrue, Prelude.false, Prelude.true, Prelude.string_bytes, Prelude.IfErr, Prelude.OnOk};
    ghost use Rattle.dspec_ctf_sink.specs.Held.{LeavesFile, path_in};

    /// A file of this name, which was made at that name in the folder that is open under this number. It has no broken write.
    pub(crate) fn new(_folder: RawFd, name: String, file: W) -> HeldFile<W>
        requires { W.path file ≡ path_in _folder (string_bytes name) }
        ensures { result ≡ record { name = string_bytes name; bytes = W.contents file; broken = false } }
    {
        HeldFile {
            name,
            file,
            broken: false,
        }
    }

    /// Whether it has this name.
    pub(crate) fn is_named(&self, name: &str) -> bool
        ensures { IsTrue result ↔ self.now.name ≡ name.now }
    {
        self.name.as_str() == name
    }

    /// Writes bytes after those that it has. After `Cut` it takes no more.
    pub(crate) fn add(&mut self, bytes: &[u8]) -> Result<(), FolderFault>
        ensures name { self.new.name ≡ self.old.name }
        ensures taken { OnOk result (Appends self.old.bytes self.new.bytes bytes.now × (self.new.broken ≡ false)) }
        ensures fault { IfErr result (LeavesFile self.old self.new) }
        ensures over { self.old.broken ≡ true → self.new ≡ self.old }
    {
        if self.broken {
            return Err(FolderFault::Cut);
        }
        let Err(fault) = write_or_cut(&mut self.file, bytes) else {
            return Ok(());
        };
        self.broken = matches!(fault, FolderFault::Cut);
        Err(fault)
    }
}
