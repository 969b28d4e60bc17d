//! The folder of a trace.

ghost use Rattle.std.specs.Prelude.{◌≡◌, IfErr, IsErrAnd, None, OnErr, OnOk, Option, List};
ghost use Rattle.specview.specs.{Faults.IsWritingFault, Folders.AddsFiles, Folders.IsEmpty, Folders.NamedFile, Folders.named_file, Folders.trace_files, Folders.written_files};

use crate::fault::{ViewFault, read_fault, write_fault};
use crate::program::ProgramFault;
use crate::trace::Trace;
use dspec_command::{CommandFault, device_fault};
use std::alloc::Global;
use std::fs::File;
use std::io::Write;
use std::{fs, io};

/// A place that takes the files of a trace. What it has, where its type says so, is a list of names with bytes.
pub trait TraceFiles {
    ghost files: { Self → Option (List NamedFile) };

    /// Adds a file, which there isn't yet. Where that fails, a beginning of it may be there.
    fn put(&mut self, alloc: Global, name: &str, bytes: &[u8]) -> Result<(), ViewFault>
        ensures put { OnOk result (AddsFiles (files self.old) (files self.new) (named_file name.now bytes.now)) }
        ensures fault { IfErr result IsWritingFault };

    /// Takes away all files that were put, or begun.
    fn clear(&mut self)
        ensures { IsEmpty (files self.new) };
}

/// A folder of the system, by its path.
#[derive(Drop)]
pub struct OutputFolder<'a> {
    rt: &'a HostRuntime,
    path: &'a str,
    /// Whether the folder was made for the trace.
    made: bool,
    /// The paths of the files that were begun in it.
    begun: Vec<String>,
    /// Why the last file wasn't written, where one wasn't.
    reason: Option<io::Error>,
}

impl<'a> OutputFolder<'a> {
    /// Makes the folder, or sees that it is empty.
    pub fn new(rt: &'a HostRuntime, path: &'a str) -> Result<OutputFolder<'a>, ProgramFault<'a>> {
        let made = match fs::create_dir(rt, path) {
            Ok(()) => true,
            Err(fault) if fault.kind() == io::ErrorKind::AlreadyExists => {
                see_empty(rt, path)?;
                false
            }
            Err(reason) => return Err(ProgramFault::Command(device_fault(path, reason))),
        };
        Ok(OutputFolder {
            rt,
            path,
            made,
            begun: Vec::new(rt.alloc()),
            reason: None,
        })
    }

    /// What is told of the last file that wasn't written, if the system said why.
    pub fn fault(&self) -> Option<CommandFault<'a>> {
        match self.reason {
            Some(reason) => Some(device_fault(self.path, reason)),
            None => None,
        }
    }

    /// Writes a file that isn't there yet.
    fn write_new(&mut self, path: String, bytes: &[u8]) -> io::Result<()> {
        self.begun.reserve(1)?;
        let mut file = File::create_new(self.rt, path.as_str())?;
        self.begun.push(path)?;
        file.write_all(bytes)
    }
}

/// Sees that a folder is empty.
fn see_empty<'a>(rt: &HostRuntime, path: &'a str) -> Result<(), ProgramFault<'a>> {
    match fs::read_dir(rt, path) {
        Ok(mut names) => Ok(empty_by(names.next())?),
        Err(reason) => Err(ProgramFault::Command(device_fault(path, reason))),
    }
}

/// Whether a folder is empty, by the first of its names.
fn empty_by<T: Drop>(first: Option<io::Result<T>>) -> Result<(), ViewFault>
    ensures empty { OnOk result (first ≡ None) }
{
    match first {
        None => Ok(()),
        Some(Ok(_)) => Err(ViewFault::NotEmpty),
        Some(Err(fault)) => Err(read_fault(&fault)),
    }
}

impl<'a> TraceFiles for OutputFolder<'a> {
    ghost files = { λ _. None };

    fn put(&mut self, alloc: Global, name: &str, bytes: &[u8]) -> Result<(), ViewFault> {
        let folder = self.path;
        let path = format!(in alloc; "{folder}/{name}")?;
        match self.write_new(path, bytes) {
            Ok(()) => Ok(()),
            Err(reason) => {
                self.reason = Some(reason);
                Err(write_fault(&reason))
            }
        }
    }

    fn clear(&mut self) {
        for path in &self.begun {
            let _ = fs::remove_file(self.rt, path.as_str());
        }
        if self.made {
            let _ = fs::remove_dir(self.rt, self.path);
        }
    }
}

/// Writes the file of a CPU, where it has one.
fn put_file<F: TraceFiles>(
    alloc: Global,
    folder: &mut F,
    cpu: usize,
    bytes: &[u8],
) -> Result<(), ViewFault>
    ensures put { OnOk result (AddsFiles (F.files folder.old) (F.files folder.new) (written_files cpu bytes.now)) }
    ensures fault { IfErr result IsWritingFault }
{
    if bytes.is_empty() {
        return Ok(());
    }
    let name = format!(in alloc; "cpu_{cpu}")?;
    folder.put(alloc, name.as_str(), bytes)
}

/// Writes the file of each CPU that has one, upwards, then the metadata.
fn put_trace<F: TraceFiles>(alloc: Global, folder: &mut F, trace: &Trace) -> Result<(), ViewFault>
    ensures written { OnOk result (AddsFiles (F.files folder.old) (F.files folder.new) (trace_files trace.now)) }
    ensures fault { IfErr result IsWritingFault }
{
    for (cpu, file) in trace.files.iter().enumerate() {
        put_file(alloc, folder, cpu, file.as_slice())?;
    }
    folder.put(alloc, "metadata", trace.metadata.as_str().as_bytes())
}

/// Writes a trace, the metadata last, since a folder without it is no trace; after a fault nothing is left of it.
pub fn write_trace<F: TraceFiles>(
    alloc: Global,
    folder: &mut F,
    trace: &Trace,
) -> Result<(), ViewFault>
    ensures written { OnOk result (AddsFiles (F.files folder.old) (F.files folder.new) (trace_files trace.now)) }
    ensures nothing { OnErr result (IsEmpty (F.files folder.new)) }
    ensures fault { IfErr result IsWritingFault }
{
    let Err(fault) = put_trace(alloc, folder, trace) else {
        return Ok(());
    };
    folder.clear();
    Err(fault)
}
