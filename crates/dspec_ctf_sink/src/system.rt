ghost use Rattle.std.specs.Prelude.{◌≡◌, ◌≢◌, ◌<◌, ◌++◌, ◌∷◌, length, vec_len, [], All, List, Some, IfOk, IfErr, IfSome, None, OnOk, string_bytes};
ghost use Rattle.dspec_ctf_sink.specs.{Faults.IsFolderFault, Faults.IsWriteFault, Held.FilesHave, Held.HaveBesides, Held.IsFileAt, Held.path_in, Writes.FileWrite, Writes.made_at};

use crate::counted::CountedFile;
use crate::fault::{FolderFault, look_fault, write_fault};
use crate::file_log::{FileLog, LogEntry};
use crate::folder::Folder;
use crate::held::{Cuttable, HeldFile};
use std::alloc::{AllocError, Global};
use std::fs::File;
use std::os::fd::{AsRawFd, RawFd};
use std::{fs, io};

/// A folder of the system, and the files that were made in it, all held open: none is opened again by a path, so that what others put
/// into the folder or in its place is never written to. It needs `/proc`.
#[derive(Drop)]
pub struct SystemFolder<'a> {
    pub(crate) host: &'a HostRuntime,
    pub(crate) folder: File,
    made: FileLog,
    files: Vec<HeldFile<CountedFile>>,
    asked: FileLog,
    ghost tied: { ∥ FilesHave files.items asked.writes ∥₁ },
}

impl<'a> SystemFolder<'a> {
    /// Makes the folder of that path. One that is there has to be empty.
    pub fn new(rt: &'a HostRuntime, path: &str) -> Result<SystemFolder<'a>, FolderFault>
        ensures made { IfOk result (λ folder. ⟦<SystemFolder<'a> as Folder>⟧.written folder ≡ Some (made_at path.now ∷ [])) }
        ensures fault { IfErr result IsFolderFault }
    {
        match fs::create_dir(rt, path) {
            Err(fault) if fault.kind() != io::ErrorKind::AlreadyExists => {
                return Err(write_fault(&fault));
            }
            _ => {}
        }
        let (folder, made) = open_made(rt, path)?;
        see_no_file(rt, &folder)?;
        Ok(SystemFolder {
            host: rt,
            folder,
            made,
            files: Vec::new(rt.alloc()),
            asked: FileLog::none(),
        })
    }
}

/// Opens a folder, to hold it. Of anything else, as a pipe, that is a fault, since after a slash only a folder is opened.
pub(crate) fn open_folder(rt: &HostRuntime, path: &str) -> Result<File, FolderFault>
    ensures { IfErr result IsFolderFault }
{
    let path = format!(in rt.alloc(); "{path}/")?;
    match File::open(rt, path.as_str()) {
        Ok(folder) => Ok(folder),
        Err(fault) => Err(look_fault(&fault)),
    }
}

/// The same, and that this is the path at which it was made.
fn open_made(rt: &HostRuntime, path: &str) -> Result<(File, FileLog), FolderFault>
    ensures made { IfOk result (λ opened. opened.1.writes ≡ made_at path.now ∷ []) }
    ensures fault { IfErr result IsFolderFault }
{
    let folder = open_folder(rt, path)?;
    let made = FileLog::none().then(&LogEntry::Asked("", path.as_bytes(), None));
    Ok((folder, made))
}

/// The path of a file in the folder that is open under this number, wherever that folder is by now.
pub(crate) fn path_in(alloc: Global, number: RawFd, name: &str) -> Result<String, AllocError>
    ensures { IfOk result (λ path. string_bytes path ≡ path_in number name.now) }
{
    format!(in alloc; "/proc/self/fd/{number}/{name}")
}

/// Sees that a folder has no file.
fn see_no_file(rt: &HostRuntime, folder: &File) -> Result<(), FolderFault>
    ensures { IfErr result IsFolderFault }
{
    let path = path_in(rt.alloc(), folder.as_raw_fd(), "")?;
    let mut names = match fs::read_dir(rt, path.as_str()) {
        Ok(names) => names,
        Err(fault) => return Err(look_fault(&fault)),
    };
    no_file_by(names.next())
}

/// The same, by the first of its names.
fn no_file_by<T: Drop>(first: Option<io::Result<T>>) -> Result<(), FolderFault>
    ensures empty { OnOk result (first ≡ None) }
    ensures fault { IfErr result IsFolderFault }
{
    match first {
        Some(Ok(_)) => Err(FolderFault::NotEmpty),
        Some(Err(fault)) => Err(look_fault(&fault)),
        None => Ok(()),
    }
}

/// Where the file of that name stands among these.
fn place_of<W: Cuttable>(files: &[HeldFile<W>], name: &str) -> Option<usize>
    ensures there { IfSome result (IsFileAt files.now name.now) }
    ensures within { IfSome result (λ place. place < length files.now) }
    ensures none { result ≡ None → All (λ file. file.name ≢ name.now) files.now }
{
    files.iter().position(|file| file.is_named(name))
}

/// Makes the file of that name, which isn't there, and tells its place.
fn make_place(
    files: &mut Vec<HeldFile<CountedFile>>,
    rt: &HostRuntime,
    folder: &File,
    alloc: Global,
    name: &str,
) -> Result<usize, FolderFault>
    requires { All (λ file. file.name ≢ name.now) files.now.items }
    ensures there { IfOk result (IsFileAt files.new.items name.now) }
    ensures within { IfOk result (λ place. place < vec_len files.new) }
    ensures kept { (writes : List FileWrite) → FilesHave files.old.items writes → FilesHave files.new.items writes }
    ensures fault { IfErr result IsWriteFault }
{
    let number = folder.as_raw_fd();
    let path = path_in(alloc, number, name)?;
    let name = String::from_str(alloc, name)?;
    files.reserve(1)?;
    let file = CountedFile::make(rt, path)?;
    files.push(HeldFile::new(number, name, file))?;
    Ok(files.len() - 1)
}

/// The place of the file of that name, which is made where there is none.
fn place_for(
    files: &mut Vec<HeldFile<CountedFile>>,
    rt: &HostRuntime,
    folder: &File,
    alloc: Global,
    name: &str,
) -> Result<usize, FolderFault>
    ensures there { IfOk result (IsFileAt files.new.items name.now) }
    ensures within { IfOk result (λ place. place < vec_len files.new) }
    ensures kept { (writes : List FileWrite) → FilesHave files.old.items writes → FilesHave files.new.items writes }
    ensures fault { IfErr result IsWriteFault }
{
    match place_of(files, name) {
        Some(place) => Ok(place),
        None => make_place(files, rt, folder, alloc, name),
    }
}

/// Writes bytes to the file of that name, whole or not at all.
fn add_to(
    files: &mut Vec<HeldFile<CountedFile>>,
    rt: &HostRuntime,
    folder: &File,
    alloc: Global,
    name: &str,
    bytes: &[u8],
) -> Result<(), FolderFault>
    ensures taken { OnOk result (HaveBesides files.old.items (record { name = name.now; bytes = bytes.now; refused = None }) files.new.items) }
    ensures refused { IfErr result (λ fault. HaveBesides files.old.items (record { name = name.now; bytes = bytes.now; refused = Some fault }) files.new.items) }
    ensures fault { IfErr result IsWriteFault }
{
    let place = match place_for(files, rt, folder, alloc, name) {
        Ok(place) => place,
        Err(fault) => return Err(fault),
    };
    files[place].add(bytes)
}

impl<'a> Folder for SystemFolder<'a> {
    ghost written = { λ i. Some (i.made.writes ++ i.asked.writes) };

    fn add(&mut self, alloc: Global, name: &str, bytes: &[u8]) -> Result<(), FolderFault> {
        let answer = add_to(&mut self.files, self.host, &self.folder, alloc, name, bytes);
        let refused = answer.err();
        self.asked = self.asked.then(&LogEntry::Asked(name, bytes, refused));
        answer
    }
}
