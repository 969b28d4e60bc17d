//! `specview folder --check` and `--repair`: what is wrong with trace folders, told a line each.

use crate::fault::FolderViewFault;
use crate::folder_fault::file_fault;
use crate::judging::{Mend, mend_of, place_of, wrong_with};
use crate::naming::FileName;
use crate::opening::{OpenedTrace, path_of};
use crate::progress::ReadingProgress;
use dspec_command::{CommandFault, output_fault};
use dspec_ctf_reading::Metadata;
use dspec_ctf_reading::folder::Whose;
use std::fs::OpenOptions;
use std::io;

/// How many files of a folder there are, how many of them were mended, and what is wrong.
#[derive(Debug, Clone, Copy, Default)]
pub(crate) struct FolderTally {
    /// All of them.
    pub files: u64,
    /// Those whose end was cut off.
    pub mended: u64,
    /// What is wrong, and was left as it is.
    pub wrong: u64,
}

/// A folder that is examined.
#[derive(Drop)]
struct Examined<'o, 'a> {
    opened: &'o OpenedTrace<'a>,
    metadata: Metadata<'o>,
    uuid: [u8; 16],
    /// Whether files are mended.
    mends: bool,
}

/// Cuts the bytes of a file off from this one on. Of a file that has another length by now, nothing.
fn cut_off(rt: &HostRuntime, path: &str, was: u64, at: u64) -> io::Result<bool> {
    let file = OpenOptions::new().write(true).open(rt, path)?;
    if file.metadata()?.len() != was {
        return Ok(false);
    }
    file.set_len(at)?;
    Ok(true)
}

/// Cuts off what comes after the last whole packet of a file, and tells it.
fn mend<'a>(
    rt: &HostRuntime,
    folder: &'a str,
    file: FileName,
    was: usize,
    at: usize,
    tally: &mut FolderTally,
) -> Result<(), FolderViewFault<'a>> {
    let path = path_of(rt.alloc(), folder, file)?;
    match cut_off(rt, path.as_str(), was as u64, at as u64) {
        Ok(true) => {
            tally.mended = tally.mended.saturating_add(1);
            let gone = was.saturating_sub(at);
            tell(println!(rt;
                "{path}: {gone} bytes from byte {at} on cut off, after the last whole packet"
            ))?;
        }
        Ok(false) => {
            tally.wrong = tally.wrong.saturating_add(1);
            tell(println!(rt; "{path}: changed while it was read, left as it is"))?;
        }
        Err(reason) => return Err(FolderViewFault::Folder(file_fault(folder, file, reason))),
    }
    Ok(())
}

/// What a line that was printed, or wasn't, says.
fn tell<'a>(printed: io::Result<()>) -> Result<(), CommandFault<'a>> {
    match printed {
        Ok(()) => Ok(()),
        Err(reason) => Err(output_fault(reason)),
    }
}

impl<'o, 'a> Examined<'o, 'a> {
    /// Examines a file, and tells what is wrong with it.
    fn examine(
        &self,
        rt: &HostRuntime,
        file: FileName,
        tally: &mut FolderTally,
        progress: &mut ReadingProgress,
    ) -> Result<(), FolderViewFault<'a>> {
        let folder = self.opened.path;
        progress.next(rt);
        let bytes = self.opened.bytes(rt, file)?;
        let whose = Whose {
            uuid: self.uuid,
            cpu: file.cpu,
        };
        tally.files = tally.files.saturating_add(1);
        let fault = if self.mends {
            let mend_due = mend_of(rt.alloc(), &self.metadata, &whose, bytes.as_slice())?;
            progress.clear(rt);
            match mend_due {
                Mend::Nothing => return Ok(()),
                Mend::CutAt(at) => return mend(rt, folder, file, bytes.len(), at, tally),
                Mend::Leave(fault) => fault,
            }
        } else {
            match wrong_with(rt.alloc(), &self.metadata, &whose, bytes.as_slice())? {
                None => return Ok(()),
                Some(fault) => fault,
            }
        };
        progress.clear(rt);
        tally.wrong = tally.wrong.saturating_add(1);
        Ok(tell(println!(rt; "{folder}/{file}: {fault}"))?)
    }

    /// Tells of what is none of a trace's files.
    fn tell_others(
        &self,
        rt: &HostRuntime,
        tally: &mut FolderTally,
    ) -> Result<(), FolderViewFault<'a>> {
        let folder = self.opened.path;
        for name in &self.opened.others {
            tally.wrong = tally.wrong.saturating_add(1);
            tell(println!(rt; "{folder}/{name}: no file of a trace"))?;
        }
        Ok(())
    }

    /// Examines its files.
    fn examine_files(
        &self,
        rt: &HostRuntime,
        tally: &mut FolderTally,
        progress: &mut ReadingProgress,
    ) -> Result<(), FolderViewFault<'a>> {
        for file in &self.opened.files {
            self.examine(rt, *file, tally, progress)?;
        }
        Ok(())
    }

    /// Examines all that it has.
    fn examine_all(&self, rt: &HostRuntime) -> Result<FolderTally, FolderViewFault<'a>> {
        let mut tally = FolderTally::default();
        self.tell_others(rt, &mut tally)?;
        let mut progress = ReadingProgress::new(rt, self.opened.files.len());
        let examined = self.examine_files(rt, &mut tally, &mut progress);
        progress.clear(rt);
        examined?;
        Ok(tally)
    }
}

/// The folders that were examined already.
#[derive(Drop)]
struct Known<'a> {
    paths: Vec<&'a str>,
    uuids: Vec<[u8; 16]>,
}

impl<'a> Known<'a> {
    /// Adds a folder's trace. Where one of these has its uuid, that is told.
    fn add(
        &mut self,
        rt: &HostRuntime,
        path: &'a str,
        uuid: [u8; 16],
        tally: &mut FolderTally,
    ) -> Result<(), FolderViewFault<'a>> {
        if let Some(place) = place_of(self.uuids.as_slice(), &uuid) {
            let other = self.paths.get(place).copied().unwrap_or(path);
            tally.wrong = tally.wrong.saturating_add(1);
            tell(println!(rt; "{path}: the same uuid as {other}"))?;
        }
        self.paths.push(path)?;
        self.uuids.push(uuid)?;
        Ok(())
    }
}

/// Tells how many files a folder has, and what became of them.
fn tell_tally<'a>(
    rt: &HostRuntime,
    path: &str,
    tally: &FolderTally,
) -> Result<(), CommandFault<'a>> {
    let FolderTally {
        files,
        mended,
        wrong,
    } = *tally;
    let word = if files == 1 { "file" } else { "files" };
    tell(print!(rt; "{path}: {files} {word}"))?;
    if mended > 0 {
        tell(print!(rt; ", {mended} mended"))?;
    }
    if wrong == 0 {
        return tell(println!(rt; ", sound"));
    }
    tell(println!(rt; ", {wrong} wrong"))
}

/// Examines a folder that was opened.
fn examine_opened<'a>(
    rt: &HostRuntime,
    opened: &OpenedTrace<'a>,
    mends: bool,
    known: &mut Known<'a>,
) -> Result<FolderTally, FolderViewFault<'a>> {
    let metadata = opened.metadata(rt.alloc())?;
    let uuid = opened.uuid(&metadata)?;
    let examined = Examined {
        opened,
        metadata,
        uuid,
        mends,
    };
    let mut tally = examined.examine_all(rt)?;
    known.add(rt, opened.path, uuid, &mut tally)?;
    Ok(tally)
}

/// Examines the folder of this path.
fn examine_folder<'a>(
    rt: &HostRuntime,
    path: &'a str,
    mends: bool,
    known: &mut Known<'a>,
) -> Result<FolderTally, FolderViewFault<'a>> {
    let opened = OpenedTrace::of(rt, path)?;
    let tally = examine_opened(rt, &opened, mends, known)?;
    tell_tally(rt, path, &tally)?;
    Ok(tally)
}

/// Examines folders, and says whether nothing is wrong with any. A folder that is no trace is told, and the others are gone on with.
pub fn examine_folders<'a>(
    rt: &HostRuntime,
    paths: &[&'a str],
    mends: bool,
) -> Result<bool, FolderViewFault<'a>> {
    let mut known = Known {
        paths: Vec::new(rt.alloc()),
        uuids: Vec::new(rt.alloc()),
    };
    let mut sound = true;
    for path in paths {
        match examine_folder(rt, path, mends, &mut known) {
            Ok(tally) => sound = sound && tally.wrong == 0,
            Err(FolderViewFault::Folder(fault)) if fault.status() == 1 => {
                sound = false;
                let after = if mends { ": can't be repaired" } else { "" };
                tell(println!(rt; "{fault}{after}"))?;
            }
            Err(fault) => return Err(fault),
        }
    }
    Ok(sound)
}
