//! A trace folder of the system: its metadata's text, and its files.

use crate::fault::FolderViewFault;
use crate::folder_fault::{TraceFolderFault, file_fault, metadata_fault, text_fault};
use crate::naming::{FileName, file_of_name};
use dspec_command::{CommandFault, device_fault};
use dspec_ctf_reading::{Metadata, read_metadata};
use std::alloc::{AllocError, Global};
use std::{fs, io};
use uuid::Uuid;

/// A trace folder.
#[derive(Debug, Drop)]
pub struct OpenedTrace<'a> {
    /// Its path.
    pub path: &'a str,
    /// The text of its metadata.
    pub text: Vec<u8>,
    /// Its files of CPUs, upwards.
    pub files: Vec<FileName>,
    /// The names of what else is in it, but for those that begin with a dot.
    pub others: Vec<String>,
}

/// The names in a folder, in their order.
fn names_in(rt: &HostRuntime, path: &str) -> io::Result<Vec<String>> {
    let mut names = Vec::new(rt.alloc());
    for entry in fs::read_dir(rt, path)? {
        let entry = entry?;
        names.push(String::from_str(rt.alloc(), entry.file_name())?)?;
    }
    names.sort()?;
    Ok(names)
}

/// The names that are of CPUs' files, and those that are neither of these nor of the metadata, nor hidden.
fn sorted_out(
    alloc: Global,
    names: Vec<String>,
) -> Result<(Vec<FileName>, Vec<String>), AllocError> {
    let mut files = Vec::new(alloc);
    let mut others = Vec::new(alloc);
    for name in names {
        if let Some(file) = file_of_name(alloc, name.as_str())? {
            files.push(file)?;
        } else if name.as_str() != "metadata" && !name.as_str().starts_with('.') {
            others.push(name)?;
        }
    }
    files.sort()?;
    Ok((files, others))
}

/// The path of a file of a folder.
pub(crate) fn path_of(alloc: Global, folder: &str, file: FileName) -> Result<String, AllocError> {
    format!(in alloc; "{folder}/{file}")
}

/// The bytes of a regular file; of anything else none, since a pipe has no end, and a device may have none either.
fn read_regular(rt: &HostRuntime, path: &str) -> io::Result<Option<Vec<u8>>> {
    if fs::metadata(rt, path)?.is_file() {
        Ok(Some(fs::read(rt, path)?))
    } else {
        Ok(None)
    }
}

/// The bytes of a folder's metadata.
fn text_of<'a>(rt: &HostRuntime, folder: &'a str) -> Result<Vec<u8>, TraceFolderFault<'a>> {
    let Ok(path) = format!(in rt.alloc(); "{folder}/metadata") else {
        return Err(TraceFolderFault::Memory);
    };
    match read_regular(rt, path.as_str()) {
        Ok(Some(text)) => Ok(text),
        Ok(None) => Err(TraceFolderFault::NoTextFile(folder)),
        Err(reason) if reason.kind() == io::ErrorKind::NotFound => {
            Err(TraceFolderFault::NoMetadata(folder))
        }
        Err(reason) => Err(text_fault(folder, reason)),
    }
}

impl<'a> OpenedTrace<'a> {
    /// Opens the folder of this path.
    pub fn of(rt: &HostRuntime, path: &'a str) -> Result<OpenedTrace<'a>, FolderViewFault<'a>> {
        let names = match names_in(rt, path) {
            Ok(names) => names,
            Err(reason) => return Err(FolderViewFault::Command(device_fault(path, reason))),
        };
        let text = text_of(rt, path)?;
        let (files, others) = sorted_out(rt.alloc(), names)?;
        Ok(OpenedTrace {
            path,
            text,
            files,
            others,
        })
    }

    /// What its metadata tells.
    pub fn metadata(&self, alloc: Global) -> Result<Metadata<'_>, TraceFolderFault<'a>> {
        match read_metadata(alloc, self.text.as_slice()) {
            Ok(metadata) => Ok(metadata),
            Err(fault) => Err(metadata_fault(self.path, fault)),
        }
    }

    /// The bytes of its trace's uuid.
    pub fn uuid(&self, metadata: &Metadata<'_>) -> Result<[u8; 16], TraceFolderFault<'a>> {
        match Uuid::parse_str(metadata.uuid) {
            Ok(uuid) => Ok(uuid.into_bytes()),
            Err(_) => Err(TraceFolderFault::Uuid(self.path)),
        }
    }

    /// The bytes of a file of it.
    pub fn bytes(&self, rt: &HostRuntime, file: FileName) -> Result<Vec<u8>, TraceFolderFault<'a>> {
        let Ok(path) = path_of(rt.alloc(), self.path, file) else {
            return Err(TraceFolderFault::Memory);
        };
        match read_regular(rt, path.as_str()) {
            Ok(Some(bytes)) => Ok(bytes),
            Ok(None) => Err(TraceFolderFault::NoFile {
                folder: self.path,
                file,
            }),
            Err(reason) => Err(file_fault(self.path, file, reason)),
        }
    }
}
