//! Why a trace folder can't be shown.

ghost use Rattle.std.specs.{IoError.error_kind, Prelude.◌≡◌};
ghost use Rattle.dspec_folder_view.specs.Examined.{IsFileRefused, IsMetadataTold, IsTextRefused};

use crate::naming::FileName;
use dspec_ctf_reading::MetadataReadFault;
use std::io;
use thiserror::Error;

/// Why a trace folder can't be shown.
#[derive(Clone, Copy, Debug, Error)]
pub enum TraceFolderFault<'a> {
    /// The system refuses its metadata.
    #[error("{folder}/metadata: {reason}")]
    Text {
        folder: &'a str,
        reason: io::Error,
    },
    /// The system refuses a file of it.
    #[error("{folder}/{file}: {reason}")]
    File {
        folder: &'a str,
        file: FileName,
        reason: io::Error,
    },
    /// What has the name of its metadata is no file, but a pipe or a device, say.
    #[error("{0}/metadata: it is no regular file")]
    NoTextFile(&'a str),
    /// The same of a file of it.
    #[error("{folder}/{file}: it is no regular file")]
    NoFile {
        folder: &'a str,
        file: FileName,
    },
    /// It has no metadata.
    #[error("{0}: no trace, since there is no metadata in it")]
    NoMetadata(&'a str),
    /// Its metadata isn't that of a trace of ours, or is cut.
    #[error("{folder}/metadata: {fault}")]
    Metadata {
        folder: &'a str,
        fault: MetadataReadFault,
    },
    /// What its metadata tells as the uuid is none.
    #[error("{0}/metadata: the uuid isn't one")]
    Uuid(&'a str),
    /// The times of several folders can't be compared.
    #[error("folders of several clocks that don't tell when they began: their events can't be merged, name one folder at a time")]
    Clocks,
    /// No event of the traces has a field of this name.
    #[error("{0}: no event has a field of this name")]
    NoField(&'a str),
    /// No path of this number was kept.
    #[error("{0}: no path of this number was kept")]
    NoPath(u64),
    /// The times of the traces aren't times of day.
    #[error("the traces don't tell when their clocks began: a collector wants times of day")]
    NoDate,
    /// A growth was refused.
    #[error("out of memory")]
    Memory,
}

impl<'a> TraceFolderFault<'a> {
    ghost use Rattle.dspec_folder_view.specs.Examined.{status_of_folder};

    /// The exit status that tells of the fault: 1 for what a folder has, 2 for memory, 3 for what the system refuses.
    pub fn status(&self) -> u8
        ensures { result ≡ status_of_folder self.now }
    {
        match self {
            TraceFolderFault::NoTextFile(_)
            | TraceFolderFault::NoFile { .. }
            | TraceFolderFault::NoMetadata(_)
            | TraceFolderFault::Metadata { .. }
            | TraceFolderFault::Uuid(_)
            | TraceFolderFault::Clocks
            | TraceFolderFault::NoField(_)
            | TraceFolderFault::NoPath(_)
            | TraceFolderFault::NoDate => 1,
            TraceFolderFault::Memory => 2,
            TraceFolderFault::Text { .. } | TraceFolderFault::File { .. } => 3,
        }
    }
}

/// What is told of a folder whose metadata can't be read.
pub(crate) fn metadata_fault<'a>(folder: &'a str, fault: MetadataReadFault) -> TraceFolderFault<'a>
    ensures { IsMetadataTold folder.entry.now fault result }
{
    match fault {
        MetadataReadFault::Memory => TraceFolderFault::Memory,
        MetadataReadFault::Line { .. } | MetadataReadFault::TooLarge { .. } => {
            TraceFolderFault::Metadata { folder, fault }
        }
    }
}

/// What is told of a folder whose metadata the system refuses.
pub(crate) fn text_fault<'a>(folder: &'a str, reason: io::Error) -> TraceFolderFault<'a>
    ensures { IsTextRefused folder.entry.now reason (error_kind reason) result }
{
    match reason.kind() {
        io::ErrorKind::OutOfMemory => TraceFolderFault::Memory,
        _ => TraceFolderFault::Text { folder, reason },
    }
}

/// The same of a file of a CPU.
pub(crate) fn file_fault<'a>(
    folder: &'a str,
    file: FileName,
    reason: io::Error,
) -> TraceFolderFault<'a>
    ensures { IsFileRefused folder.entry.now file reason (error_kind reason) result }
{
    match reason.kind() {
        io::ErrorKind::OutOfMemory => TraceFolderFault::Memory,
        _ => TraceFolderFault::File {
            folder,
            file,
            reason,
        },
    }
}
