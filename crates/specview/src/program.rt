use crate::fault::ViewFault;
use dspec_command::{CommandFault, ExitFault};
use dspec_folder_view::{FolderViewFault, TraceFolderFault};
use thiserror::Error;

/// Why the program doesn't end with status 0.
#[derive(Clone, Copy, Debug, Error)]
pub enum ProgramFault<'a> {
    #[error("{0}")]
    View(#[from] ViewFault),
    #[error("{0}")]
    Command(#[from] CommandFault<'a>),
    #[error("{0}")]
    Folder(#[from] TraceFolderFault<'a>),
    /// The picture would take the place of its own schedule.
    #[error("{0}: the schedule's own file")]
    OwnSchedule(&'a str),
}

impl<'a> ExitFault for ProgramFault<'a> {
    /// The exit status that tells of the fault.
    fn exit_status(&self) -> u8 {
        match self {
            ProgramFault::View(fault) => fault.status(),
            ProgramFault::Command(fault) => fault.status(),
            ProgramFault::Folder(fault) => fault.status(),
            ProgramFault::OwnSchedule(_) => 4,
        }
    }
}

impl<'a> From<FolderViewFault<'a>> for ProgramFault<'a> {
    fn from(fault: FolderViewFault<'a>) -> Self {
        match fault {
            FolderViewFault::Command(fault) => ProgramFault::Command(fault),
            FolderViewFault::Folder(fault) => ProgramFault::Folder(fault),
        }
    }
}
