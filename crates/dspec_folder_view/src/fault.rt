//! Why trace folders are shown no further.

ghost use Rattle.std.specs.Prelude.{◌≡◌};
ghost use Rattle.dspec_command.specs.declared.fault.CommandFault.TheVariants.{Memory};
ghost use Rattle.dspec_folder_view.specs.declared.fault.FolderViewFault.TheVariants.{Command};

use crate::folder_fault::TraceFolderFault;
use dspec_command::CommandFault;
use std::alloc::{AllocError, AllocFailed};
use thiserror::Error;

/// Why trace folders are shown no further.
#[derive(Clone, Copy, Debug, Error)]
pub enum FolderViewFault<'a> {
    /// The system refuses a folder's path or an output, or a growth was refused.
    #[error("{0}")]
    Command(#[from] CommandFault<'a>),
    /// A folder can't be shown.
    #[error("{0}")]
    Folder(#[from] TraceFolderFault<'a>),
}

impl<'a> From<AllocError> for FolderViewFault<'a> {
    ghost from_gives = { λ _ fault. fault ≡ Command Memory };

    fn from(_refused: AllocError) -> Self {
        FolderViewFault::Command(CommandFault::Memory)
    }
}

impl<'a, T: Drop> From<AllocFailed<T>> for FolderViewFault<'a> {
    ghost from_gives = { λ _ fault. fault ≡ Command Memory };

    fn from(_refused: AllocFailed<T>) -> Self {
        FolderViewFault::Command(CommandFault::Memory)
    }
}
