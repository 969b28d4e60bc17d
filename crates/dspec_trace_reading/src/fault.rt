use dspec::StartFault;
use dspec_ctf_sink::FolderFault;
use thiserror::Error;

/// Why no session was traced into a folder. No work ran then.
#[derive(Debug, Clone, Copy, PartialEq, Eq, Error)]
pub enum ToFolderFault {
    /// The session can't start.
    #[error("{0}")]
    Start(StartFault),
    /// The folder isn't taken for a trace, or its metadata can't be written.
    #[error("{0}")]
    Folder(FolderFault),
}
