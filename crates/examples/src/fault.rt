use dspec::{Closed, ProbeFault, RecordSinkFault, StartFault};
use dspec_command::{CommandFault, ExitFault};
use dspec_ctf_sink::{FolderFault, Loss};
use dspec_trace_reading::{FolderTrace, ToFolderFault};
use std::alloc::AllocError;
use thiserror::Error;

/// Why `watch` or `store` doesn't end with status 0.
#[derive(Debug, Drop, Error)]
pub enum ExampleFault<'a> {
    #[error("{0}")]
    Command(#[from] CommandFault<'a>),
    #[error("{name}: {fault}")]
    Folder { name: &'a str, fault: FolderFault },
    #[error("{name}: {loss}")]
    Lost { name: &'a str, loss: Loss },
    #[error("out of memory")]
    Memory(#[from(alloc)] AllocError),
    #[error("{0}")]
    Records(#[from] RecordSinkFault),
    #[error("{0}")]
    Start(#[from] StartFault),
    #[error("{0}")]
    Probe(#[from] ProbeFault),
    /// What was recorded isn't what was made.
    #[error("{0}")]
    Differs(#[from] anyhow::Error),
}

impl<'a> ExitFault for ExampleFault<'a> {
    /// The exit status that tells of the fault: 1 where what was recorded differs, 2 for memory, 3 for input and output, 4 for words.
    fn exit_status(&self) -> u8 {
        match self {
            ExampleFault::Command(fault) => fault.status(),
            ExampleFault::Folder { fault, .. } => { if fault.is_memory() { 2 } else { 3 } }
            ExampleFault::Lost { loss, .. } => { if loss.fault.is_memory() { 2 } else { 3 } }
            ExampleFault::Memory(_)
            | ExampleFault::Probe(ProbeFault::Memory)
            | ExampleFault::Start(StartFault::Memory)
            | ExampleFault::Records(RecordSinkFault::Memory) => 2,
            _ => 1,
        }
    }
}

/// What is left of a session that was traced into the folder of that path.
pub fn in_folder<'a>(
    name: &'a str,
    traced: Result<FolderTrace<'_>, ToFolderFault>,
) -> Result<Closed, ExampleFault<'a>> {
    let FolderTrace { closed, lost, .. } = match traced {
        Ok(traced) => traced,
        Err(ToFolderFault::Start(fault)) => return Err(ExampleFault::Start(fault)),
        Err(ToFolderFault::Folder(fault)) => return Err(ExampleFault::Folder { name, fault }),
    };
    match lost {
        None => Ok(closed),
        Some(loss) => Err(ExampleFault::Lost { name, loss }),
    }
}
