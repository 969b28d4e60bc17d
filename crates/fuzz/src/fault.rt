use dspec_command::{CommandFault, ExitFault, output_fault};
use dspec_deeds::StartFault;
use dspec_record::SchemaFault;
use std::alloc::AllocError;
use std::io;
use thiserror::Error;

/// Why the program doesn't go on.
#[derive(Clone, Copy, Debug, Error)]
pub enum ThreadFuzzFault<'a> {
    #[error("{0}")]
    Command(#[from] CommandFault<'a>),
    #[error("{0}")]
    Start(#[from] StartFault),
    #[error("{0}")]
    Schema(#[from] SchemaFault),
    #[error("out of memory")]
    Memory(#[from(alloc)] AllocError),
}

impl<'a> ExitFault for ThreadFuzzFault<'a> {
    /// The exit status that tells of the fault: 2 for memory, 3 for input and output, 4 for words.
    fn exit_status(&self) -> u8 {
        match self {
            ThreadFuzzFault::Command(fault) => fault.status(),
            ThreadFuzzFault::Memory(_) | ThreadFuzzFault::Start(StartFault::Memory) => 2,
            ThreadFuzzFault::Start(_) | ThreadFuzzFault::Schema(_) => 1,
        }
    }
}

/// Something can't be printed.
impl<'a> From<io::Error> for ThreadFuzzFault<'a> {
    fn from(reason: io::Error) -> Self {
        ThreadFuzzFault::Command(output_fault(reason))
    }
}
