ghost use Rattle.std.specs.Prelude.{◌≡◌};
ghost use Rattle.specplay.specs.{Runs.run_fault_of, declared.fault.RunFault.TheVariants.Memory};

use dspec_replay::InputFault;
pub use dspec_schedule::LineKind;
use dspec_schedule::ScheduleFault;
use std::alloc::AllocError;
use thiserror::Error;

/// What is told of a wrong command line.
pub const USAGE: &str = "usage: specplay [threads]";

/// The exit status after it.
pub const USAGE_STATUS: u8 = 4;

/// Why a run failed. Lines are counted from 1.
#[derive(Clone, Copy, Debug, PartialEq, Eq, Error)]
pub enum RunFault {
    #[error("line {line}: {kind}")]
    Line { line: u64, kind: LineKind },
    #[error("out of memory")]
    Memory,
    #[error("input too long")]
    TooLong,
    #[error("read fault")]
    Read,
    #[error("write fault")]
    Write,
}

impl RunFault {
    ghost use Rattle.specplay.specs.Runs.{status_of};

    /// The exit status that tells of the fault: 1 for the schedule's own, 2 for memory, 3 for input and output.
    pub fn status(&self) -> u8
        ensures { result ≡ status_of self.now }
    {
        match self {
            RunFault::Line { .. } => 1,
            RunFault::Memory => 2,
            RunFault::TooLong | RunFault::Read | RunFault::Write => 3,
        }
    }
}

impl From<AllocError> for RunFault {
    ghost from_gives = { λ _ fault. fault ≡ Memory };

    fn from(_refused: AllocError) -> Self {
        RunFault::Memory
    }
}

impl From<ScheduleFault> for RunFault {
    ghost from_gives = { λ fault told. told ≡ run_fault_of fault };

    fn from(fault: ScheduleFault) -> Self {
        match fault {
            ScheduleFault::Line { line, kind } => RunFault::Line { line, kind },
            ScheduleFault::Memory => RunFault::Memory,
        }
    }
}

impl From<InputFault> for RunFault {
    ghost use Rattle.specplay.specs.Runs.{run_fault_of_input};

    ghost from_gives = { λ fault told. told ≡ run_fault_of_input fault };

    fn from(fault: InputFault) -> Self {
        match fault {
            InputFault::TooLong => RunFault::TooLong,
            InputFault::Read => RunFault::Read,
            InputFault::Memory => RunFault::Memory,
        }
    }
}
