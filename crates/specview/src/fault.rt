ghost use Rattle.std.specs.Prelude.{◌≡◌};
ghost use Rattle.specview.specs.{Faults.IsReadFault, Faults.IsWritingFault, declared.fault.ViewFault.TheVariants.Memory};

use dspec_replay::InputFault;
use dspec_schedule::{LineKind, ScheduleFault};
use std::alloc::{AllocError, AllocFailed};
use std::io;
use thiserror::Error;

/// Why nothing, or no more, was written. Lines are counted from 1.
#[derive(Clone, Copy, Debug, PartialEq, Eq, Error)]
pub enum ViewFault {
    #[error("line {line}: {kind}")]
    Line { line: u64, kind: LineKind },
    #[error("by time, but the schedule has no stamps: it wants `header 2`")]
    NoStamp,
    #[error("a stamp of 9223372036 seconds or more by the clock, which no reader takes")]
    LateStamp,
    #[error("no event for EPID {0}: the schedule enables none")]
    NoEvent(u32),
    #[error("out of memory")]
    Memory,
    #[error("read fault")]
    Read,
    #[error("write fault")]
    Write,
    #[error("input too long")]
    TooLong,
    #[error("the folder has files in it")]
    NotEmpty,
    #[error("a clock of frequency 0")]
    NoFrequency,
    #[error("a clock of frequency 18446744073709551615, which no reader takes")]
    GreatestFrequency,
    #[error("more than 2000 deeds, which no picture shows")]
    TooManyDeeds,
    /// The line is a part of a call: a session makes whole ones.
    #[error("line {line}: no whole call")]
    NoWholeCall { line: u64 },
    /// A buffer of this CPU can't be read back.
    #[error("cpu {cpu}: a buffer that is no text")]
    NoText { cpu: u32 },
}

impl ViewFault {
    ghost use Rattle.specview.specs.Faults.{status_of_view};

    /// The exit status that tells of the fault: 1 for what the schedule says, 2 for memory, 3 for input and output, 4 for arguments, 5 for
    /// a line that is no whole call, and 6 for a buffer of the session that can't be read back.
    pub fn status(&self) -> u8
        ensures { result ≡ status_of_view self.now }
    {
        match self {
            ViewFault::Line { .. }
            | ViewFault::NoStamp
            | ViewFault::LateStamp
            | ViewFault::NoEvent(_)
            | ViewFault::TooManyDeeds => 1,
            ViewFault::Memory => 2,
            ViewFault::Read | ViewFault::Write | ViewFault::TooLong | ViewFault::NotEmpty => 3,
            ViewFault::NoFrequency | ViewFault::GreatestFrequency => 4,
            ViewFault::NoWholeCall { .. } => 5,
            ViewFault::NoText { .. } => 6,
        }
    }
}

impl From<AllocError> for ViewFault {
    ghost from_gives = { λ _ fault. fault ≡ Memory };

    fn from(_refused: AllocError) -> Self {
        ViewFault::Memory
    }
}

impl<T: Drop> From<AllocFailed<T>> for ViewFault {
    ghost from_gives = { λ _ fault. fault ≡ Memory };

    fn from(_refused: AllocFailed<T>) -> Self {
        ViewFault::Memory
    }
}

impl From<ScheduleFault> for ViewFault {
    ghost use Rattle.specview.specs.Faults.{view_of_schedule};

    ghost from_gives = { λ fault told. told ≡ view_of_schedule fault };

    fn from(fault: ScheduleFault) -> Self {
        match fault {
            ScheduleFault::Line { line, kind } => ViewFault::Line { line, kind },
            ScheduleFault::Memory => ViewFault::Memory,
        }
    }
}

impl From<InputFault> for ViewFault {
    ghost use Rattle.specview.specs.Faults.{view_of_input};

    ghost from_gives = { λ fault told. told ≡ view_of_input fault };

    fn from(fault: InputFault) -> Self {
        match fault {
            InputFault::TooLong => ViewFault::TooLong,
            InputFault::Read => ViewFault::Read,
            InputFault::Memory => ViewFault::Memory,
        }
    }
}

/// A device's fault where something is read.
pub fn read_fault(fault: &io::Error) -> ViewFault
    ensures { IsReadFault result }
{
    match fault.kind() {
        io::ErrorKind::OutOfMemory => ViewFault::Memory,
        _ => ViewFault::Read,
    }
}

/// The same where something is written.
pub fn write_fault(fault: &io::Error) -> ViewFault
    ensures { IsWritingFault result }
{
    match fault.kind() {
        io::ErrorKind::OutOfMemory => ViewFault::Memory,
        _ => ViewFault::Write,
    }
}
