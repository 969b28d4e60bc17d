ghost use Rattle.std.specs.{IoError.error_kind, Prelude.◌≡◌, Prelude.IfErr, Prelude.codes};
ghost use Rattle.dspec_command.specs.{Faults.IsDeviceFault, Faults.EndsProgram, Faults.IsOfDevice, Faults.words_fault, declared.fault.CommandFault.TheVariants.Memory};

use std::alloc::{AllocError, AllocFailed};
use std::fmt::Display;
use std::io;
use std::process::ExitCode;
use thiserror::Error;

/// Why a program doesn't do what it was called for.
#[derive(Clone, Copy, Debug, Error)]
pub enum CommandFault<'a> {
    /// The words ask for nothing that the program does. How it is called is told.
    #[error("usage: {0}")]
    Usage(&'a str),
    /// A word isn't UTF-8.
    #[error("a word that isn't UTF-8")]
    NotText,
    /// A growth was refused.
    #[error("out of memory")]
    Memory,
    /// The system refuses a file, a folder or a stream of that name.
    #[error("{name}: {reason}")]
    Device { name: &'a str, reason: io::Error },
}

impl<'a> CommandFault<'a> {
    ghost use Rattle.dspec_command.specs.Faults.{status_of_command};

    /// The exit status that tells of the fault: 2 for memory, 3 for input and output, 4 for words.
    pub fn status(&self) -> u8
        ensures { result ≡ status_of_command self.now }
    {
        match self {
            CommandFault::Memory => 2,
            CommandFault::Device { .. } => 3,
            CommandFault::Usage(_) | CommandFault::NotText => 4,
        }
    }
}

impl<'a> From<AllocError> for CommandFault<'a> {
    ghost from_gives = { λ _ fault. fault ≡ Memory };

    fn from(_refused: AllocError) -> Self {
        CommandFault::Memory
    }
}

impl<'a, T: Drop> From<AllocFailed<T>> for CommandFault<'a> {
    ghost from_gives = { λ _ fault. fault ≡ Memory };

    fn from(_refused: AllocFailed<T>) -> Self {
        CommandFault::Memory
    }
}

/// What is told where the words can't be read: one isn't UTF-8, or a growth was refused.
pub(crate) fn words_fault<'a>(fault: &io::Error) -> CommandFault<'a>
    ensures { result ≡ words_fault (error_kind fault.now) }
{
    match fault.kind() {
        io::ErrorKind::OutOfMemory => CommandFault::Memory,
        _ => CommandFault::NotText,
    }
}

/// What is told of a file, a folder or a stream of that name, which the system refuses: its reason, or want of memory.
pub fn device_fault<'a>(name: &'a str, reason: io::Error) -> CommandFault<'a>
    ensures kind { IsDeviceFault name.entry.now reason (error_kind reason) result }
    ensures device { IsOfDevice name.entry.now result }
{
    match reason.kind() {
        io::ErrorKind::OutOfMemory => CommandFault::Memory,
        _ => CommandFault::Device { name, reason },
    }
}

/// What is told where something can't be printed.
pub fn output_fault<'a>(reason: io::Error) -> CommandFault<'a>
    ensures kind { IsDeviceFault (codes "standard output") reason (error_kind reason) result }
    ensures device { IsOfDevice (codes "standard output") result }
{
    device_fault("standard output", reason)
}

/// Prints a text on standard output. What is printed no clause can say.
pub fn print_text<'a, R: Print>(rt: &R, text: &str) -> Result<(), CommandFault<'a>>
    ensures { IfErr result (IsOfDevice (codes "standard output")) }
{
    match print!(rt; "{text}") {
        Ok(()) => Ok(()),
        Err(reason) => Err(output_fault(reason)),
    }
}

/// A fault by which a program ends.
pub trait ExitFault {
    ghost use Rattle.std.specs.Prelude.{ℕ};

    // Whether a fault is told by this status. Whoever promises nothing of it leaves it out.
    ghost ends: { Self → ℕ → Type 0 } = { λ _ _. Unit {0} };

    /// The exit status that tells of it.
    fn exit_status(&self) -> u8
        ensures { ends self.now result };
}

impl<'a> ExitFault for CommandFault<'a> {
    ghost use Rattle.dspec_command.specs.Faults.{status_of_command};

    ghost ends = { λ fault status. status ≡ status_of_command fault };

    fn exit_status(&self) -> u8 {
        self.status()
    }
}

/// The status by which a program ends: 0 where all is well, 1 where something isn't, and that of a fault, of which one line of standard
/// error tells after the program's name, which no clause can say. A line that can't be written changes nothing.
pub fn ended<R: Eprint, F: ExitFault + Display + Drop>(
    rt: &R,
    program: &str,
    outcome: Result<bool, F>,
) -> ExitCode
    ensures { EndsProgram F.ends outcome result }
{
    match outcome {
        Ok(true) => ExitCode::SUCCESS,
        Ok(false) => ExitCode::FAILURE,
        Err(fault) => {
            let status = fault.exit_status();
            let _ = eprintln!(rt; "{program}: {fault}");
            ExitCode::from(status)
        }
    }
}
