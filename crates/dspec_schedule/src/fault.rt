ghost use Rattle.std.specs.Prelude.{◌≡◌};
ghost use Rattle.dspec_schedule.specs.declared.fault.ScheduleFault.TheVariants.{Memory};

use dspec_deeds::StartFault;
use std::alloc::{AllocError, AllocFailed};
use thiserror::Error;

/// What is wrong with a line of a schedule. Those from NoSuchActor to BadRecord are refusals of the play, all others are
/// seen in the text alone.
#[derive(Clone, Copy, Debug, PartialEq, Eq, Error)]
pub enum LineKind {
    /// The line has a byte that isn't printable ASCII.
    #[error("byte outside printable ASCII")]
    NotPrintable,
    /// The first line that says something isn't a `config` line, or there is none.
    #[error("no config line")]
    NoConfig,
    /// A word that isn't one of the grammar's there.
    #[error("unknown word")]
    UnknownWord,
    /// Not a number, or too large for its place.
    #[error("bad number")]
    BadNumber,
    /// Too few words, or too many.
    #[error("wrong number of words")]
    WordCount,
    /// The configuration is out of range.
    #[error("config refused: {}", refused_field(.0))]
    ConfigRefused(StartFault),
    /// The enabling can't be made.
    #[error("bad enabling")]
    BadEnabling,
    /// There is no CPU of that number.
    #[error("no such actor")]
    NoSuchActor,
    /// A call of the actor is in flight.
    #[error("actor busy")]
    Busy,
    /// No call of the actor is in flight.
    #[error("step of an idle actor")]
    IdleStep,
    /// The schema doesn't accept the record.
    #[error("bad record")]
    BadRecord,
    /// Not a header's line in its place.
    #[error("bad header")]
    BadHeader,
    /// Not a policy's line in its place.
    #[error("bad policy")]
    BadPolicy,
}

/// Why a text gives no schedule, or its schedule no play. Lines are counted from 1.
#[derive(Clone, Copy, Debug, PartialEq, Eq, Error)]
pub enum ScheduleFault {
    /// What is wrong with which line.
    #[error("line {line}: {kind}")]
    Line { line: u64, kind: LineKind },
    /// A growth was refused.
    #[error("out of memory")]
    Memory,
}

/// The number of a `config` line that is out of its range.
fn refused_field(fault: &StartFault) -> &'static str {
    match fault {
        StartFault::Cpus => "cpus",
        StartFault::Specs => "nspec",
        StartFault::BufSize => "bufsize",
        StartFault::SpecSize => "specsize",
        StartFault::Issues => "issues",
        StartFault::Calls => "calls",
        StartFault::Memory => "memory",
    }
}

impl From<AllocError> for ScheduleFault {
    ghost from_gives = { λ _ fault. fault ≡ Memory };

    fn from(_refused: AllocError) -> Self {
        ScheduleFault::Memory
    }
}

impl<T: Drop> From<AllocFailed<T>> for ScheduleFault {
    ghost from_gives = { λ _ fault. fault ≡ Memory };

    fn from(_refused: AllocFailed<T>) -> Self {
        ScheduleFault::Memory
    }
}
