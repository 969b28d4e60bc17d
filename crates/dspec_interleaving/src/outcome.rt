ghost use Rattle.std.specs.Prelude.{◌≡◌};
ghost use Rattle.dspec_interleaving.specs.declared.outcome.PlayFault.TheVariants as play_fault;

use crate::series::Series;
use dspec_deeds::{Actor, Answer, Deed, Op, Report, StartFault};
use dspec_record::Rec;
use std::alloc::AllocError;
use std::error::Error;
use std::fmt;

/// What a closed session leaves: the deeds in order of time, and for each CPU its accepted records and its report.
#[derive(Debug, Drop)]
pub struct Close {
    /// What was done, the closing settlements among them.
    pub deeds: Series<Deed>,
    /// For each CPU the records that its principal buffers accepted, in order.
    pub accepted: Series<Series<Rec>>,
    /// The counts of each CPU.
    pub reports: Series<Report>,
}

/// What a play leaves: its close, and each ended call with its answer, in order of ending.
#[derive(Debug, Drop)]
pub struct Outcome {
    /// What the session left when it was closed.
    pub close: Close,
    /// Who called what, and what was answered.
    pub answers: Series<(Actor, Op, Answer)>,
}

/// Why a play is refused. Turns are counted from 0.
#[derive(Clone, Copy, Debug, PartialEq, Eq)]
pub enum PlayFault {
    /// The configuration can't be set up; never for want of memory.
    Setup(StartFault),
    /// The turn names a CPU that there isn't.
    NoSuchActor(usize),
    /// The turn begins a call of an actor whose call is in flight.
    Busy(usize),
    /// The turn is a step of an actor without a call in flight.
    IdleStep(usize),
    /// The schema doesn't accept the turn's record.
    BadRecord(usize),
    /// A growth was refused.
    Memory,
}

impl Error for PlayFault {}

/// As a schedule's fault is told, after the turn's number where it has one.
impl fmt::Display for PlayFault {
    fn fmt<W: fmt::Write>(&self, f: &mut fmt::Formatter<W>) -> fmt::Result {
        match self {
            PlayFault::Setup(fault) => write!(f, "{fault}"),
            PlayFault::NoSuchActor(turn) => write!(f, "turn {turn}: no such actor"),
            PlayFault::Busy(turn) => write!(f, "turn {turn}: actor busy"),
            PlayFault::IdleStep(turn) => write!(f, "turn {turn}: step of an idle actor"),
            PlayFault::BadRecord(turn) => write!(f, "turn {turn}: bad record"),
            PlayFault::Memory => write!(f, "out of memory"),
        }
    }
}

impl From<AllocError> for PlayFault {
    ghost from_gives = { λ _ fault. fault ≡ play_fault.Memory };

    fn from(_: AllocError) -> Self {
        PlayFault::Memory
    }
}
