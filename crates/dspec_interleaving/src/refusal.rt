use dspec_deeds::Answer;
use std::error::Error;
use std::fmt;

/// Why a call can't begin, in the order in which it is looked at. BadRecord: the schema doesn't accept its record.
#[derive(Clone, Copy, Debug, PartialEq, Eq)]
pub enum BeginFault {
    /// The session has no CPU of that number.
    NoSuchActor,
    /// A call of the actor is in flight.
    Busy,
    /// The schema doesn't accept the record.
    BadRecord,
}

impl Error for BeginFault {}

/// As a schedule's fault is told.
impl fmt::Display for BeginFault {
    fn fmt<W: fmt::Write>(&self, f: &mut fmt::Formatter<W>) -> fmt::Result {
        f.pad(match self {
            BeginFault::NoSuchActor => "no such actor",
            BeginFault::Busy => "actor busy",
            BeginFault::BadRecord => "bad record",
        })
    }
}

/// Why a step can't be made, in that order. Memory: a growth was refused; the same step can be tried again.
#[derive(Clone, Copy, Debug, PartialEq, Eq)]
pub enum StepFault {
    /// The session has no CPU of that number.
    NoSuchActor,
    /// No call of the actor is in flight.
    IdleStep,
    /// A growth was refused.
    Memory,
}

impl Error for StepFault {}

/// As a schedule's fault is told.
impl fmt::Display for StepFault {
    fn fmt<W: fmt::Write>(&self, f: &mut fmt::Formatter<W>) -> fmt::Result {
        f.pad(match self {
            StepFault::NoSuchActor => "no such actor",
            StepFault::IdleStep => "step of an idle actor",
            StepFault::Memory => "out of memory",
        })
    }
}

/// What a step leaves: the call goes on, or that was its last step.
#[derive(Clone, Copy, Debug, PartialEq, Eq)]
pub enum Stepped {
    /// There are more steps to make.
    Going,
    /// The call has ended, with this answer.
    Done(Answer),
}
