use dspec_word::SpecId;
use std::alloc::{AllocError, AllocFailed};
use std::fmt;

/// A number of a report.
#[derive(Clone, Copy, Debug, PartialEq, Eq)]
pub enum Number {
    Offered,
    Accepted,
    Dropped,
    Specdropped,
    Lost,
    Discarded,
    Void,
    Held,
    Drops,
    Unavailable,
    Busy,
    Stopped,
    Worn,
}

impl fmt::Display for Number {
    fn fmt<W: fmt::Write>(&self, f: &mut fmt::Formatter<W>) -> fmt::Result {
        f.pad(match self {
            Number::Offered => "offered",
            Number::Accepted => "accepted",
            Number::Dropped => "dropped",
            Number::Specdropped => "specdropped",
            Number::Lost => "lost",
            Number::Discarded => "discarded",
            Number::Void => "void",
            Number::Held => "held",
            Number::Drops => "drops",
            Number::Unavailable => "unavailable",
            Number::Busy => "busy",
            Number::Stopped => "stopped",
            Number::Worn => "worn",
        })
    }
}

/// What is wrong.
#[derive(Clone, Copy, Debug, PartialEq, Eq)]
pub enum FlawKind {
    LogMissing,
    GiveBackRefused,
    Unreadable,
    OtherCpu,
    Unknown,
    NotKept,
    Twice,
    Order,
    BlockTorn,
    NotCommitted,
    LostButThere,
    TraceMissing,
    BlockMissing,
    Batches,
    BatchDrops,
    AllDrops,
    GivenTwice,
    NoSuchSlot,
    DecidedTwice,
    NeverGiven,
    VoidUndecided,
    Revived,
    AfterStop,
    Worn,
    AfterFull,
    BlockCount,
    Settled,
    Unbalanced,
    Report(Number),
}

impl FlawKind {
    /// In words.
    fn words(self) -> &'static str {
        match self {
            FlawKind::LogMissing => "its log is missing",
            FlawKind::GiveBackRefused => "batches were refused as they were given back",
            FlawKind::Unreadable => "a batch can't be read",
            FlawKind::OtherCpu => "a batch names another CPU",
            FlawKind::Unknown => "a record is there that no call of this CPU offered",
            FlawKind::NotKept => "a record is there whose call answered something else than Kept",
            FlawKind::Twice => "a record is there twice",
            FlawKind::Order => "a record or a block isn't at its place in the order of the calls",
            FlawKind::BlockTorn => "a block isn't whole, or not in one piece",
            FlawKind::NotCommitted => "a block is there that nobody committed",
            FlawKind::LostButThere => "a block is there that its own commit told lost",
            FlawKind::TraceMissing => "a record that a trace kept isn't there",
            FlawKind::BlockMissing => "a block that its own commit told copied isn't there",
            FlawKind::Batches => "not as many batches came as were sealed",
            FlawKind::BatchDrops => "a batch tells of fewer drops than its calls were told",
            FlawKind::AllDrops => "the drops of the batches aren't those of the report",
            FlawKind::GivenTwice => "an identifier was given out twice",
            FlawKind::NoSuchSlot => "an identifier was given out that the session doesn't have",
            FlawKind::DecidedTwice => "an identifier was decided twice",
            FlawKind::NeverGiven =>
                "an identifier that was never given out was spoken to or decided",
            FlawKind::VoidUndecided => "an identifier was void that nobody decided",
            FlawKind::Revived => "an identifier was open after a call that found it decided",
            FlawKind::AfterStop => "a call after one that was stopped wasn't",
            FlawKind::Worn => "a call was worn too early, or wasn't",
            FlawKind::AfterFull => "a record was kept after a refusal, under policy fill",
            FlawKind::BlockCount => "a decision tells of a block of another size",
            FlawKind::Settled => "more were settled than were decided",
            FlawKind::Unbalanced => "the report's records aren't those offered",
            FlawKind::Report(_) => "a number of the report isn't the log's",
        }
    }
}

impl fmt::Display for FlawKind {
    fn fmt<W: fmt::Write>(&self, f: &mut fmt::Formatter<W>) -> fmt::Result {
        let words = self.words();
        match *self {
            FlawKind::Report(number) => write!(f, "{words}: {number}"),
            _ => write!(f, "{words}"),
        }
    }
}

/// A contradiction between what the calls answered and what was recorded and reported.
#[derive(Clone, Copy, Debug, PartialEq, Eq)]
pub struct Flaw {
    pub kind: FlawKind,
    pub cpu: u32,
    /// The call of the CPU that it is about, where it is about one.
    pub call: Option<usize>,
    /// The identifier that it is about, or none.
    pub id: SpecId,
    /// What was told, and what was due, where it is about numbers.
    pub numbers: Option<(u64, u64)>,
}

impl Flaw {
    /// About a CPU alone.
    pub fn new(kind: FlawKind, cpu: u32) -> Flaw {
        Flaw {
            kind,
            cpu,
            call: None,
            id: SpecId::NONE,
            numbers: None,
        }
    }

    /// About a call too.
    pub fn at(self, call: usize) -> Flaw {
        Flaw {
            call: Some(call),
            ..self
        }
    }

    /// About an identifier too.
    pub fn of(self, id: SpecId) -> Flaw {
        Flaw { id, ..self }
    }

    /// With what was told, and what was due.
    pub fn with(self, told: u64, due: u64) -> Flaw {
        Flaw {
            numbers: Some((told, due)),
            ..self
        }
    }
}

impl fmt::Display for Flaw {
    fn fmt<W: fmt::Write>(&self, f: &mut fmt::Formatter<W>) -> fmt::Result {
        let (cpu, kind) = (self.cpu, self.kind);
        write!(f, "cpu {cpu}")?;
        if let Some(call) = self.call {
            write!(f, " call {call}")?;
        }
        if self.id != SpecId::NONE {
            let id = self.id;
            write!(f, " identifier {id}")?;
        }
        write!(f, ": {kind}")?;
        if let Some((told, due)) = self.numbers {
            write!(f, " ({told}, due {due})")?;
        }
        Ok(())
    }
}

/// Why a check ends early.
#[derive(Clone, Copy, Debug, PartialEq, Eq)]
pub enum CheckFault {
    Memory,
    Found(Flaw),
}

/// What a check answers.
pub type Checked<T> = Result<T, CheckFault>;

impl From<AllocError> for CheckFault {
    fn from(_refused: AllocError) -> Self {
        CheckFault::Memory
    }
}

impl<T: Drop> From<AllocFailed<T>> for CheckFault {
    fn from(_refused: AllocFailed<T>) -> Self {
        CheckFault::Memory
    }
}

impl From<Flaw> for CheckFault {
    fn from(flaw: Flaw) -> Self {
        CheckFault::Found(flaw)
    }
}
