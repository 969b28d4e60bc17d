ghost use Rattle.std.specs.Prelude.{◌≡◌};
ghost use Rattle.dspec_deeds.specs.FateAnswers.{answer_of_fate};

use crate::calls::Decided;
use dspec_record::Rec;
use dspec_word::SpecId;
use std::fmt;

/// What became of a traced record.
#[derive(Clone, Copy, Debug, PartialEq, Eq)]
pub enum TraceFate {
    /// It stands in the principal buffer.
    Kept,
    /// The principal buffer had no room for it, or is closed.
    Dropped,
    /// The session was stopped: the record counts as void.
    Stopped,
}

/// What became of a speculative record.
#[derive(Clone, Copy, Debug, PartialEq, Eq)]
pub enum SpeculateFate {
    /// It stands in the CPU's speculative buffer.
    Kept,
    /// The speculative buffer had no room for it.
    Dropped,
    /// The identifier wasn't open.
    Void,
    /// The session was stopped: the record counts as void.
    Stopped,
}

/// What became of a speculative buffer, with the number of its records.
#[derive(Clone, Copy, Debug, PartialEq, Eq)]
pub enum DecideFate {
    /// Committed, and copied to the principal buffer as one block.
    Copied(u32),
    /// Committed, and the principal buffer had no room for the block.
    Lost(u32),
    /// Discarded.
    Thrown(u32),
    /// The identifier wasn't open: the buffer stays as it was.
    Void,
    /// The session was stopped: the buffer stays as it was.
    Stopped,
}

/// What a CPU or the consumer did, in one atomic step. The CPU's number comes first; Release names the slot.
#[derive(Clone, Copy, Debug, PartialEq, Eq)]
pub enum Deed {
    /// A record was offered to the principal buffer.
    Trace(u32, Rec, TraceFate),
    /// A call of speculation began, with whether it was shown that the session runs.
    Scan(u32, bool),
    /// The CPU was given this speculation.
    Opened(u32, SpecId),
    /// The CPU's call of speculation passed this slot by, with whether a decided speculation held it.
    Miss(u32, u32, bool),
    /// A record was offered to the CPU's speculative buffer of this speculation.
    Speculate(u32, SpecId, Rec, SpeculateFate),
    /// A commit, with what it did to the CPU's own buffer.
    Commit(u32, SpecId, DecideFate),
    /// A discard, with what it did to the CPU's own buffer.
    Discard(u32, SpecId, DecideFate),
    /// The CPU did in a service what another CPU's commit or discard decided, and acknowledged it.
    Settle(u32, SpecId, DecideFate),
    /// The CPU switched its principal buffers and sealed a batch.
    Seal(u32),
    /// The slot may be given out again, at its next issue.
    Release(u32),
    /// The session was stopped.
    Halt,
}

/// As an answer is printed: `kept`.
impl fmt::Display for TraceFate {
    fn fmt<W: fmt::Write>(&self, f: &mut fmt::Formatter<W>) -> fmt::Result {
        f.pad(match self {
            TraceFate::Kept => "kept",
            TraceFate::Dropped => "dropped",
            TraceFate::Stopped => "stopped",
        })
    }
}

/// As an answer is printed: `void`.
impl fmt::Display for SpeculateFate {
    fn fmt<W: fmt::Write>(&self, f: &mut fmt::Formatter<W>) -> fmt::Result {
        f.pad(match self {
            SpeculateFate::Kept => "kept",
            SpeculateFate::Dropped => "dropped",
            SpeculateFate::Void => "void",
            SpeculateFate::Stopped => "stopped",
        })
    }
}

/// As an answer is printed: `copied 3`.
impl fmt::Display for DecideFate {
    fn fmt<W: fmt::Write>(&self, f: &mut fmt::Formatter<W>) -> fmt::Result {
        match self {
            DecideFate::Copied(count) => write!(f, "copied {count}"),
            DecideFate::Lost(count) => write!(f, "lost {count}"),
            DecideFate::Thrown(count) => write!(f, "thrown {count}"),
            DecideFate::Void => write!(f, "void"),
            DecideFate::Stopped => write!(f, "stopped"),
        }
    }
}

/// As `cpu 0 trace 4(9) kept`, `cpu 1 settle 65 copied 3`, `release 2` or `halt`: who did it, what, the speculation's number
/// or the slot, the record, and what came of it. A scan and a miss say so only where they were shown a stop or a decision.
impl fmt::Display for Deed {
    fn fmt<W: fmt::Write>(&self, f: &mut fmt::Formatter<W>) -> fmt::Result {
        match self {
            Deed::Trace(cpu, rec, fate) => write!(f, "cpu {cpu} trace {rec} {fate}"),
            Deed::Scan(cpu, running) => {
                let shown = if *running { "" } else { " stopped" };
                write!(f, "cpu {cpu} scan{shown}")
            }
            Deed::Opened(cpu, id) => write!(f, "cpu {cpu} opened {id}"),
            Deed::Miss(cpu, slot, busy) => {
                let shown = if *busy { " busy" } else { "" };
                write!(f, "cpu {cpu} miss {slot}{shown}")
            }
            Deed::Speculate(cpu, id, rec, fate) => {
                write!(f, "cpu {cpu} speculate {id} {rec} {fate}")
            }
            Deed::Commit(cpu, id, fate) => write!(f, "cpu {cpu} commit {id} {fate}"),
            Deed::Discard(cpu, id, fate) => write!(f, "cpu {cpu} discard {id} {fate}"),
            Deed::Settle(cpu, id, fate) => write!(f, "cpu {cpu} settle {id} {fate}"),
            Deed::Seal(cpu) => write!(f, "cpu {cpu} seal"),
            Deed::Release(slot) => write!(f, "release {slot}"),
            Deed::Halt => write!(f, "halt"),
        }
    }
}

impl DecideFate {
    /// The answer of a call that had this fate.
    pub fn answer(self) -> Decided
        ensures { result ≡ answer_of_fate self }
    {
        match self {
            DecideFate::Copied(count) => Decided::Copied(count),
            DecideFate::Lost(count) => Decided::Lost(count),
            DecideFate::Thrown(count) => Decided::Thrown(count),
            DecideFate::Void => Decided::Void,
            DecideFate::Stopped => Decided::Stopped,
        }
    }
}
