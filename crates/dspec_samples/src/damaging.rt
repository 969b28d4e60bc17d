use crate::checking::check;
use crate::damaging::Change::{
    Commits, CpuTold, Decides, Discards, DropsTold, Fill, Last, MaxCalls, Missing, Opens, Pop,
    Push, Refused, Settles, Speaks, Torn, Traces, Unavailable, Uncounted, Unreadable,
};
use crate::flaws::{CheckFault, Flaw};
use crate::logging::Log;
use crate::made::healthy;
use crate::records::record_of;
use crate::stories::Story;
use crate::sums::Sums;
use dspec_buffer::ReadFault;
use dspec_deeds::{Answer, CpuOp, Decided, Opening, Policy, Report, Served, Spoken, Traced};
use dspec_record::ReadKind;
use dspec_word::SpecId;
use std::alloc::{AllocError, Global};

/// A change of the made-up session. Batches are those of CPU 0, and identifiers go by their numbers.
#[derive(Clone, Copy)]
pub enum Change {
    /// After a batch's other records stands the record of a call.
    Push(usize, usize),
    /// The record at a place of the last batch isn't there.
    Missing(usize),
    /// It stands at the batch's end.
    Last(usize),
    /// The last batch isn't there.
    Pop,
    /// The first batch tells so many drops.
    DropsTold(u64),
    /// The first batch is of that CPU.
    CpuTold(u32),
    /// The first batch can't be read.
    Unreadable,
    /// A CPU's report has so many fewer: offered, accepted, dropped, void.
    Uncounted(usize, [u64; 4]),
    /// The log of CPU 1 is torn.
    Torn,
    /// So many batches were refused.
    Refused(u64),
    /// A CPU has so many calls.
    MaxCalls(u64),
    /// The policy is Fill.
    Fill,
    /// A call of CPU 0 answers this.
    Decides(usize, Decided),
    Speaks(usize, Spoken),
    Traces(usize, Traced),
    /// A service of CPU 0 settles so many, and seals nothing.
    Settles(usize, u32),
    /// A call of CPU 0 is given no identifier.
    Unavailable(usize),
    /// A call of CPU 0 is given this identifier.
    Opens(usize, u64),
    /// The call of CPU 1 that discards is a commit, or a discard, of this identifier and answers this.
    Commits(u64, Decided),
    Discards(u64, Decided),
}

/// What a broken library could have done to the made-up session, by its name.
pub const DAMAGES: [(&str, &[Change]); 32] = [
    ("Nothing", &[]),
    ("BlockTwice", &[Push(1, 2), Push(1, 3)]),
    ("TraceMissing", &[Missing(2)]),
    ("TracesExchanged", &[Last(0)]),
    ("DiscardedThere", &[Push(1, 10)]),
    ("BlockTorn", &[Missing(1)]),
    ("BlockLate", &[Last(0), Last(0)]),
    ("BlockUncounted", &[Uncounted(1, [1, 1, 0, 0])]),
    ("BatchMissing", &[Pop]),
    ("DropUncounted", &[Uncounted(0, [0, 0, 1, 0])]),
    ("DropsOfBatch", &[DropsTold(0)]),
    ("VoidUncounted", &[Uncounted(0, [1, 0, 0, 1])]),
    ("DecidedTwice", &[Commits(1, Decided::Copied(1))]),
    ("GivenTwice", &[Opens(9, 1)]),
    ("OpenAfterItsEnd", &[Speaks(7, Spoken::Kept)]),
    ("VoidUndecided", &[Discards(2, Decided::Void)]),
    ("LogTorn", &[Torn]),
    ("GiveBackRefused", &[Refused(1)]),
    ("BatchUnreadable", &[Unreadable]),
    ("BatchOfAnotherCpu", &[CpuTold(1)]),
    ("RecordOfNoCall", &[Push(1, 20)]),
    ("DroppedThere", &[Push(1, 4)]),
    ("LostThere", &[Decides(6, Decided::Lost(2))]),
    (
        "BlockOfOneMissing",
        &[
            Missing(0),
            Missing(0),
            Speaks(3, Spoken::Dropped),
            Decides(6, Decided::Copied(1)),
        ],
    ),
    ("DropsTooMany", &[DropsTold(2)]),
    ("SlotTooHigh", &[Opens(9, 3)]),
    ("NeverGiven", &[Unavailable(9)]),
    ("GoesOnStopped", &[Traces(4, Traced::Stopped)]),
    ("NotWorn", &[MaxCalls(5)]),
    ("KeptAfterFull", &[Fill]),
    ("BlockMiscounted", &[Decides(6, Decided::Copied(3))]),
    ("SettledTooMany", &[Settles(11, 3)]),
];

/// Another answer, and another call where there is one, at a place of a log.
fn say(
    alloc: Global,
    story: &mut Story,
    cpu: usize,
    place: usize,
    op: Option<CpuOp>,
    answer: Answer,
) {
    if let Some(log) = story.logs.get_mut(cpu) {
        let mut changed = Log::new(alloc);
        for (number, called) in log.calls.iter().enumerate() {
            let same = number != place;
            let made = if same { None } else { op };
            let answer = if same { called.answer } else { answer };
            changed.note(made.unwrap_or(called.op), answer);
        }
        *log = changed;
    }
}

/// A change of the batches of CPU 0.
fn change_batches(story: &mut Story, change: Change) -> Result<(), AllocError> {
    let Some(stream) = story.streams.get_mut(0) else {
        return Ok(());
    };
    if let Pop = change {
        let _ = stream.parts.pop();
        return Ok(());
    }
    let number = match change {
        Push(number, _) => number,
        Missing(_) | Last(_) => 1,
        _ => 0,
    };
    let Some(part) = stream.parts.get_mut(number) else {
        return Ok(());
    };
    match change {
        Push(_, call) => part.records.push(record_of(0, call, 0))?,
        Missing(place) | Last(place) if place < part.records.len() => {
            let rec = part.records.remove(place);
            if let Last(_) = change {
                part.records.push(rec)?;
            }
        }
        DropsTold(drops) => part.drops = drops,
        CpuTold(cpu) => part.cpu = cpu,
        Unreadable => {
            part.fault = Some(ReadFault {
                kind: ReadKind::Truncated,
                at: 0,
            });
        }
        _ => {}
    }
    Ok(())
}

/// A change of the reports, the configuration, the logs as a whole and what went back.
fn change_session(story: &mut Story, change: Change) {
    match change {
        Uncounted(cpu, fewer) => {
            let [offered, accepted, dropped, void] = fewer;
            if let Some(report) = story.reports.get_mut(cpu) {
                *report = Report {
                    offered: report.offered.saturating_sub(offered),
                    accepted: report.accepted.saturating_sub(accepted),
                    dropped: report.dropped.saturating_sub(dropped),
                    void: report.void.saturating_sub(void),
                    ..*report
                };
            }
        }
        Torn => {
            if let Some(log) = story.logs.get_mut(1) {
                log.torn = true;
            }
        }
        Refused(count) => story.refused = count,
        MaxCalls(calls) => story.config.max_calls = calls,
        Fill => story.config.policy = Policy::Fill,
        _ => {}
    }
}

/// A change of what a call answered.
fn change_answers(alloc: Global, story: &mut Story, change: Change) {
    match change {
        Decides(place, decided) => say(alloc, story, 0, place, None, Answer::Decided(decided)),
        Speaks(place, spoken) => say(alloc, story, 0, place, None, Answer::Spoken(spoken)),
        Traces(place, traced) => say(alloc, story, 0, place, None, Answer::Traced(traced)),
        Settles(place, settled) => {
            let served = Served {
                sealed: false,
                settled,
            };
            say(alloc, story, 0, place, None, Answer::Served(served));
        }
        Unavailable(place) => {
            say(
                alloc,
                story,
                0,
                place,
                None,
                Answer::Opening(Opening::Unavailable),
            );
        }
        Opens(place, id) => {
            let opening = Opening::Id(SpecId::from_raw(id));
            say(alloc, story, 0, place, None, Answer::Opening(opening));
        }
        Commits(id, decided) => {
            let op = CpuOp::Commit(SpecId::from_raw(id));
            say(alloc, story, 1, 3, Some(op), Answer::Decided(decided));
        }
        Discards(id, decided) => {
            let op = CpuOp::Discard(SpecId::from_raw(id));
            say(alloc, story, 1, 3, Some(op), Answer::Decided(decided));
        }
        _ => {}
    }
}

/// What is found in the made-up session with these changes: the first contradiction, if there is one.
pub fn found(alloc: Global, changes: &[Change]) -> Result<Option<Flaw>, AllocError> {
    let mut story = healthy(alloc)?;
    for change in changes {
        change_batches(&mut story, *change)?;
        change_session(&mut story, *change);
        change_answers(alloc, &mut story, *change);
    }
    match check(alloc, &story, &mut Sums::default()) {
        Ok(()) => Ok(None),
        Err(CheckFault::Found(flaw)) => Ok(Some(flaw)),
        Err(CheckFault::Memory) => Err(AllocError),
    }
}
