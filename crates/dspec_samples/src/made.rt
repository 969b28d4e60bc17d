//! A made-up session of two CPUs, by hand: what its calls answered, what came, and what is reported. CPU 0 commits a speculation of
//! both, and CPU 1 discards another, to which CPU 0 alone has speculated.

use crate::logging::{Log, LoggedCall};
use crate::records::record_of;
use crate::stories::{BatchContents, CpuBatches, Story};
use dspec_deeds::{
    Answer, Config, CpuOp, Decided, Opening, Policy, Report, Served, Spoken, Traced,
};
use dspec_word::SpecId;
use std::alloc::{AllocError, Global};

/// A call of a CPU whose record, where it offers one, is of the first kind.
#[derive(Clone, Copy)]
enum SampleCall {
    Traced(Traced),
    Opened(SpecId),
    Spoken(SpecId, Spoken),
    Committed(SpecId, u32),
    Discarded(SpecId, u32),
    Served(bool, u32),
}

/// The call of this number, and its answer.
fn called(cpu: u32, number: usize, said: SampleCall) -> LoggedCall {
    let rec = record_of(cpu, number, 0);
    let (op, answer) = match said {
        SampleCall::Traced(traced) => (CpuOp::Trace(rec), Answer::Traced(traced)),
        SampleCall::Opened(id) => (CpuOp::Speculation, Answer::Opening(Opening::Id(id))),
        SampleCall::Spoken(id, spoken) => (CpuOp::Speculate(id, rec), Answer::Spoken(spoken)),
        SampleCall::Committed(id, size) => (
            CpuOp::Commit(id),
            Answer::Decided(Decided::Copied(size)),
        ),
        SampleCall::Discarded(id, size) => (
            CpuOp::Discard(id),
            Answer::Decided(Decided::Thrown(size)),
        ),
        SampleCall::Served(sealed, settled) => {
            (CpuOp::Service, Answer::Served(Served { sealed, settled }))
        }
    };
    LoggedCall { op, answer }
}

/// The log of a CPU.
fn log(alloc: Global, cpu: u32, all: &[SampleCall]) -> Log {
    let mut log = Log::new(alloc);
    for said in all {
        let called = called(cpu, log.calls.len(), *said);
        log.note(called.op, called.answer);
    }
    log
}

/// A batch with the records of these calls.
fn part(
    alloc: Global,
    cpu: u32,
    drops: u64,
    numbers: &[usize],
) -> Result<BatchContents, AllocError> {
    let mut records = Vec::new(alloc);
    for number in numbers {
        records.push(record_of(cpu, *number, 0))?;
    }
    Ok(BatchContents {
        cpu,
        drops,
        records,
        fault: None,
    })
}

/// The logs.
fn logs(alloc: Global) -> Result<Vec<Log>, AllocError> {
    let (kept, thrown) = (SpecId::of(0, 1), SpecId::of(0, 2));
    let first = [
        SampleCall::Traced(Traced::Kept),
        SampleCall::Opened(kept),
        SampleCall::Spoken(kept, Spoken::Kept),
        SampleCall::Spoken(kept, Spoken::Kept),
        SampleCall::Traced(Traced::Dropped),
        SampleCall::Served(true, 0),
        SampleCall::Committed(kept, 2),
        SampleCall::Spoken(kept, Spoken::Void),
        SampleCall::Traced(Traced::Kept),
        SampleCall::Opened(thrown),
        SampleCall::Spoken(thrown, Spoken::Kept),
        SampleCall::Served(false, 2),
    ];
    let second = [
        SampleCall::Spoken(kept, Spoken::Kept),
        SampleCall::Traced(Traced::Kept),
        SampleCall::Served(false, 1),
        SampleCall::Discarded(thrown, 0),
        SampleCall::Traced(Traced::Kept),
    ];
    let mut logs = Vec::new(alloc);
    logs.push(log(alloc, 0, &first))?;
    logs.push(log(alloc, 1, &second))?;
    Ok(logs)
}

/// What came, and what was left.
fn streams(alloc: Global) -> Result<Vec<CpuBatches>, AllocError> {
    let mut first = Vec::new(alloc);
    first.push(part(alloc, 0, 1, &[0])?)?;
    first.push(part(alloc, 0, 0, &[2, 3, 8])?)?;
    let mut second = Vec::new(alloc);
    second.push(part(alloc, 1, 0, &[1, 0, 4])?)?;
    let mut streams = Vec::new(alloc);
    streams.push(CpuBatches { parts: first })?;
    streams.push(CpuBatches { parts: second })?;
    Ok(streams)
}

/// The reports.
fn reports(alloc: Global) -> Result<Vec<Report>, AllocError> {
    let mut reports = Vec::new(alloc);
    reports.push(Report {
        offered: 7,
        accepted: 4,
        dropped: 1,
        discarded: 1,
        void: 1,
        drops: 1,
        ..Report::default()
    })?;
    reports.push(Report {
        offered: 3,
        accepted: 3,
        ..Report::default()
    })?;
    Ok(reports)
}

/// The session, in which nothing contradicts anything.
pub fn healthy(alloc: Global) -> Result<Story, AllocError> {
    Ok(Story {
        config: Config {
            cpus: 2,
            nspec: 2,
            bufsize: 4096,
            specsize: 256,
            max_issues: 1000,
            max_calls: 1000,
            policy: Policy::Switch,
        },
        logs: logs(alloc)?,
        streams: streams(alloc)?,
        reports: reports(alloc)?,
        refused: 0,
    })
}
