//! A play whose calls overlap, step by step, whose deeds are compared up to what its close settles, and plays that are refused. Other plays
//! are told step by step as data in `examples/`.
use super::worlds::{made, stepped};
use super::*;
use dspec_buffer::{ByteBuffer, ListBuffer, TraceBuffer};
use dspec_core::{Close, DecideFate, SpeculateFate, Stepped, World};

fn step(cpu: u32) -> Turn {
    Turn::Step(Actor::Cpu(cpu))
}

/// Two CPUs, with room for all records.
const TWO: Config = Config {
    cpus: 2,
    bufsize: 64,
    specsize: 64,
    ..SMALL
};

/// Makes the turns in a world, each a begin of a CPU's call or a step, and compares the answers of the calls that end by them and the deeds
/// up to there.
fn drives<B: TraceBuffer<DefaultAction>>(
    rt: &(impl Abort + AllocGlobal),
    turns: &[Turn],
    lines: &[Line],
    deeds: &[Deed],
) -> Result<(), Fail> {
    let mut world: World<DefaultAction, B> = made(rt, TWO, DefaultAction)?;
    let mut rest = lines;
    for turn in turns {
        let told = match *turn {
            Turn::BeginCpu(cpu, op) => {
                world.begin_cpu(cpu, op)?;
                Stepped::Going
            }
            Turn::Step(actor) => stepped(&mut world, actor)?,
            _ => return Err(Fail::from("another turn")),
        };
        if let Stepped::Done(answer) = told {
            let Some((first, others)) = rest.split_first() else {
                return Err(Fail::from("an answer more"));
            };
            assert_eq!(rt; answer, first.2);
            rest = others;
        }
    }
    assert!(rt; rest.is_empty());
    assert_eq!(rt; world.deeds(), deeds);
    Ok(())
}

/// Compares what a CPU's principal buffers accepted, and its counts.
fn closes(rt: &impl Abort, close: &Close, cpu: usize, stream: &[Rec], report: Report) {
    match close.accepted.as_slice().get(cpu) {
        Some(accepted) => assert!(rt; accepted.as_slice() == stream),
        None => assert!(rt; false, "no stream {cpu}"),
    }
    let found = close.reports.as_slice().get(cpu);
    assert_eq!(rt; found, Some(&report), "report {cpu}");
}

/// Two CPUs that both were shown the new speculation become its callers; then one commits, and the other is too late to
/// discard. A world of each kind of buffer to which the turns are put answers the same.
#[test]
fn commit_against_discard(rt: HostRuntime) -> Result<(), Fail> {
    let id = SpecId::from_raw(1);
    let turns = [
        Turn::BeginCpu(0, CpuOp::Speculation),
        step(0),
        step(0),
        step(0),
        Turn::BeginCpu(0, CpuOp::Speculate(id, bare(1))),
        step(0),
        step(0),
        Turn::BeginCpu(1, CpuOp::Speculate(id, bare(2))),
        step(1),
        step(1),
        step(0),
        step(1),
        step(1),
        Turn::BeginCpu(0, CpuOp::Commit(id)),
        step(0),
        step(0),
        Turn::BeginCpu(1, CpuOp::Discard(id)),
        step(1),
        step(1),
        step(0),
        step(1),
    ];
    let lines = [
        opens(0, Opening::Id(id)),
        speculates(0, id, bare(1)),
        speculates(1, id, bare(2)),
        commits(id, Decided::Copied(1)),
        whole(1, CpuOp::Discard(id), Answer::Decided(Decided::Void)),
    ];
    let deeds = [
        Deed::Scan(0, true),
        Deed::Opened(0, id),
        Deed::Speculate(0, id, bare(1), SpeculateFate::Kept),
        Deed::Speculate(1, id, bare(2), SpeculateFate::Kept),
        Deed::Commit(0, id, DecideFate::Copied(1)),
        Deed::Discard(1, id, DecideFate::Void),
        Deed::Settle(0, id, DecideFate::Copied(0)),
        Deed::Settle(1, id, DecideFate::Copied(1)),
    ];
    drives::<ListBuffer>(&rt, &turns, &lines, &deeds[..6])?;
    drives::<ByteBuffer>(&rt, &turns, &lines, &deeds[..6])?;
    let Outcome { close, answers } = played(&rt, &TWO, &turns)?;
    assert!(rt; answers.as_slice() == lines.as_slice());
    assert_eq!(rt; close.deeds.as_slice(), deeds.as_slice());
    closes(&rt, &close, 0, &[bare(1)], counts(1, 1));
    closes(&rt, &close, 1, &[bare(2)], counts(1, 1));
    Ok(())
}

/// A turn whose record no schema has.
fn no_record() -> Turn {
    Turn::RunCpu(0, CpuOp::Trace(bare(0)))
}

/// Why a play is refused whose consumer is busy with a clean.
#[test]
fn refused_plays(rt: HostRuntime) {
    for (turn, fault) in [
        (step(1), PlayFault::NoSuchActor(1)),
        (step(0), PlayFault::IdleStep(1)),
        (no_record(), PlayFault::BadRecord(1)),
        (Turn::RunConsumer(ConsumerOp::Stop), PlayFault::Busy(1)),
    ] {
        let turns = [Turn::BeginConsumer(ConsumerOp::Clean), turn];
        assert_eq!(rt; played(&rt, &SMALL, &turns).err(), Some(fault));
    }
}
