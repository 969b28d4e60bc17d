//! What deeds, faults and a world print, and going over a series.
use super::worlds::{runs, valued};
use super::*;
use dspec_buffer::ListBuffer;
use dspec_core::{
    BeginFault, DecideFate, Series, SpeculateFate, StartFault, StepFault, TraceFate, World,
};
use dspec_record::DefaultAction;
use std::fmt::Display;

/// The value prints this text.
fn told<T: Display>(rt: &(impl Abort + AllocGlobal), value: &T, wanted: &str) -> Result<(), Fail> {
    let text = value.to_string(rt.alloc())?;
    assert!(rt; text.as_str() == wanted, "{text}");
    Ok(())
}

#[test]
fn printed_deeds(rt: HostRuntime) -> Result<(), Fail> {
    let (first, later) = (SpecId::from_raw(1), SpecId::from_raw(65));
    for (deed, wanted) in [
        (
            Deed::Trace(0, valued(4, 9), TraceFate::Kept),
            "cpu 0 trace 4(9) kept",
        ),
        (
            Deed::Trace(3, bare(7), TraceFate::Dropped),
            "cpu 3 trace 7 dropped",
        ),
        (Deed::Scan(1, true), "cpu 1 scan"),
        (Deed::Scan(1, false), "cpu 1 scan stopped"),
        (Deed::Opened(2, later), "cpu 2 opened 65"),
        (Deed::Miss(0, 3, true), "cpu 0 miss 3 busy"),
        (Deed::Miss(0, 3, false), "cpu 0 miss 3"),
        (
            Deed::Speculate(1, first, bare(7), SpeculateFate::Void),
            "cpu 1 speculate 1 7 void",
        ),
        (
            Deed::Commit(0, first, DecideFate::Lost(2)),
            "cpu 0 commit 1 lost 2",
        ),
        (
            Deed::Discard(0, later, DecideFate::Thrown(0)),
            "cpu 0 discard 65 thrown 0",
        ),
        (
            Deed::Settle(1, first, DecideFate::Copied(3)),
            "cpu 1 settle 1 copied 3",
        ),
        (Deed::Seal(3), "cpu 3 seal"),
        (Deed::Release(2), "release 2"),
        (Deed::Halt, "halt"),
    ] {
        told(&rt, &deed, wanted)?;
    }
    Ok(())
}

#[test]
fn printed_fates(rt: HostRuntime) -> Result<(), Fail> {
    told(&rt, &TraceFate::Stopped, "stopped")?;
    for (fate, wanted) in [
        (SpeculateFate::Kept, "kept"),
        (SpeculateFate::Dropped, "dropped"),
        (SpeculateFate::Stopped, "stopped"),
    ] {
        told(&rt, &fate, wanted)?;
    }
    told(&rt, &DecideFate::Void, "void")?;
    told(&rt, &DecideFate::Stopped, "stopped")
}

/// What is refused of configurations prints what the faults `refused-..` of `examples/` have.
#[test]
fn printed_play_faults(rt: HostRuntime) -> Result<(), Fail> {
    for (fault, wanted) in [
        (PlayFault::Setup(StartFault::Specs), "config refused: nspec"),
        (PlayFault::NoSuchActor(0), "turn 0: no such actor"),
        (PlayFault::Busy(1), "turn 1: actor busy"),
        (PlayFault::IdleStep(2), "turn 2: step of an idle actor"),
        (PlayFault::BadRecord(3), "turn 3: bad record"),
        (PlayFault::Memory, "out of memory"),
    ] {
        told(&rt, &fault, wanted)?;
    }
    told(&rt, &StartFault::Memory, "out of memory")?;
    told(&rt, &BeginFault::NoSuchActor, "no such actor")?;
    told(&rt, &BeginFault::Busy, "actor busy")?;
    told(&rt, &BeginFault::BadRecord, "bad record")?;
    told(&rt, &StepFault::NoSuchActor, "no such actor")?;
    told(&rt, &StepFault::IdleStep, "step of an idle actor")?;
    told(&rt, &StepFault::Memory, "out of memory")
}

#[test]
fn shown_world(rt: HostRuntime) -> Result<(), Fail> {
    let mut world: World<DefaultAction, ListBuffer> = World::new(rt.alloc(), SMALL, DefaultAction)?;
    let lines = [
        (traces(bare(7), Traced::Kept), 1),
        (consumes(ConsumerOp::Stop, Answer::StopDone), 1),
    ];
    runs(&rt, &mut world, &lines)?;
    let text = format!(in rt.alloc(); "{world:?}")?;
    assert!(rt;
        text.as_str() == "World { cpus: 1, nspec: 1, deeds: 2, stopped: true }",
        "{text}"
    );
    Ok(())
}

#[test]
fn walked_series(rt: HostRuntime) -> Result<(), Fail> {
    let mut series = Series::new(rt.alloc());
    for number in 5..8u32 {
        series.push(number)?;
    }
    let mut wanted = 5;
    for number in &series {
        assert!(rt; *number == wanted);
        wanted = wanted.saturating_add(1);
    }
    assert!(rt; wanted == 8 && series.iter().count() == 3);
    Ok(())
}
