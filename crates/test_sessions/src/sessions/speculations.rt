//! What no schedule has of speculations: for how many slots each CPU is waited for, and a consumer that meets each CPU after each call.
use super::calls::{
    Call, all_accepted, bare, clean, commit, discard, enablings, left, opens, service, speculate,
    speculation, valued, waits,
};
use super::staging::plays;
use dspec_deeds::Decided::{Copied, Thrown};
use dspec_deeds::{Opening, Report, Spoken};
use dspec_record::DefaultAction;
use dspec_samples::sized;
use std::test::Fail;

/// Slots that wait for a CPU: one discarded with nothing in it, and one committed that both recorded, for each CPU until its service.
#[test]
fn waited_for(rt: HostRuntime) -> Result<(), Fail> {
    let calls = [
        waits(0, Some(0)),
        waits(2, None),
        opens(0, 1),
        waits(1, Some(0)),
        discard(0, 1, Thrown(0)),
        waits(0, Some(1)),
        waits(1, Some(1)),
        opens(1, 2),
        speculate(0, 2, bare(1), Spoken::Kept),
        speculate(1, 2, bare(1), Spoken::Kept),
        commit(1, 2, Copied(1)),
        waits(0, Some(2)),
        waits(1, Some(2)),
        service(0, false, 2),
        waits(0, Some(0)),
        waits(1, Some(2)),
        clean(0),
        service(1, false, 2),
        waits(1, Some(0)),
        clean(2),
    ];
    let remains = [
        left(&[1, 0, 0, 0], all_accepted(1)),
        left(&[1, 0, 0, 0], all_accepted(1)),
    ];
    plays(&rt, &sized(2, 2, 64, 64), DefaultAction, &calls, &remains)?;
    Ok(())
}

/// The calls of `commit-on-two-cpus` in `examples/cases`, where the consumer meets CPU 0 and then CPU 1 after each.
#[test]
fn met_on_two_cpus(rt: HostRuntime) -> Result<(), Fail> {
    let mut calls = Vec::new(rt.alloc());
    for call in [
        opens(0, 1),
        speculate(0, 1, bare(1), Spoken::Kept),
        speculate(1, 1, valued(4, 5), Spoken::Kept),
        commit(0, 1, Copied(1)),
        speculation(0, Opening::Busy),
        service(1, false, 1),
        clean(0),
        service(0, false, 1),
        clean(1),
        opens(1, 65),
    ] {
        calls.push(call)?;
        calls.push(Call::Meet)?;
    }
    let report = all_accepted(1);
    let first = Report { busy: 1, ..report };
    let remains = [
        left(&[1, 0, 0, 0], first),
        left(&[4, 0, 0, 0, 5, 0, 0, 0], report),
    ];
    plays(
        &rt,
        &sized(2, 1, 64, 64),
        enablings(),
        calls.as_slice(),
        &remains,
    )?;
    Ok(())
}
