//! A session whose work records by probes, and reads what was kept by them.
use crate::same::same;
use dspec::{
    Config, Enablings, Lane, Probe, ProbeFault, Probes, Rec, RecordSink, Recording, TextSink, Work,
    closed_cpu, trace,
};
use std::test::Fail;

/// What the CPU does, by its probes.
#[derive(Drop)]
struct Requests {
    query: Probe<(u64, u32)>,
    failed: Probe<(i32, bool, f64)>,
}

impl Work<Enablings> for Requests {
    /// A path is kept, one is thrown away, and records are traced before and after them.
    fn work(&self, lane: &mut Lane<'_, Enablings>) {
        let (Ok(query), Ok(failed)) = (self.query.on(lane), self.failed.on(lane)) else {
            return;
        };
        query.record(lane, 10, (1, 500));
        let path = lane.path();
        query.record_in(lane, &path, 11, (2, 600));
        failed.record_in(lane, &path, 12, (-5, true, -0.5));
        path.commit(lane);
        let fine = lane.path();
        query.record_in(lane, &fine, 13, (3, 700));
        fine.discard(lane);
        query.record(lane, 14, (u64::MAX, u32::MAX));
    }
}

impl Requests {
    /// Declares them.
    fn declare<'n>(probes: &mut Probes<'n>) -> Result<Requests, ProbeFault> {
        Ok(Requests {
            query: probes.probe("query", &["request", "micros"])?,
            failed: probes.probe("failed", &["code", "late", "load"])?,
        })
    }
}

/// The same session, a line a record.
#[test]
fn records_are_told(rt: HostRuntime) -> Result<(), Fail> {
    let mut probes = Probes::new(rt.alloc());
    let work = Requests::declare(&mut probes)?;
    let (config, schema) = (Config::of(1, 2, 256, 128), probes.enablings());
    let mut told = TextSink::new(&probes, String::new(rt.alloc()));
    trace(&rt, rt.alloc(), &config, schema, &work, &mut told)?;
    let text = told.finish()?;
    let mut lines = text.as_str().lines();
    for line in [
        "cpu 0 at 10: query request=1 micros=500",
        "cpu 0 at 11: query request=2 micros=600",
        "cpu 0 at 12: failed code=-5 late=true load=-0.5",
        "cpu 0 at 14: query request=18446744073709551615 micros=4294967295",
    ] {
        same(&rt, lines.next(), Some(line));
    }
    same(&rt, lines.next(), None);
    Ok(())
}

/// The same, of a sink that knows none of these probes: each record has its line still, by its numbers.
#[test]
fn records_of_no_probe_are_told(rt: HostRuntime) -> Result<(), Fail> {
    let mut probes = Probes::new(rt.alloc());
    let nothing = Probes::new(rt.alloc());
    let work = Requests::declare(&mut probes)?;
    let (config, schema) = (Config::of(1, 2, 256, 128), probes.enablings());
    let mut told = TextSink::new(&nothing, String::new(rt.alloc()));
    trace(&rt, rt.alloc(), &config, schema, &work, &mut told)?;
    let text = told.finish()?;
    let mut lines = text.as_str().lines();
    for line in [
        "cpu 0: 1@10(1,500)",
        "cpu 0: 1@11(2,600)",
        "cpu 0: 2@12(4294967291,1,13826050856027422720)",
        "cpu 0: 1@14(18446744073709551615,4294967295)",
    ] {
        same(&rt, lines.next(), Some(line));
    }
    same(&rt, lines.next(), None);
    Ok(())
}

#[test]
fn records_of_probes(rt: HostRuntime) -> Result<(), Fail> {
    let mut probes = Probes::new(rt.alloc());
    let work = Requests::declare(&mut probes)?;
    let (query, failed) = (work.query, work.failed);
    let (config, schema) = (Config::of(1, 2, 256, 128), probes.enablings());
    let mut kept = RecordSink::new(rt.alloc());
    let closed = trace(&rt, rt.alloc(), &config, schema, &work, &mut kept)?;
    let records = kept.records()?;
    let [first, second, third, last] = records.as_slice() else {
        return Err(Fail::from("four records"));
    };
    assert!(rt; query.read(first) == Some((1, 500)));
    assert!(rt; query.read(second) == Some((2, 600)));
    assert!(rt; failed.read(third) == Some((-5, true, -0.5)));
    assert!(rt; query.read(last) == Some((u64::MAX, u32::MAX)));
    assert!(rt; query.read(third).is_none() && failed.read(first).is_none());
    let stamps = [first.stamp(), second.stamp(), third.stamp(), last.stamp()];
    same(&rt, stamps, [10, 11, 12, 14]);
    let bits = [0xffff_fffb, 1, 0xbfe0_0000_0000_0000];
    same(&rt, Some(*third), Rec::stamped(2, 12, &bits));
    let report = closed_cpu(&closed, 0).report;
    let counts = (report.offered, report.accepted, report.discarded);
    same(&rt, counts, (5, 4, 1));
    Ok(())
}
