//! Paths that are walked by `Steps`: stamped by a clock of the test's own, ended and handed on.
ghost use Rattle.std.specs.Prelude.{◌≡◌};
ghost use Rattle.dspec.specs.Lanes.{place_of};

use crate::same::same;
use dspec::{
    Clock, Config, Decided, Enablings, Handed, Lane, Probe, Probes, Rec, RecordSink, Recording,
    Spoken, Steps, Work, closed_cpu, trace,
};
use std::sync::atomic::{AtomicU64, Ordering};
use std::test::Fail;

/// Counts its stamps, from 10 on.
#[derive(Drop)]
struct Ticks {
    next: AtomicU64,
}

impl Clock for Ticks {
    fn stamp(&self) -> u64 {
        self.next.fetch_add(1, Ordering::SeqCst)
    }
}

/// What the CPU does. It counts the answers that are due.
#[derive(Drop)]
struct Walks {
    query: Probe<(u64, u32)>,
    clock: Ticks,
    due: AtomicU64,
}

impl Walks {
    /// Counts an answer that is due.
    fn count(&self, is_due: bool) {
        self.due.fetch_add(u64::from(is_due), Ordering::SeqCst);
    }

    /// A path of two steps, which is kept or thrown away.
    fn ends(&self, lane: &mut Lane<'_, Enablings>, keep: bool, due: Decided)
        ensures { place_of lane.new ≡ place_of lane.old }
    {
        let Ok(query) = self.query.on(lane) else {
            return;
        };
        let path = lane.path().hand();
        let mut steps = Steps {
            lane,
            clock: &self.clock,
            path,
        };
        self.count(steps.record(query, (1, 500)) == Spoken::Kept);
        steps.record(query, (2, 600));
        self.count(steps.end(keep) == due);
    }

    /// A path of one step, which is handed on.
    fn hands(&self, lane: &mut Lane<'_, Enablings>) -> Handed
        ensures { place_of lane.new ≡ place_of lane.old }
    {
        let path = lane.path().hand();
        let Ok(query) = self.query.on(lane) else {
            return path;
        };
        let mut steps = Steps {
            lane,
            clock: &self.clock,
            path,
        };
        steps.record(query, (3, 700));
        steps.hand()
    }

    /// One more step of a path that was handed on, which is kept.
    fn takes(&self, lane: &mut Lane<'_, Enablings>, handed: Handed)
        ensures { place_of lane.new ≡ place_of lane.old }
    {
        let Ok(query) = self.query.on(lane) else {
            return;
        };
        let mut steps = Steps {
            lane,
            clock: &self.clock,
            path: handed,
        };
        steps.record(query, (4, 800));
        self.count(steps.end(true) == Decided::Copied(2));
    }
}

impl Work<Enablings> for Walks {
    fn work(&self, lane: &mut Lane<'_, Enablings>) {
        self.ends(lane, true, Decided::Copied(2));
        self.ends(lane, false, Decided::Thrown(2));
        let handed = self.hands(lane);
        self.takes(lane, handed);
    }
}

#[test]
fn steps_of_paths(rt: HostRuntime) -> Result<(), Fail> {
    let mut probes = Probes::new(rt.alloc());
    let query: Probe<(u64, u32)> = probes.probe("query", &["request", "micros"])?;
    let work = Walks {
        query,
        clock: Ticks {
            next: AtomicU64::new(10),
        },
        due: AtomicU64::new(0),
    };
    let (config, schema) = (Config::of(1, 2, 256, 128), probes.enablings());
    let mut kept = RecordSink::new(rt.alloc());
    let closed = trace(&rt, rt.alloc(), &config, schema, &work, &mut kept)?;
    same(&rt, work.due.load(Ordering::SeqCst), 5);
    let records = kept.records()?;
    let [first, second, third, last] = records.as_slice() else {
        return Err(Fail::from("four records"));
    };
    let found = [*first, *second, *third, *last].map(Some);
    let due = [
        Rec::stamped(1, 10, &[1, 500]),
        Rec::stamped(1, 11, &[2, 600]),
        Rec::stamped(1, 14, &[3, 700]),
        Rec::stamped(1, 15, &[4, 800]),
    ];
    assert!(rt; found == due);
    let report = closed_cpu(&closed, 0).report;
    assert!(rt; report.offered == 6 && report.accepted == 4 && report.discarded == 2);
    Ok(())
}
