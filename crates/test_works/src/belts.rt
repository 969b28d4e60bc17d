//! Paths over a belt on one lane: each comes out once, in order; a belt that is full says so, and so does a wait in vain.
ghost use Rattle.std.specs.Prelude.{◌≡◌};
ghost use Rattle.dspec.specs.Lanes.{place_of};

use crate::handing::schema;
use dspec::{Config, Enablings, Lane, Path, Rec, RecordSink, Work, closed_cpu, trace};
use dspec_deeds::Opening;
use dspec_threads::{belt, open_within};
use std::alloc::Global;
use std::sync::atomic::{AtomicU64, Ordering};
use std::test::Fail;

/// What a lane does. It counts the answers that are due.
#[derive(Drop)]
struct Hands {
    alloc: Global,
    due: AtomicU64,
}

impl Hands {
    /// Counts an answer that is due.
    fn count(&self, is_due: bool) {
        self.due.fetch_add(u64::from(is_due), Ordering::SeqCst);
    }

    /// A path of one record.
    fn opened(&self, lane: &mut Lane<'_, Enablings>, value: u64) -> Path
        ensures { place_of lane.new ≡ place_of lane.old }
    {
        let path = open_within(lane, 0);
        let _ = path.record(lane, 1, 0, &[value]);
        path
    }

    /// Whether there is a path that was opened. It is decided.
    fn is_ended(&self, lane: &mut Lane<'_, Enablings>, path: Option<Path>, keep: bool) -> bool
        ensures { place_of lane.new ≡ place_of lane.old }
    {
        let Some(path) = path else {
            return false;
        };
        let opened = path.opening().id().raw() != 0;
        match keep {
            true => path.commit(lane),
            false => path.discard(lane),
        };
        opened
    }

    /// Two of three paths go over a belt with room for two: the first is kept.
    fn over_a_belt(&self, lane: &mut Lane<'_, Enablings>)
        ensures { place_of lane.new ≡ place_of lane.old }
    {
        // names the type that a path holds
        let _named: Option<Opening> = None;
        let Ok((mut giver, mut taker)) = belt(self.alloc, 2) else {
            return;
        };
        let back = giver.give(self.opened(lane, 7)).err();
        self.count(!self.is_ended(lane, back, true));
        let back = giver.give(self.opened(lane, 8)).err();
        self.count(!self.is_ended(lane, back, true));
        let back = giver.give(self.opened(lane, 9)).err();
        self.count(self.is_ended(lane, back, false));
        self.count(taker.left(&mut giver) == 2);
        let path = taker.take();
        self.count(self.is_ended(lane, path, true));
        let path = taker.take_within(lane, 1);
        self.count(self.is_ended(lane, path, false));
        let path = taker.take();
        self.count(!self.is_ended(lane, path, true));
        let path = taker.take_within(lane, 3);
        self.count(!self.is_ended(lane, path, true));
    }

    /// The second path has no slot until the first one is decided.
    fn without_a_slot(&self, lane: &mut Lane<'_, Enablings>)
        ensures { place_of lane.new ≡ place_of lane.old }
    {
        let (first, second, third) = (
            open_within(lane, 2),
            open_within(lane, 2),
            open_within(lane, 2),
        );
        let none = open_within(lane, 2);
        self.count(!self.is_ended(lane, Some(none), false));
        self.count(self.is_ended(lane, Some(first), false));
        self.count(self.is_ended(lane, Some(second), false));
        self.count(self.is_ended(lane, Some(third), false));
    }
}

impl Work<Enablings> for Hands {
    fn work(&self, lane: &mut Lane<'_, Enablings>) {
        self.over_a_belt(lane);
        self.without_a_slot(lane);
    }
}

#[test]
fn paths_go_over_a_belt(rt: HostRuntime) -> Result<(), Fail> {
    let work = Hands {
        alloc: rt.alloc(),
        due: AtomicU64::new(0),
    };
    let config = Config::of(1, 3, 64, 64);
    let mut kept = RecordSink::new(rt.alloc());
    let closed = trace(&rt, rt.alloc(), &config, schema()?, &work, &mut kept)?;
    assert!(rt; work.due.load(Ordering::SeqCst) == 12);
    let records = kept.records()?;
    let [only] = records.as_slice() else {
        return Err(Fail::from("one record"));
    };
    assert!(rt; Some(*only) == Rec::new(1, &[7]));
    let report = closed_cpu(&closed, 0).report;
    assert!(rt; report.offered == 3 && report.accepted == 1 && report.discarded == 2);
    assert!(rt; report.unavailable == 3);
    Ok(())
}
