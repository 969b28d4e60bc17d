//! Verdicts on one lane: each is settled once, in order, and a ring that is full says so.
ghost use Rattle.std.specs.Prelude.{◌≡◌};
ghost use Rattle.dspec.specs.Lanes.{place_of};

use crate::handing::schema;
use dspec::{Config, Enablings, Handed, Lane, Rec, RecordSink, Report, Work, closed_cpu, trace};
use dspec_threads::{Anything, Verdict, board, pair};
use std::alloc::Global;
use std::sync::atomic::{AtomicU64, Ordering};
use std::test::Fail;

/// What is said of the path of this word.
fn verdict(path: u64, keep: bool) -> Verdict {
    let path = Handed::from_raw(path);
    Verdict { path, keep }
}

/// What a lane does. It counts the answers that are due.
#[derive(Drop)]
struct Settles {
    alloc: Global,
    due: AtomicU64,
}

impl Settles {
    /// Counts an answer that is due.
    fn count(&self, is_due: bool) {
        self.due.fetch_add(u64::from(is_due), Ordering::SeqCst);
    }

    /// A path of one record, handed on: its word.
    fn opened(&self, lane: &mut Lane<'_, Enablings>, value: u64) -> u64
        ensures { place_of lane.new ≡ place_of lane.old }
    {
        let path = lane.path();
        let _ = path.record(lane, 1, 0, &[value]);
        path.hand().raw()
    }

    /// By one ring: the second path is thrown away, the first one kept, and a third verdict has no room.
    fn by_a_ring(&self, lane: &mut Lane<'_, Enablings>)
        ensures { place_of lane.new ≡ place_of lane.old }
    {
        let Ok((mut sayer, mut settler)) = pair::<Anything>(self.alloc, 2) else {
            return;
        };
        let first = self.opened(lane, 7);
        let second = self.opened(lane, 8);
        self.count(sayer.say(verdict(second, false)));
        self.count(sayer.say(verdict(first, true)));
        self.count(!sayer.say(verdict(second, true)));
        self.count(settler.settle(lane) == 2);
        self.count(settler.settle(lane) == 0);
        self.count(sayer.say(verdict(second, true)));
        self.count(settler.left(&mut sayer) == 1);
    }

    /// By a board of one lane: a second lane isn't there.
    fn by_a_board(&self, lane: &mut Lane<'_, Enablings>)
        ensures { place_of lane.new ≡ place_of lane.old }
    {
        let Ok((mut judge, verdicts)) = board::<Anything>(self.alloc, 1, 1) else {
            return;
        };
        let third = self.opened(lane, 9);
        self.count(!judge.say(1, Handed::from_raw(third), true));
        self.count(verdicts.settle(lane) == 0);
        self.count(judge.say(0, Handed::from_raw(third), true));
        self.count(!judge.say(0, Handed::from_raw(third), false));
        self.count(verdicts.settle(lane) == 1);
        self.count(verdicts.settle(lane) == 0);
    }
}

impl Work<Enablings> for Settles {
    fn work(&self, lane: &mut Lane<'_, Enablings>) {
        self.by_a_ring(lane);
        self.by_a_board(lane);
    }
}

#[test]
fn verdicts_are_settled(rt: HostRuntime) -> Result<(), Fail> {
    let work = Settles {
        alloc: rt.alloc(),
        due: AtomicU64::new(0),
    };
    let config = Config::of(1, 4, 64, 64);
    let mut kept = RecordSink::new(rt.alloc());
    let closed = trace(&rt, rt.alloc(), &config, schema()?, &work, &mut kept)?;
    assert!(rt; work.due.load(Ordering::SeqCst) == 13);
    let records = kept.records()?;
    let [first, last] = records.as_slice() else {
        return Err(Fail::from("two records"));
    };
    assert!(rt; Some(*first) == Rec::new(1, &[7]) && Some(*last) == Rec::new(1, &[9]));
    let report = Report {
        discarded: 1,
        offered: 3,
        accepted: 2,
        ..Report::default()
    };
    assert!(rt; *closed_cpu(&closed, 0).report == report);
    Ok(())
}
