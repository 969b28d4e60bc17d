//! Paths that go from lane to lane, and some that don't arrive.
ghost use Rattle.std.specs.Prelude.{◌≡◌};
ghost use Rattle.dspec.specs.Lanes.{place_of};

use dspec::{
    Config, Decided, Enablings, Field, Handed, Lane, Opening, Path, Rec, RecordSink, Report,
    Spoken, Work, closed_cpu, trace,
};
use std::sync::atomic::{AtomicU64, Ordering};
use std::test::Fail;
use std::thread;

/// How often a lane looks for what it waits for before it gives up.
const MOST_LOOKS: u32 = 3_000_000;

/// Lane 0 opens a path and hands it on by a word, lane 1 takes it up and keeps it. It counts the answers that are due.
#[derive(Drop)]
struct Relay {
    word: AtomicU64,
    due: AtomicU64,
}

impl Relay {
    /// Counts an answer that is due.
    fn count(&self, is_due: bool) {
        self.due.fetch_add(u64::from(is_due), Ordering::SeqCst);
    }

    /// The word, once it was handed on.
    fn handed(&self) -> Handed {
        for _look in 0..MOST_LOOKS {
            if self.word.load(Ordering::SeqCst) != 0 {
                break;
            }
            thread::yield_now();
        }
        Handed::from_raw(self.word.load(Ordering::SeqCst))
    }

    /// Services until one that was decided elsewhere is settled.
    fn settle(&self, lane: &mut Lane<'_, Enablings>)
        ensures { place_of lane.new ≡ place_of lane.old }
    {
        for _look in 0..MOST_LOOKS {
            if lane.service().settled == 1 {
                self.count(true);
                break;
            }
            thread::yield_now();
        }
    }

    fn opens(&self, lane: &mut Lane<'_, Enablings>)
        ensures { place_of lane.new ≡ place_of lane.old }
    {
        let path = lane.path();
        self.count(path.record(lane, 1, 0, &[7]) == Ok(Spoken::Kept));
        self.word.store(path.hand().raw(), Ordering::SeqCst);
        self.settle(lane);
    }

    fn keeps(&self, lane: &mut Lane<'_, Enablings>)
        ensures { place_of lane.new ≡ place_of lane.old }
    {
        let path = Path::take(self.handed());
        self.count(path.record(lane, 1, 0, &[8]) == Ok(Spoken::Kept));
        self.count(path.commit(lane) == Decided::Copied(1));
    }
}

impl Work<Enablings> for Relay {
    fn work(&self, lane: &mut Lane<'_, Enablings>) {
        if lane.number() == 0 {
            self.opens(lane);
            return;
        }
        self.keeps(lane);
    }
}

/// Hands a path on that nobody takes up.
#[derive(Drop)]
struct Forgets {
    word: AtomicU64,
}

impl Work<Enablings> for Forgets {
    fn work(&self, lane: &mut Lane<'_, Enablings>) {
        let path = lane.path();
        let _ = path.record(lane, 1, 0, &[7]);
        self.word.store(path.hand().raw(), Ordering::SeqCst);
    }
}

/// Hands a path on for which there was no slot.
#[derive(Drop)]
struct NoneThere {
    due: AtomicU64,
}

impl NoneThere {
    fn count(&self, is_due: bool) {
        self.due.fetch_add(u64::from(is_due), Ordering::SeqCst);
    }
}

impl Work<Enablings> for NoneThere {
    fn work(&self, lane: &mut Lane<'_, Enablings>) {
        let first = lane.path();
        let handed = lane.path().hand();
        self.count(handed.raw() == 0 && handed == Handed::from_raw(0));
        let none = Path::take(handed);
        self.count(none.opening() == Opening::Unavailable);
        self.count(none.record(lane, 1, 0, &[9]) == Ok(Spoken::Void));
        self.count(none.commit(lane) == Decided::Void);
        let again = Path::take(first.hand());
        self.count(again.record(lane, 1, 0, &[7]) == Ok(Spoken::Kept));
        self.count(again.discard(lane) == Decided::Thrown(1));
    }
}

/// Records of one byte.
pub fn schema() -> Result<Enablings, Fail> {
    let mut schema = Enablings::new();
    if schema.enable(&[Field::One]).is_err() {
        return Err("no enabling".into());
    }
    Ok(schema)
}

/// The parts of both lanes arrive: the one that keeps the path copies its own, the other one its own at its next service.
#[test]
fn path_goes_on(rt: HostRuntime) -> Result<(), Fail> {
    let work = Relay {
        word: AtomicU64::new(0),
        due: AtomicU64::new(0),
    };
    let config = Config::of(2, 2, 64, 64);
    let mut kept = RecordSink::new(rt.alloc());
    let closed = trace(&rt, rt.alloc(), &config, schema()?, &work, &mut kept)?;
    let records = kept.records()?;
    assert!(rt; work.due.load(Ordering::SeqCst) == 4);
    let report = Report {
        offered: 1,
        accepted: 1,
        ..Report::default()
    };
    assert!(rt;
        *closed_cpu(&closed, 0).report == report && *closed_cpu(&closed, 1).report == report
    );
    assert!(rt; records.len() == 2);
    let (mut seven, mut eight) = (0u32, 0u32);
    for rec in records {
        seven = seven.wrapping_add(u32::from(Some(rec) == Rec::new(1, &[7])));
        eight = eight.wrapping_add(u32::from(Some(rec) == Rec::new(1, &[8])));
    }
    assert!(rt; seven == 1 && eight == 1);
    Ok(())
}

/// A path that nobody takes up is held, and at the close abandoned.
#[test]
fn path_is_forgotten(rt: HostRuntime) -> Result<(), Fail> {
    let work = Forgets {
        word: AtomicU64::new(0),
    };
    let config = Config::of(1, 2, 64, 64);
    let mut kept = RecordSink::new(rt.alloc());
    let closed = trace(&rt, rt.alloc(), &config, schema()?, &work, &mut kept)?;
    assert!(rt; work.word.load(Ordering::SeqCst) == 1);
    assert!(rt; kept.records()?.is_empty());
    let report = Report {
        offered: 1,
        held: 1,
        ..Report::default()
    };
    assert!(rt; *closed_cpu(&closed, 0).report == report);
    Ok(())
}

/// A path for which there was no slot is handed on as 0 and taken up as none.
#[test]
fn no_path_is_handed_on(rt: HostRuntime) -> Result<(), Fail> {
    let work = NoneThere {
        due: AtomicU64::new(0),
    };
    let config = Config::of(1, 1, 64, 64);
    let mut kept = RecordSink::new(rt.alloc());
    let closed = trace(&rt, rt.alloc(), &config, schema()?, &work, &mut kept)?;
    assert!(rt; work.due.load(Ordering::SeqCst) == 6);
    let report = Report {
        offered: 2,
        discarded: 1,
        void: 1,
        unavailable: 1,
        ..Report::default()
    };
    assert!(rt; *closed_cpu(&closed, 0).report == report);
    Ok(())
}
