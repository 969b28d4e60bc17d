//! Two lanes: each keeps a path, throws one away, and traces a record; one that the schema refuses isn't offered.

ghost use Rattle.std.specs.Prelude.{◌≡◌};
ghost use Rattle.dspec.specs.Lanes.{place_of};

use dspec::{
    BadRecord, Batch, Both, Config, Decided, Enablings, Field, Lane, Path, Policy, Rec, RecordSink,
    Report, Sink, Traced, Work, closed_cpu, closed_cpus, trace,
};
use std::sync::atomic::{AtomicU64, Ordering};
use std::test::Fail;

const CONFIG: Config = Config {
    cpus: 2,
    nspec: 4,
    bufsize: 64,
    specsize: 64,
    max_issues: 8,
    max_calls: 100,
    policy: Policy::Switch,
};

/// How many answers were due.
#[derive(Drop)]
struct Due {
    answers: AtomicU64,
}

impl Due {
    const fn none() -> Due {
        Due {
            answers: AtomicU64::new(0),
        }
    }

    /// Counts an answer that is due.
    fn count(&self, is_due: bool) {
        if is_due {
            self.answers.fetch_add(1, Ordering::SeqCst);
        }
    }

    fn answers(&self) -> u64 {
        self.answers.load(Ordering::SeqCst)
    }
}

/// What each lane does; it counts the answers that are due.
#[derive(Drop)]
struct Requests {
    due: Due,
}

impl Work<Enablings> for Requests {
    fn work(&self, lane: &mut Lane<'_, Enablings>) {
        let kept = lane.path();
        let _ = kept.record(lane, 1, 0, &[7]);
        let thrown = lane.path();
        let _ = thrown.record(lane, 1, 0, &[8]);
        self.due.count(kept.commit(lane) == Decided::Copied(1));
        self.due.count(thrown.discard(lane) == Decided::Thrown(1));
        self.due.count(lane.record(1, 0, &[9]) == Ok(Traced::Kept));
        self.due.count(lane.record(1, 0, &[256]) == Err(BadRecord));
        self.due.count(lane.report().offered == 3);
    }
}

/// A path of three records where two of eight bytes have room: its end is cut by one. It counts the answers that are due.
#[derive(Drop)]
struct LongPath {
    due: Due,
}

impl Work<Enablings> for LongPath {
    fn work(&self, lane: &mut Lane<'_, Enablings>) {
        let path = lane.path();
        let _ = path.record(lane, 1, 0, &[1]);
        let _ = path.record(lane, 1, 0, &[2]);
        self.due.count(path.dropped(lane) == 0);
        let _ = path.record(lane, 1, 0, &[3]);
        self.due.count(path.dropped(lane) == 1);
        self.due.count(path.commit(lane) == Decided::Copied(2));
    }
}

/// Two paths where one record of eight bytes has room: that of two stays open, that of one is committed.
#[derive(Drop)]
struct WaitingPath {
    due: Due,
}

// Records twice.
fn record_two(lane: &mut Lane<'_, Enablings>)
    ensures { place_of lane.new ≡ place_of lane.old }
{
    let _ = lane.record(1, 0, &[1]);
    let _ = lane.record(1, 0, &[1]);
}

impl WaitingPath {
    // The path that has no room waits, and is thrown away.
    fn end_large(&self, path: Path, lane: &mut Lane<'_, Enablings>)
        ensures { place_of lane.new ≡ place_of lane.old }
    {
        if let Err(path) = path.commit_if_room(lane) {
            self.due.count(path.discard(lane) == Decided::Thrown(2));
        }
    }

    // The path that has room is kept.
    fn end_small(&self, path: Path, lane: &mut Lane<'_, Enablings>)
        ensures { place_of lane.new ≡ place_of lane.old }
    {
        match path.commit_if_room(lane) {
            Ok(decided) => self.due.count(decided == Decided::Copied(1)),
            Err(path) => {
                let _ = path.discard(lane);
            }
        }
    }
}

impl Work<Enablings> for WaitingPath {
    fn work(&self, lane: &mut Lane<'_, Enablings>) {
        record_two(lane);
        record_two(lane);
        record_two(lane);
        let _ = lane.record(1, 0, &[1]);
        let large = lane.path();
        let _ = large.record(lane, 1, 0, &[2]);
        let _ = large.record(lane, 1, 0, &[3]);
        let small = lane.path();
        let _ = small.record(lane, 1, 0, &[4]);
        let id = large.opening().id();
        self.due.count(!lane.has_room_for(id));
        self.due.count(lane.has_room_for(small.opening().id()));
        self.due.count(lane.open_at(id.slot()) == Some(id));
        self.due.count(lane.open_at(4).is_none());
        self.end_large(large, lane);
        self.end_small(small, lane);
        self.due.count(lane.open_at(id.slot()).is_none());
        self.due.count(lane.report().drops == 0);
    }
}

/// How many bytes of records came.
#[derive(Drop)]
struct Counted {
    bytes: u64,
}

impl Sink<Enablings> for Counted {
    fn batch(&mut self, _schema: &Enablings, batch: &Batch) {
        self.bytes = self.bytes.wrapping_add(batch.buffer.bytes().len() as u64);
    }
}

#[test]
fn two_lanes(rt: HostRuntime) -> Result<(), Fail> {
    let mut schema = Enablings::new();
    assert!(rt; schema.enable(&[Field::One]).is_ok());
    let work = Requests { due: Due::none() };
    let mut counted = Counted { bytes: 0 };
    let Ok(closed) = trace(&rt, rt.alloc(), &CONFIG, schema, &work, &mut counted) else {
        return Err("no session".into());
    };
    assert!(rt; work.due.answers() == 10);
    assert!(rt; counted.bytes == 32);
    let report = Report {
        offered: 3,
        accepted: 2,
        discarded: 1,
        ..Report::default()
    };
    let mut numbers = 0..2;
    for cpu in closed_cpus(&closed) {
        assert!(rt; numbers.next() == Some(cpu.number) && *cpu.report == report);
    }
    assert!(rt; numbers.next().is_none());
    Ok(())
}

/// One lane records, and two sinks get the same, of which one keeps the records.
#[test]
fn records_are_kept(rt: HostRuntime) -> Result<(), Fail> {
    let mut schema = Enablings::new();
    assert!(rt; schema.enable(&[Field::One]).is_ok());
    let work = Requests { due: Due::none() };
    let mut sink = Both {
        first: RecordSink::new(rt.alloc()),
        second: Some(Counted { bytes: 0 }),
    };
    let config = Config::of(1, 4, 64, 64);
    let Ok(closed) = trace(&rt, rt.alloc(), &config, schema, &work, &mut sink) else {
        return Err("no session".into());
    };
    assert!(rt; closed_cpu(&closed, 0).report.accepted == 2);
    assert!(rt; sink.second.map(|counted| counted.bytes) == Some(16));
    let (Ok(own), Ok(others)) = (
        sink.first.by_cpu(rt.alloc(), 0),
        sink.first.by_cpu(rt.alloc(), 1),
    ) else {
        return Err("records are missing".into());
    };
    assert!(rt; own.len() == 2 && others.is_empty());
    let Ok(records) = sink.first.records() else {
        return Err("records are missing".into());
    };
    assert!(rt; records.len() == 2);
    assert!(rt; records.first().copied() == Rec::new(1, &[7]));
    assert!(rt; records.last().copied() == Rec::new(1, &[9]));
    Ok(())
}

/// A path that outgrows its buffer says so before it is kept.
#[test]
fn end_of_a_path_is_cut(rt: HostRuntime) -> Result<(), Fail> {
    let mut schema = Enablings::new();
    assert!(rt; schema.enable(&[Field::One]).is_ok());
    let work = LongPath { due: Due::none() };
    let config = Config::of(1, 4, 64, 16);
    let mut counted = Counted { bytes: 0 };
    let Ok(closed) = trace(&rt, rt.alloc(), &config, schema, &work, &mut counted) else {
        return Err("no session".into());
    };
    assert!(rt; work.due.answers() == 3);
    assert!(rt; counted.bytes == 16);
    assert!(rt; closed.report(0).specdropped == 1);
    Ok(())
}

/// A path without room is given back, and one with room is kept.
#[test]
fn path_waits_for_room(rt: HostRuntime) -> Result<(), Fail> {
    let mut schema = Enablings::new();
    assert!(rt; schema.enable(&[Field::One]).is_ok());
    let work = WaitingPath { due: Due::none() };
    let config = Config {
        cpus: 1,
        policy: Policy::Fill,
        ..CONFIG
    };
    let mut counted = Counted { bytes: 0 };
    let Ok(closed) = trace(&rt, rt.alloc(), &config, schema, &work, &mut counted) else {
        return Err("no session".into());
    };
    assert!(rt; work.due.answers() == 8);
    assert!(rt; counted.bytes == 64);
    assert!(rt; closed.report(0).accepted == 8);
    Ok(())
}
