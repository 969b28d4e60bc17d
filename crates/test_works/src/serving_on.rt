//! Of three lanes one returns at once. It goes on serving, so that over two slots the others get as many paths as they ask for; of each
//! two one is without records, so that its slot waits for all lanes. So do 63 of 64 lanes for the first. Works that go one after another
//! end, since none waits for one that hasn't begun.
ghost use Rattle.std.specs.Prelude.{◌≡◌};
ghost use Rattle.dspec.specs.Lanes.{place_of};

use crate::handing::schema;
use dspec::{
    Batch, Clock, Config, Decided, Enablings, Lane, RecordSink, Sink, Spoken, SystemClock, Work,
    Worker, closed_cpus, trace, trace_workers,
};
use std::process::Abort;
use std::sync::atomic::{AtomicU64, Ordering};
use std::test::Fail;
use std::thread;

/// How many paths of each kind a lane opens.
const PATHS: u64 = 300;

/// How often a lane asks for a path before it gives up.
const MOST_ASKS: u32 = 3_000_000;

/// It walks its paths, unless it is lane 0, and counts those that were decided as they should be.
fn walk(lane: &mut Lane<'_, Enablings>, due: &AtomicU64)
    ensures { place_of lane.new ≡ place_of lane.old }
{
    if lane.number() == 0 {
        return;
    }
    for _ in 0..PATHS {
        if !throws_one(lane) || !keeps_one(lane) {
            return;
        }
        due.fetch_add(1, Ordering::SeqCst);
    }
}

/// A path without records, which is thrown away. Whether one was opened in time.
fn throws_one(lane: &mut Lane<'_, Enablings>) -> bool
    ensures { place_of lane.new ≡ place_of lane.old }
{
    for _ in 0..MOST_ASKS {
        let path = lane.path();
        let is_opened = path.opening().id().raw() != 0;
        let told = path.discard(lane);
        if is_opened {
            return told == Decided::Thrown(0);
        }
        lane.service();
        thread::yield_now();
    }
    false
}

/// A path with one record, which is kept. Whether one was opened in time.
fn keeps_one(lane: &mut Lane<'_, Enablings>) -> bool
    ensures { place_of lane.new ≡ place_of lane.old }
{
    for _ in 0..MOST_ASKS {
        let path = lane.path();
        let is_opened = path.opening().id().raw() != 0;
        if is_opened {
            let spoken = path.record(lane, 1, 0, &[7]);
            return path.commit(lane) == Decided::Copied(1) && spoken == Ok(Spoken::Kept);
        }
        let _ = path.discard(lane);
        lane.service();
        thread::yield_now();
    }
    false
}

/// The same for each lane.
#[derive(Drop)]
struct Walks {
    due: AtomicU64,
}

impl Work<Enablings> for Walks {
    fn work(&self, lane: &mut Lane<'_, Enablings>) {
        walk(lane, &self.due);
    }
}

/// A lane of its own.
#[derive(Drop)]
struct Walker<'a> {
    due: &'a AtomicU64,
}

impl Worker<Enablings> for Walker<'_> {
    fn work(&mut self, lane: &mut Lane<'_, Enablings>) {
        walk(lane, self.due);
    }
}

/// Room for all records that a lane keeps.
fn config() -> Config {
    Config::of(3, 2, 16_384, 64)
}

#[test]
fn work_that_returned_serves(rt: HostRuntime) -> Result<(), Fail> {
    let work = Walks {
        due: AtomicU64::new(0),
    };
    let mut kept = RecordSink::new(rt.alloc());
    let closed = trace(&rt, rt.alloc(), &config(), schema()?, &work, &mut kept)?;
    assert!(rt; work.due.load(Ordering::SeqCst) == 600);
    assert!(rt; kept.records()?.len() == 600);
    for cpu in closed_cpus(&closed) {
        let each = if cpu.number == 0 { 0 } else { PATHS };
        let report = cpu.report;
        assert!(rt; report.offered == each && report.accepted == each);
    }
    Ok(())
}

#[test]
fn worker_that_returned_serves(rt: HostRuntime) -> Result<(), Fail> {
    let due = AtomicU64::new(0);
    let mut workers = Vec::new(rt.alloc());
    for _ in 0..3 {
        assert!(rt; workers.push(Walker { due: &due }).is_ok());
    }
    let mut kept = RecordSink::new(rt.alloc());
    trace_workers(
        &rt,
        rt.alloc(),
        &config(),
        schema()?,
        &mut workers,
        &mut kept,
    )?;
    assert!(rt; due.load(Ordering::SeqCst) == 600 && workers.len() == 3);
    assert!(rt; kept.records()?.len() == 600);
    Ok(())
}

/// How many paths the first of 64 lanes opens, one after another over one slot.
const PATHS_OF_MANY: u64 = 4;

/// After how many nanoseconds a session that goes on is given up: a lane that isn't counted would be waited for without end.
const MOST_NANOSECONDS: u64 = 40_000_000_000;

/// Ends the test where the session goes on for so long.
#[derive(Drop)]
struct Watches<'a, R: Abort> {
    rt: &'a R,
    clock: &'a SystemClock<'a>,
}

impl<R: Abort + Sync> Sink<Enablings> for Watches<'_, R> {
    fn batch(&mut self, _schema: &Enablings, _batch: &Batch) {
        let is_in_time = self.clock.stamp() < MOST_NANOSECONDS;
        assert!(self.rt; is_in_time, "a lane serves on and on");
    }
}

/// The first of many lanes opens paths and throws them away, which all others have to hear of; those have nothing to do.
#[derive(Drop)]
struct FirstOfMany {
    opened: u64,
}

impl Worker<Enablings> for FirstOfMany {
    fn work(&mut self, lane: &mut Lane<'_, Enablings>) {
        if lane.number() != 0 {
            return;
        }
        for _ask in 0..u64::MAX {
            let path = lane.path();
            if path.opening().id().raw() != 0 {
                self.opened = self.opened.wrapping_add(1);
            }
            path.discard(lane);
            if self.opened == PATHS_OF_MANY {
                break;
            }
            lane.service();
            thread::yield_now();
        }
    }
}

#[test]
fn last_of_many_workers_serves(rt: HostRuntime) -> Result<(), Fail> {
    let mut workers = Vec::new(rt.alloc());
    for _ in 0..64 {
        assert!(rt; workers.push(FirstOfMany { opened: 0 }).is_ok());
    }
    let config = Config::of(64, 1, 64, 64);
    let clock = SystemClock::start(&rt)?;
    let mut sink = Watches {
        rt: &rt,
        clock: &clock,
    };
    trace_workers(&rt, rt.alloc(), &config, schema()?, &mut workers, &mut sink)?;
    assert!(rt; workers.first().map(|worker| worker.opened) == Some(PATHS_OF_MANY));
    Ok(())
}

/// How many services a lane makes at the most while another work hasn't begun.
const MOST_SERVICES: u64 = 1 << 20;

/// Ends the test where a lane goes on serving after those: each batch is of one service.
#[derive(Drop)]
struct Counts<'a, R: Abort> {
    rt: &'a R,
    batches: u64,
}

impl<R: Abort + Sync> Sink<Enablings> for Counts<'_, R> {
    fn batch(&mut self, _schema: &Enablings, _batch: &Batch) {
        self.batches = self.batches.saturating_add(1);
        let is_within = self.batches < MOST_SERVICES + 16;
        assert!(self.rt; is_within, "a lane serves on and on");
    }
}

/// It has nothing to do.
#[derive(Drop)]
struct Idle;

impl Work<Enablings> for Idle {
    fn work(&self, _lane: &mut Lane<'_, Enablings>) {}
}

/// `tests/running-threads` runs it where one thread more can be made: there both works are in one.
#[test]
fn works_go_one_after_another(rt: HostRuntime) -> Result<(), Fail> {
    let config = Config::of(2, 1, 64, 64);
    let mut sink = Counts {
        rt: &rt,
        batches: 0,
    };
    let ended = trace(&rt, rt.alloc(), &config, schema()?, &Idle, &mut sink).is_ok();
    assert!(rt; ended);
    Ok(())
}
