//! What the consumer owes the CPUs while they work, which no clause says: each is visited, its buffers come back, slots are cleaned, and
//! that goes on for as long as the work does. Each work here ends only once it got what it is owed.
mod pauses;

use crate::handing::schema;
use dspec::{Batch, Config, Enablings, Lane, Opening, Sink, Work, trace};
use std::alloc::Global;
use std::sync::atomic::{AtomicU64, Ordering};
use std::test::Fail;
use std::thread;
use std::thread::Threads;

/// How often a work looks for what it is owed before it gives up.
const MOST_LOOKS: u32 = 3_000_000;

/// Counts the CPUs from which a batch came, and the pauses.
#[derive(Drop)]
struct Seen<'a> {
    cpus: [bool; 64],
    count: &'a AtomicU64,
    pauses: &'a AtomicU64,
}

impl<'a> Sink<Enablings> for Seen<'a> {
    fn batch(&mut self, _schema: &Enablings, batch: &Batch) {
        let Some(seen) = self.cpus.get_mut(batch.cpu as usize) else {
            return;
        };
        if !*seen {
            *seen = true;
            self.count.fetch_add(1, Ordering::SeqCst);
        }
    }

    fn pause(&self) {
        self.pauses.fetch_add(1, Ordering::SeqCst);
        thread::yield_now();
    }
}

/// Works until a number was counted, and counts the lanes that got that far.
#[derive(Drop)]
struct Waits<'a> {
    count: &'a AtomicU64,
    wanted: u64,
    done: &'a AtomicU64,
}

impl<'a> Work<Enablings> for Waits<'a> {
    fn work(&self, lane: &mut Lane<'_, Enablings>) {
        for _look in 0..MOST_LOOKS {
            lane.service();
            if self.count.load(Ordering::SeqCst) >= self.wanted {
                self.done.fetch_add(1, Ordering::SeqCst);
                break;
            }
            thread::yield_now();
        }
    }
}

/// Works until its buffers were switched so often, each time into one that came back.
#[derive(Drop)]
struct Switches<'a> {
    wanted: u64,
    done: &'a AtomicU64,
}

impl<'a> Work<Enablings> for Switches<'a> {
    fn work(&self, lane: &mut Lane<'_, Enablings>) {
        let mut sealed = 0u64;
        for _look in 0..MOST_LOOKS {
            if lane.service().sealed {
                sealed = sealed.wrapping_add(1);
            }
            if sealed == self.wanted {
                self.done.fetch_add(1, Ordering::SeqCst);
                break;
            }
            thread::yield_now();
        }
    }
}

/// Opens the one slot so often, and throws its path away without a step: then it waits for a clean.
#[derive(Drop)]
struct Opens<'a> {
    wanted: u64,
    done: &'a AtomicU64,
}

impl<'a> Work<Enablings> for Opens<'a> {
    fn work(&self, lane: &mut Lane<'_, Enablings>) {
        let mut opened = 0u64;
        for _look in 0..MOST_LOOKS {
            let path = lane.path();
            if let Opening::Id(_) = path.opening() {
                opened = opened.wrapping_add(1);
            }
            path.discard(lane);
            lane.service();
            if opened == self.wanted {
                self.done.fetch_add(1, Ordering::SeqCst);
                break;
            }
            thread::yield_now();
        }
    }
}

/// A session of so many CPUs that do this work. Batches and pauses are counted.
fn session<R: Threads + Sync, W: Work<Enablings>>(
    rt: &R,
    alloc: Global,
    cpus: u32,
    work: &W,
    count: &AtomicU64,
    pauses: &AtomicU64,
) -> Result<(), Fail> {
    let mut sink = Seen {
        cpus: [false; 64],
        count,
        pauses,
    };
    let config = Config::of(cpus, 1, 64, 64);
    if trace(rt, alloc, &config, schema()?, work, &mut sink).is_err() {
        return Err("no session".into());
    }
    Ok(())
}

/// A session of one CPU, whose batches and pauses nobody asks for.
fn session_of_one<R: Threads + Sync, W: Work<Enablings>>(
    rt: &R,
    alloc: Global,
    work: &W,
) -> Result<(), Fail> {
    let (count, pauses) = (AtomicU64::new(0), AtomicU64::new(0));
    session(rt, alloc, 1, work, &count, &pauses)
}

/// All CPUs work at once, each until a batch of every one of them came: 64 threads, CPU 0 and CPU 63 among those visited.
#[test]
fn every_cpu_is_visited(rt: HostRuntime) -> Result<(), Fail> {
    let (count, pauses, done) = (AtomicU64::new(0), AtomicU64::new(0), AtomicU64::new(0));
    let work = Waits {
        count: &count,
        wanted: 64,
        done: &done,
    };
    session(&rt, rt.alloc(), 64, &work, &count, &pauses)?;
    assert!(rt; done.load(Ordering::SeqCst) == 64);
    Ok(())
}

/// The consumer makes more than a thousand rounds where the work goes on for so long.
#[test]
fn rounds_go_on(rt: HostRuntime) -> Result<(), Fail> {
    let (count, pauses, done) = (AtomicU64::new(0), AtomicU64::new(0), AtomicU64::new(0));
    let work = Waits {
        count: &pauses,
        wanted: 1500,
        done: &done,
    };
    session(&rt, rt.alloc(), 1, &work, &count, &pauses)?;
    assert!(rt; done.load(Ordering::SeqCst) == 1);
    Ok(())
}

/// A CPU has two principal buffers: it can seal a sixth batch only where others came back.
#[test]
fn buffers_come_back(rt: HostRuntime) -> Result<(), Fail> {
    let done = AtomicU64::new(0);
    let work = Switches {
        wanted: 6,
        done: &done,
    };
    session_of_one(&rt, rt.alloc(), &work)?;
    assert!(rt; done.load(Ordering::SeqCst) == 1);
    Ok(())
}

/// A slot whose speculation was discarded with no caller waits for every CPU, so that it is given out again only after a clean.
#[test]
fn slots_are_cleaned(rt: HostRuntime) -> Result<(), Fail> {
    let done = AtomicU64::new(0);
    let work = Opens {
        wanted: 3,
        done: &done,
    };
    session_of_one(&rt, rt.alloc(), &work)?;
    assert!(rt; done.load(Ordering::SeqCst) == 1);
    Ok(())
}
