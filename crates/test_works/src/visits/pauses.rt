//! The consumer pauses between its rounds as the sink says, and lets another thread run where the sink says nothing. Whether it does no
//! test can see by itself: `tests/running-threads` counts the calls of the system by which a thread lets others run.
use crate::handing::schema;
use dspec::{Batch, Both, Config, Enablings, Lane, Sink, Work, trace};
use std::alloc::Global;
use std::sync::atomic::{AtomicU64, Ordering};
use std::test::Fail;
use std::thread;
use std::thread::Threads;

/// How often a work looks for a pause before it gives up, with a yield after each look.
const MOST_LOOKS: u32 = 3_000_000;

/// How many services a work makes before it gives up, with no yield between them.
const MOST_SERVICES: u32 = 100_000_000;

/// Counts the pauses.
#[derive(Drop)]
struct Counts<'a> {
    pauses: &'a AtomicU64,
}

impl<'a> Sink<Enablings> for Counts<'a> {
    fn batch(&mut self, _schema: &Enablings, _batch: &Batch) {}

    fn pause(&self) {
        self.pauses.fetch_add(1, Ordering::SeqCst);
        thread::yield_now();
    }
}

/// Works until a pause was counted.
#[derive(Drop)]
struct Waits<'a> {
    pauses: &'a AtomicU64,
}

impl<'a> Work<Enablings> for Waits<'a> {
    fn work(&self, _lane: &mut Lane<'_, Enablings>) {
        for _ in 0..MOST_LOOKS {
            if self.pauses.load(Ordering::SeqCst) > 0 {
                return;
            }
            thread::yield_now();
        }
    }
}

/// A session whose work ends once the sink has paused; of two sinks the first says how.
#[test]
fn the_sink_says_how_to_pause(rt: HostRuntime) -> Result<(), Fail> {
    let pauses = AtomicU64::new(0);
    let others = AtomicU64::new(0);
    let mut sink = Both {
        first: Counts { pauses: &pauses },
        second: Counts { pauses: &others },
    };
    let work = Waits { pauses: &pauses };
    let config = Config::of(1, 4, 64, 64);
    let ended = trace(&rt, rt.alloc(), &config, schema()?, &work, &mut sink).is_ok();
    assert!(rt; ended);
    assert!(rt; pauses.load(Ordering::SeqCst) > 0);
    assert!(rt; others.load(Ordering::SeqCst) == 0);
    Ok(())
}

/// Says nothing of pauses.
#[derive(Drop)]
struct Silent;

impl Sink<Enablings> for Silent {
    fn batch(&mut self, _schema: &Enablings, _batch: &Batch) {}
}

/// How often the work switches its buffers: once in a round of the consumer's, which has to ask for it.
const SWITCHES: u32 = 20;

/// Works until its buffers were switched so often. It lets nobody else run.
#[derive(Drop)]
struct Spins<'a> {
    done: &'a AtomicU64,
}

impl<'a> Work<Enablings> for Spins<'a> {
    fn work(&self, lane: &mut Lane<'_, Enablings>) {
        let mut sealed = 0u32;
        for _service in 0..MOST_SERVICES {
            sealed = sealed.saturating_add(u32::from(lane.service().sealed));
            if sealed == SWITCHES {
                self.done.fetch_add(1, Ordering::SeqCst);
                break;
            }
        }
    }
}

/// A session whose work spins; whether that got what it waits for.
fn spun<R: Threads + Sync, K: Sink<Enablings>>(
    rt: &R,
    alloc: Global,
    mut sink: K,
) -> Result<bool, Fail> {
    let done = AtomicU64::new(0);
    let work = Spins { done: &done };
    let config = Config::of(1, 1, 64, 64);
    if trace(rt, alloc, &config, schema()?, &work, &mut sink).is_err() {
        return Err("no session".into());
    }
    Ok(done.load(Ordering::SeqCst) == 1)
}

#[test]
fn a_silent_sink_lets_others_run(rt: HostRuntime) -> Result<(), Fail> {
    assert!(rt; spun(&rt, rt.alloc(), Silent)?);
    Ok(())
}

#[test]
fn no_sink_lets_others_run(rt: HostRuntime) -> Result<(), Fail> {
    let none: Option<Silent> = None;
    assert!(rt; spun(&rt, rt.alloc(), none)?);
    Ok(())
}
