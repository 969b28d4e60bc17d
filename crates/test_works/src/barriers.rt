//! Of two lanes one has nothing to do. Whether it waits for the other or returns, each of 1,000 discarded paths finds one of four slots free in
//! time.
ghost use Rattle.std.specs.Prelude.{◌≡◌};
ghost use Rattle.dspec.specs.Lanes.{place_of};

use dspec::{Config, Enablings, Field, Lane, RecordSink, Work, trace};
use dspec_threads::{Barrier, open_within};
use std::alloc::Global;
use std::sync::atomic::{AtomicU64, Ordering};
use std::test::Fail;
use std::thread::Threads;

/// The most asks for a slot.
const MOST_ASKS: u32 = 3_000_000;

/// What two lanes do. It counts the paths that were opened.
#[derive(Drop)]
struct Ends {
    barrier: Barrier,
    waits: bool,
    opened: AtomicU64,
}

impl Ends {
    fn walk(&self, lane: &mut Lane<'_, Enablings>)
        ensures { place_of lane.new ≡ place_of lane.old }
    {
        for _ in 0..1_000 {
            let path = open_within(lane, MOST_ASKS);
            let is_opened = path.opening().id().raw() != 0;
            path.discard(lane);
            if !is_opened {
                break;
            }
            self.opened.fetch_add(1, Ordering::SeqCst);
        }
    }
}

impl Work<Enablings> for Ends {
    fn work(&self, lane: &mut Lane<'_, Enablings>) {
        if lane.number() == 0 {
            self.walk(lane);
        }
        if self.waits {
            let _ = self.barrier.wait(lane, u64::MAX);
        }
    }
}

/// How many paths were opened.
fn opened<R: Threads + Sync>(rt: &R, alloc: Global, waits: bool) -> Result<u64, Fail> {
    let mut schema = Enablings::new();
    let Ok(_) = schema.enable(&[Field::One]) else {
        return Err(Fail::from("an enabling"));
    };
    let work = Ends {
        barrier: Barrier::of(2),
        waits,
        opened: AtomicU64::new(0),
    };
    let config = Config::of(2, 4, 64, 64);
    let mut kept = RecordSink::new(alloc);
    trace(rt, alloc, &config, schema, &work, &mut kept)?;
    Ok(work.opened.load(Ordering::SeqCst))
}

#[test]
fn a_lane_that_waits_serves(rt: HostRuntime) -> Result<(), Fail> {
    assert!(rt; opened(&rt, rt.alloc(), true)? == 1_000);
    Ok(())
}

#[test]
fn a_lane_that_returns_serves(rt: HostRuntime) -> Result<(), Fail> {
    assert!(rt; opened(&rt, rt.alloc(), false)? == 1_000);
    Ok(())
}

/// All have come, or one hasn't: then so many services are made, and no more.
#[derive(Drop)]
struct Alone {
    whole: Barrier,
    wanting: Barrier,
    due: AtomicU64,
}

impl Work<Enablings> for Alone {
    fn work(&self, lane: &mut Lane<'_, Enablings>) {
        let is_whole = self.whole.wait(lane, 0);
        self.due.fetch_add(u64::from(is_whole), Ordering::SeqCst);
        let is_whole = self.wanting.wait(lane, 3);
        self.due.fetch_add(u64::from(!is_whole), Ordering::SeqCst);
    }
}

#[test]
fn a_barrier_tells_whether_all_came(rt: HostRuntime) -> Result<(), Fail> {
    let work = Alone {
        whole: Barrier::of(1),
        wanting: Barrier::of(2),
        due: AtomicU64::new(0),
    };
    let config = Config::of(1, 1, 64, 64);
    let mut kept = RecordSink::new(rt.alloc());
    trace(&rt, rt.alloc(), &config, Enablings::new(), &work, &mut kept)?;
    assert!(rt; work.due.load(Ordering::SeqCst) == 2);
    Ok(())
}
