ghost use Rattle.std.specs.Prelude.{◌≡◌};
ghost use Rattle.dspec_cpu.specs.Called.{called};
ghost use Rattle.dspec.specs.{Lanes.place_of, Serving.ServedOn, Serving.ServedOnce};

use crate::lane::Lane;
use dspec_record::Schema;
use std::sync::atomic::{AtomicU64, Ordering};
use std::thread;

/// The most services of a lane whose work has returned before every other work has begun. A thread may have several parts, one after
/// another, where no more threads can be made: then the others wait for this one to end.
const MOST_BEFORE_ALL: u64 = 1 << 20;

/// How many works of a session have begun, and how many of those have returned. Each thread that has a work counts it.
#[derive(Drop)]
pub(crate) struct WorkCounts {
    works: u64,
    begun: AtomicU64,
    returned: AtomicU64,
}

impl WorkCounts {
    /// Of so many works, of which none has begun.
    pub(crate) fn of(works: usize) -> WorkCounts {
        WorkCounts {
            works: works as u64,
            begun: AtomicU64::new(0),
            returned: AtomicU64::new(0),
        }
    }

    /// One work more begins.
    pub(crate) fn begin(&self) {
        self.begun.fetch_add(1, Ordering::SeqCst);
    }

    // Whether all have begun.
    fn all_begun(&self) -> bool {
        self.begun.load(Ordering::SeqCst) >= self.works
    }

    // Whether all have returned.
    fn all_returned(&self) -> bool {
        self.returned.load(Ordering::SeqCst) >= self.works
    }

    /// One work more has returned: its lane makes services, one after another, until every work has returned. While some have not begun,
    /// it makes at most `MOST_BEFORE_ALL`, and then ends.
    pub(crate) fn serve_on<S: Schema>(&self, lane: &mut Lane<'_, S>)
        ensures same { place_of lane.new ≡ place_of lane.old }
        ensures served { ServedOn (called lane.old.cpu.now) (called lane.new.cpu.now) }
    {
        self.returned.fetch_add(1, Ordering::SeqCst);
        for _early in 0..MOST_BEFORE_ALL {
            if self.all_begun() {
                break;
            }
            serve(lane);
        }
        if !self.all_begun() {
            return;
        }
        for _late in 0..u64::MAX {
            if self.all_returned() {
                break;
            }
            serve(lane);
        }
    }
}

// One service; then another thread may run.
fn serve<S: Schema>(lane: &mut Lane<'_, S>)
    ensures same { place_of lane.new ≡ place_of lane.old }
    ensures served { ServedOnce (called lane.old.cpu.now) (called lane.new.cpu.now) }
{
    lane.service();
    thread::yield_now();
}
