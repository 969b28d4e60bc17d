ghost use Rattle.std.specs.Prelude.{◌≡◌};
ghost use Rattle.dspec.specs.Lanes.{place_of};
ghost use Rattle.dspec_threads.specs.Waits.{ServesWithin, ServesAgain};

use dspec::Lane;
use dspec_cpu::{Cpu, Listed};
use dspec_record::Schema;
use std::sync::atomic::{AtomicU64, Ordering};
use std::thread;

/// Where works meet at their ends. On threads of a program's own a lane makes no services after its work, and each slot that waits for
/// its CPU stays taken: so a work that ends before the others waits here, and its lane goes on serving until all have come. `trace` and
/// `trace_workers` serve after each work by themselves. Whoever waits has a reference to it.
/// Every work has to come, also one that ends early by a fault: the others serve for it as often as they were told. No contract says how
/// many have come, since any thread may come at any time.
#[derive(Drop)]
pub struct Barrier {
    works: u64,
    came: AtomicU64,
}

impl Barrier {
    /// Of so many works, of which none has come.
    pub fn of(works: u32) -> Barrier
        ensures { result.works ≡ works }
    {
        Barrier {
            works: u64::from(works),
            came: AtomicU64::new(0),
        }
    }

    // Whether all have come.
    fn is_whole(&self) -> bool {
        self.came.load(Ordering::SeqCst) >= self.works
    }

    // A service.
    fn serve<S: Schema>(lane: &mut Lane<'_, S>)
        ensures same { place_of lane.new ≡ place_of lane.old }
        ensures serves { ServesAgain ⟦<Cpu<S> as Listed>⟧.has_list lane.old lane.new }
    {
        lane.service();
        thread::yield_now();
    }

    /// Comes, and waits for the others: it makes at most so many services of the lane, with a look after each. Answers whether all came.
    pub fn wait<S: Schema>(&self, lane: &mut Lane<'_, S>, services: u64) -> bool
        ensures same { place_of lane.new ≡ place_of lane.old }
        ensures serves { ServesWithin ⟦<Cpu<S> as Listed>⟧.has_list services lane.old lane.new }
    {
        self.came.fetch_add(1, Ordering::SeqCst);
        for _ in 0..services {
            if self.is_whole() {
                break;
            }
            Barrier::serve(lane);
        }
        self.is_whole()
    }
}
