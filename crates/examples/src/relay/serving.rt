ghost use Rattle.std.specs.Prelude.{◌≡◌};
ghost use Rattle.dspec.specs.Lanes.{place_of};

use crate::relay::belt::{Belt, REQUESTS};
use crate::relay::probes::RequestProbes;
use dspec::{Clock, Enablings, Handed, Lane, Opening, Path, Recording, Steps, SystemClock, Work};
use dspec_threads::{Anything, Verdicts};
use std::sync::atomic::{AtomicU64, Ordering};
use std::thread;

/// How often a worker looks for what it waits for before it gives up.
const MOST_LOOKS: u32 = 10_000_000;

/// How many microseconds a request takes: made up, from its number.
fn micros_of(request: u32) -> u32 {
    request.wrapping_mul(7919) % 1000
}

/// The server: lane 0 accepts requests, lane 1 answers them.
#[derive(Drop)]
pub struct Server<'a> {
    belt: Belt,
    clock: &'a SystemClock<'a>,
    probes: RequestProbes,
    verdicts: &'a Verdicts<Anything>,
    settled: AtomicU64,
}

impl<'a> Server<'a> {
    /// No request was accepted yet.
    pub fn new(
        belt: Belt,
        clock: &'a SystemClock<'a>,
        probes: RequestProbes,
        verdicts: &'a Verdicts<Anything>,
    ) -> Server<'a> {
        Server {
            belt,
            clock,
            probes,
            verdicts,
            settled: AtomicU64::new(0),
        }
    }

    /// What a worker does between two requests: its service, and what the reader said.
    fn turn(&self, lane: &mut Lane<'_, Enablings>)
        ensures { place_of lane.new ≡ place_of lane.old }
    {
        lane.service();
        let settled = self.verdicts.settle(lane);
        self.settled.fetch_add(settled as u64, Ordering::SeqCst);
        thread::yield_now();
    }

    /// Turns until the paths of all requests are settled.
    fn settle_all(&self, lane: &mut Lane<'_, Enablings>)
        ensures { place_of lane.new ≡ place_of lane.old }
    {
        for _look in 0..MOST_LOOKS {
            if self.settled.load(Ordering::SeqCst) >= REQUESTS as u64 {
                break;
            }
            self.turn(lane);
        }
    }

    /// Opens a path, once a slot is free.
    fn open(&self, lane: &mut Lane<'_, Enablings>) -> Path
        ensures { place_of lane.new ≡ place_of lane.old }
    {
        for _look in 0..MOST_LOOKS {
            let path = lane.path();
            if let Opening::Id(_) = path.opening() {
                return path;
            }
            path.discard(lane);
            self.turn(lane);
        }
        lane.path()
    }

    /// Accepts a request, and hands its path on.
    fn accept(&self, lane: &mut Lane<'_, Enablings>, request: u32)
        ensures { place_of lane.new ≡ place_of lane.old }
    {
        let Ok(accepted) = self.probes.accepted.on(lane) else {
            return;
        };
        let path = self.open(lane).hand();
        let mut steps = Steps {
            lane,
            clock: self.clock,
            path,
        };
        steps.record(accepted, (request,));
        self.belt.put(request, steps.hand());
    }

    /// The path of a request, once it was handed on.
    fn await_path(&self, lane: &mut Lane<'_, Enablings>, request: u32) -> Option<Handed>
        ensures { place_of lane.new ≡ place_of lane.old }
    {
        for _look in 0..MOST_LOOKS {
            if let Some(handed) = self.belt.get(request) {
                return Some(handed);
            }
            self.turn(lane);
        }
        None
    }

    /// Takes up the path of a request, answers it, and leaves it to the reader what becomes of the path.
    fn answer(&self, lane: &mut Lane<'_, Enablings>, request: u32)
        ensures { place_of lane.new ≡ place_of lane.old }
    {
        let (Ok(answered), Ok(ended)) = (self.probes.answered.on(lane), self.probes.ended.on(lane))
        else {
            return;
        };
        let Some(path) = self.await_path(lane, request) else {
            return;
        };
        let micros = micros_of(request);
        let mut steps = Steps {
            lane,
            clock: self.clock,
            path,
        };
        steps.record(answered, (request, micros));
        let path = steps.hand().raw();
        ended.record(lane, self.clock.stamp(), (path, micros));
    }

    fn accept_all(&self, lane: &mut Lane<'_, Enablings>)
        ensures { place_of lane.new ≡ place_of lane.old }
    {
        for request in 0..REQUESTS as u32 {
            self.accept(lane, request);
            self.turn(lane);
        }
    }

    fn answer_all(&self, lane: &mut Lane<'_, Enablings>)
        ensures { place_of lane.new ≡ place_of lane.old }
    {
        for request in 0..REQUESTS as u32 {
            self.answer(lane, request);
            self.turn(lane);
        }
        self.settle_all(lane);
    }
}

impl<'a> Work<Enablings> for Server<'a> {
    fn work(&self, lane: &mut Lane<'_, Enablings>) {
        if lane.number() == 0 {
            self.accept_all(lane);
            return;
        }
        self.answer_all(lane);
    }
}
