ghost use Rattle.std.specs.Prelude.{◌≡◌};
ghost use Rattle.dspec.specs.Lanes.{place_of};
ghost use Rattle.dspec.specs.Walks.{walk_of};

use crate::kv::probes::StoreProbes;
use dspec::{Clock, Enablings, Lane, Steps, SystemClock, Worker};
use std::sync::atomic::{AtomicU64, Ordering};

/// The values of the keys 0 to 7, which all workers share.
pub type Table = [AtomicU64; 8];

/// A worker: what all share, and how many of its requests failed.
#[derive(Drop)]
pub struct Server<'a, 'c> {
    table: &'a Table,
    clock: &'a SystemClock<'c>,
    probes: StoreProbes,
    pub failed: u32,
}

impl<'a, 'c> Server<'a, 'c> {
    pub fn new(table: &'a Table, clock: &'a SystemClock<'c>, probes: StoreProbes) -> Self {
        Server {
            table,
            clock,
            probes,
            failed: 0,
        }
    }

    /// Adds to the value of a key; false where there is no such key.
    fn add(&self, steps: &mut Steps<'_, '_, SystemClock<'c>>, key: u32, amount: u64) -> bool
        ensures { walk_of steps.new ≡ walk_of steps.old }
    {
        let table = self.table;
        let Some(value) = table.get(key as usize) else {
            steps.try_record(self.probes.missing, (key,));
            return false;
        };
        let before = value.fetch_add(amount, Ordering::SeqCst);
        steps.try_record(self.probes.added, (key, amount, before));
        true
    }

    /// Serves a request: it adds to two keys. Its path is kept where it failed or was slow. False where it failed.
    fn serve(&self, lane: &mut Lane<'_, Enablings>, request: u32) -> bool
        ensures { place_of lane.new ≡ place_of lane.old }
    {
        let (worker, clock, begun) = (lane.number(), self.clock, self.clock.stamp());
        let path = lane.path().hand();
        let mut steps = Steps { lane, clock, path };
        steps.try_record(self.probes.begin, (request, worker));
        let done = self.add(&mut steps, request % 7, 1) && self.add(&mut steps, request % 9, 1);
        let micros = clock.stamp().saturating_sub(begun) / 1000;
        steps.try_record(self.probes.end, (request, micros));
        steps.end(!done || micros > 500);
        done
    }
}

impl Worker<Enablings> for Server<'_, '_> {
    fn work(&mut self, lane: &mut Lane<'_, Enablings>) {
        for request in 0..200 {
            if !self.serve(lane, request) {
                self.failed = self.failed.wrapping_add(1);
            }
            lane.service();
        }
    }
}
