use dspec::{Enablings, Lane, Stop, Worker};
use std::alloc::Global;
use std::sync::Arc;
use std::thread;

/// A worker that counts: each number is a record of a path, and every third path is kept.
#[derive(Drop)]
pub struct Counter {
    stop: Arc<Stop, Global>,
    epid: u32,
    done: u64,
}

impl Counter {
    /// One that works until it is stopped.
    pub fn new(stop: Arc<Stop, Global>, epid: u32) -> Counter {
        Counter {
            stop,
            epid,
            done: 0,
        }
    }

    /// How many numbers it has counted.
    pub fn done(&self) -> u64 {
        self.done
    }
}

impl Worker<Enablings> for Counter {
    fn work(&mut self, lane: &mut Lane<'_, Enablings>) {
        for number in 0..u64::MAX {
            if self.stop.is_set() {
                break;
            }
            let path = lane.path();
            let _ = path.record(lane, self.epid, 0, &[number]);
            if number % 3 == 0 {
                path.commit(lane);
            } else {
                path.discard(lane);
            }
            lane.service();
            self.done = number.wrapping_add(1);
            thread::yield_now();
        }
    }
}
