use crate::pool::counting::Counter;
use crossbeam_channel::Sender;
use dspec_threads::FreeLane;
use std::alloc::Global;
use std::sync::Wait;

/// A job of the pool: a lane, who works on it, and where that is sent then.
#[derive(Drop)]
pub struct Job {
    pub lane: FreeLane,
    pub worker: Counter,
    pub done: Sender<Counter, Global>,
}

impl Job {
    /// Does it, in this thread.
    pub fn run<R: Wait>(self, rt: &R) {
        let Job { lane, worker, done } = self;
        let (mut lane, mut worker) = (lane, worker);
        lane.lend(&mut worker);
        lane.give_back();
        let _ = done.send(rt, worker);
    }
}
