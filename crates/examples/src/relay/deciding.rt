use dspec::{Batch, Enablings, Handed, Probe, Rec, Sink, read_all};
use dspec_threads::{Anything, Judge};

/// A request that takes more microseconds is slow, and its path is kept.
const SLOW: u32 = 874;

/// The sink that decides, by what the records of ended requests say.
#[derive(Drop)]
pub struct Decider {
    judge: Judge<Anything>,
    ended: Probe<(u64, u32)>,
    kept: u64,
    thrown: u64,
}

impl Decider {
    /// Nothing was decided yet.
    pub fn new(judge: Judge<Anything>, ended: Probe<(u64, u32)>) -> Decider {
        Decider {
            judge,
            ended,
            kept: 0,
            thrown: 0,
        }
    }

    /// Of how many paths it said that they are to be kept.
    pub fn kept(&self) -> u64 {
        self.kept
    }

    /// Of how many it said that they are to be thrown away.
    pub fn thrown(&self) -> u64 {
        self.thrown
    }

    /// Decides a path where a record of this lane says that its request ended.
    fn decide(&mut self, lane: u32, rec: &Rec) {
        let Some((path, micros)) = self.ended.read(rec) else {
            return;
        };
        let slow = micros > SLOW;
        if !self.judge.say(lane, Handed::from_raw(path), slow) {
            return;
        }
        if slow {
            self.kept = self.kept.saturating_add(1);
            return;
        }
        self.thrown = self.thrown.saturating_add(1);
    }
}

impl Sink<Enablings> for Decider {
    fn batch(&mut self, schema: &Enablings, batch: &Batch) {
        let Ok(records) = read_all(schema, batch.buffer.bytes()) else {
            return;
        };
        for rec in records {
            self.decide(batch.cpu, &rec);
        }
    }
}
