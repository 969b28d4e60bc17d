use dspec::{Batch, Enablings, Sink, Stop, read_all};
use std::alloc::Global;
use std::sync::Arc;

/// A sink that stops the workers once it has so many records.
#[derive(Drop)]
pub struct Enough {
    stop: Arc<Stop, Global>,
    records: u64,
}

/// How many records are enough.
const ENOUGH: u64 = 300;

impl Enough {
    /// It has none yet.
    pub fn new(stop: Arc<Stop, Global>) -> Enough {
        Enough { stop, records: 0 }
    }

    /// Whether it has so many.
    pub fn has_enough(&self) -> bool {
        self.records >= ENOUGH
    }
}

impl Sink<Enablings> for Enough {
    fn batch(&mut self, schema: &Enablings, batch: &Batch) {
        let Ok(records) = read_all(schema, batch.buffer.bytes()) else {
            return;
        };
        for _record in records {
            self.records = self.records.saturating_add(1);
        }
        if self.has_enough() {
            self.stop.set();
        }
    }
}
