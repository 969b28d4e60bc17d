use crate::kv::probes::StoreProbes;
use dspec::{Batch, Enablings, Sink, read_all};

/// A sink that tells on the error output what was kept, while the workers run, and counts the missing keys.
#[derive(Drop)]
pub struct Live<'a> {
    pub rt: &'a HostRuntime,
    pub probes: StoreProbes,
    pub missing: u32,
}

impl Sink<Enablings> for Live<'_> {
    fn batch(&mut self, schema: &Enablings, batch: &Batch) {
        let Ok(records) = read_all(schema, batch.buffer.bytes()) else {
            return;
        };
        for rec in records {
            let (cpu, at) = (batch.cpu, rec.stamp() / 1000);
            if let Some((key,)) = self.probes.missing.read(&rec) {
                let _ = eprintln!(self.rt; "cpu {cpu} at {at} us: there is no key {key}");
                self.missing = self.missing.saturating_add(1);
            }
            if let Some((request, took)) = self.probes.end.read(&rec) {
                let _ = eprintln!(self.rt;
                    "cpu {cpu} at {at} us: request {request} took {took} us"
                );
            }
        }
    }
}
