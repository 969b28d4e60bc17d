use dspec_buffer::read_all;
use dspec_record::Enablings;
use dspec_ring::Batch;
use dspec_samples::{BatchContents, CpuBatches};
use std::alloc::{AllocError, Global};

/// What the consumer has of all CPUs.
#[derive(Drop)]
pub struct CollectedBatches {
    pub streams: Vec<CpuBatches>,
    /// The batches that aren't given back yet, the oldest first.
    out: Vec<Batch>,
    /// How many batches were refused when they were given back.
    pub refused: u64,
}

/// What a batch says.
fn read(alloc: Global, schema: &Enablings, batch: &Batch) -> Result<BatchContents, AllocError> {
    let mut records = Vec::new(alloc);
    let mut fault = None;
    match read_all(schema, batch.buffer.bytes()) {
        Ok(found) => {
            for rec in found {
                records.push(rec)?;
            }
        }
        Err(why) => fault = Some(why),
    }
    Ok(BatchContents {
        cpu: batch.cpu,
        drops: batch.drops,
        records,
        fault,
    })
}

impl CollectedBatches {
    /// Nothing came of so many CPUs yet.
    pub fn new(alloc: Global, cpus: u32) -> Result<CollectedBatches, AllocError> {
        let mut streams = Vec::new(alloc);
        for _ in 0..cpus {
            let parts = Vec::new(alloc);
            streams.push(CpuBatches { parts })?;
        }
        Ok(CollectedBatches {
            streams,
            out: Vec::new(alloc),
            refused: 0,
        })
    }

    /// A batch that came when the CPU was asked is read.
    pub fn read(
        &mut self,
        alloc: Global,
        schema: &Enablings,
        cpu: u32,
        batch: &Batch,
    ) -> Result<(), AllocError> {
        let part = read(alloc, schema, batch)?;
        if let Some(stream) = self.streams.get_mut(cpu as usize) {
            stream.parts.push(part)?;
        }
        Ok(())
    }

    /// A batch is out until it is given back.
    pub fn keep(&mut self, batch: Batch) -> Result<(), AllocError> {
        self.out.push(batch)?;
        Ok(())
    }

    /// The batch that is out longest.
    pub fn take_oldest(&mut self) -> Option<Batch> {
        if self.out.is_empty() {
            return None;
        }
        Some(self.out.remove(0))
    }
}
