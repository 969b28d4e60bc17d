ghost use Rattle.std.specs.Prelude.{◌≡◌, IfOk};
ghost use Rattle.dspec_replay.specs.Buffers.{IsTextOfBatch};

use dspec_interleaving::{Outcome, Series};
use dspec_record::Rec;
use dspec_ring::Batch;
use std::alloc::{AllocError, Global};

/// How a principal buffer came to be read.
#[derive(Clone, Copy, Debug, PartialEq, Eq)]
pub enum BufferOrigin {
    /// The consumer took it as a batch.
    Batch,
    /// It was left at the end: the batch that was sealed and not taken, or the last buffer.
    Rest,
}

/// A principal buffer that was read: its bytes, and the records that they are the text of.
#[derive(Debug, Drop)]
pub struct ReadBuffer {
    /// How it came.
    pub origin: BufferOrigin,
    /// How many reservations it refused.
    pub drops: u64,
    /// Its records, in order.
    pub records: Series<Rec>,
    /// Its bytes.
    pub bytes: Vec<u8>,
}

impl ReadBuffer {
    /// The drops and the bytes of a batch, which has these records.
    pub fn of(
        alloc: Global,
        origin: BufferOrigin,
        batch: &Batch,
        records: Series<Rec>,
    ) -> Result<ReadBuffer, AllocError>
        ensures text { IfOk result (IsTextOfBatch origin batch.now) }
        ensures records { IfOk result (λ text. text.records ≡ records) }
    {
        let mut bytes = Vec::new(alloc);
        bytes.extend_from_slice(batch.buffer.bytes())?;
        Ok(ReadBuffer {
            origin,
            drops: batch.drops,
            records,
            bytes,
        })
    }
}

/// What a session leaves of a schedule: what a play leaves, but for the deeds, and for each CPU its buffers in the order in which
/// they were read.
#[derive(Debug, Drop)]
pub struct Replayed {
    /// The answers, the streams and the reports.
    pub outcome: Outcome,
    /// The buffers of each CPU.
    pub texts: Series<Series<ReadBuffer>>,
}
