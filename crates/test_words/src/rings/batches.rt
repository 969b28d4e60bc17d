use dspec_buffer::{ByteBuffer, TraceBuffer};
use dspec_record::{DefaultAction, Rec, Schema};
use dspec_ring::Batch;
use std::alloc::{AllocError, Global};
use std::process::Abort;

/// The CPU of all batches.
const CPU: u32 = 3;

/// Makes the record of this number the buffer's only one.
fn fill(rt: &impl Abort, buffer: &mut ByteBuffer, number: u32) {
    TraceBuffer::<DefaultAction>::clear(buffer);
    let rec = Rec::new(number, &[]).expect(rt, "no values");
    assert!(rt; DefaultAction.accepts(&rec));
    assert!(rt; buffer.push(&DefaultAction, &rec));
}

/// A batch of this number, in a buffer of its own.
pub(crate) fn numbered(rt: &impl Abort, alloc: Global, number: u32) -> Result<Batch, AllocError> {
    let mut buffer: ByteBuffer = TraceBuffer::<DefaultAction>::make(alloc, 8)?;
    fill(rt, &mut buffer, number);
    Ok(Batch {
        cpu: CPU,
        drops: u64::from(number),
        buffer,
    })
}

/// The batch with another number, in the same buffer.
pub(crate) fn renumbered(rt: &impl Abort, batch: Batch, number: u32) -> Batch {
    let mut buffer = batch.buffer;
    fill(rt, &mut buffer, number);
    Batch {
        cpu: CPU,
        drops: u64::from(number),
        buffer,
    }
}

/// Whether the batch is the one of this number: its drops and its record both say so.
pub(crate) fn is_numbered(batch: &Batch, number: u32) -> bool {
    batch.cpu == CPU
        && batch.drops == u64::from(number)
        && batch.buffer.bytes() == number.to_le_bytes().as_slice()
}

/// Ends the test unless there is a batch and it is the one of this number; gives it back.
pub(crate) fn expect_number(rt: &impl Abort, found: Option<Batch>, number: u32) -> Batch {
    let batch = found.expect(rt, "a batch");
    assert!(rt; is_numbered(&batch, number), "not batch {number}");
    batch
}
