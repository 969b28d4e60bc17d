//! What the consumer takes of a CPU.
use dspec_buffer::{ByteBuffer, TraceBuffer, read_all};
use dspec_deeds::Answer;
use dspec_interleaving::Series;
use dspec_record::{DefaultAction, Rec, Schema};
use dspec_ring::{Batch, ConsumerEnd};
use std::alloc::{AllocError, Global};
use std::process::Abort;
use std::test::Fail;

/// The end of one CPU's rings, the batches that were taken and not given back, and the records of all that were taken.
#[derive(Drop)]
pub struct Taker {
    end: ConsumerEnd,
    out: Vec<Batch>,
    pub stream: Series<Rec>,
}

/// An empty batch of the first CPU that it never sealed, with a buffer of this size in bytes.
fn strange(rt: &(impl Abort + AllocGlobal), size: u32) -> Result<Batch, AllocError> {
    assert!(rt; (8..=1_048_576).contains(&size) && size % 8 == 0);
    let buffer = <ByteBuffer as TraceBuffer<DefaultAction>>::make(rt.alloc(), size)?;
    Ok(Batch {
        cpu: 0,
        drops: 0,
        buffer,
    })
}

impl Taker {
    pub fn new(alloc: Global, end: ConsumerEnd) -> Taker {
        Taker {
            end,
            out: Vec::new(alloc),
            stream: Series::new(alloc),
        }
    }

    /// Gives back buffers of these sizes that were never taken, as a strange consumer would.
    pub fn lend_all(
        &mut self,
        rt: &(impl Abort + AllocGlobal),
        sizes: &[u32],
    ) -> Result<(), AllocError> {
        for size in sizes {
            let batch = strange(rt, *size)?;
            assert!(rt; self.end.give_back(batch).is_ok());
        }
        Ok(())
    }

    /// Keeps buffers of these sizes, as if they had been taken: the first to be given back.
    pub fn stock_all(
        &mut self,
        rt: &(impl Abort + AllocGlobal),
        sizes: &[u32],
    ) -> Result<(), AllocError> {
        for size in sizes {
            self.out.push(strange(rt, *size)?)?;
        }
        Ok(())
    }

    /// Reads a batch after those before, and answers how many records it has.
    pub fn read<S: Schema>(&mut self, schema: &S, batch: &Batch) -> Result<u32, Fail> {
        let Ok(records) = read_all(schema, batch.buffer.bytes()) else {
            return Err("no text of a buffer".into());
        };
        let mut count: u32 = 0;
        for rec in records {
            self.stream.push(rec)?;
            count = count.wrapping_add(1);
        }
        Ok(count)
    }

    pub fn take<S: Schema>(&mut self, schema: &S) -> Result<Answer, Fail> {
        let Some(batch) = self.end.take() else {
            return Ok(Answer::TookNone);
        };
        let from = self.stream.len();
        let count = self.read(schema, &batch)?;
        let drops = batch.drops;
        self.out.push(batch)?;
        Ok(Answer::Took { drops, from, count })
    }

    /// Gives the batch that was taken first back, if one is out.
    pub fn give_back(&mut self) -> Answer {
        if self.out.is_empty() {
            return Answer::GaveBack(false);
        }
        let batch = self.out.remove(0);
        Answer::GaveBack(self.end.give_back(batch).is_ok())
    }
}
