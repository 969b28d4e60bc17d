ghost use Rattle.std.specs.Prelude.{IfErr, OnOk};
ghost use Rattle.dspec_replay.specs.{Buffers.KeepsBufferText, Replayed.IsSudden};

use crate::session_fault::SessionFault;
use crate::texts::{BufferOrigin, ReadBuffer};
use dspec_buffer::read_all;
use dspec_deeds::Answer;
use dspec_interleaving::Series;
use dspec_record::{Rec, Schema};
use dspec_ring::Batch;
use std::alloc::{AllocError, Global};

/// What the consumer took of one CPU.
#[derive(Drop)]
struct Taken {
    /// The batches that aren't given back yet, the oldest first.
    out: Vec<Batch>,
    /// The records of all batches, read back from their texts.
    stream: Series<Rec>,
    /// The texts.
    texts: Series<ReadBuffer>,
}

/// What the consumer took, CPU by CPU.
#[derive(Drop)]
pub struct Basket {
    alloc: Global,
    taken: Vec<Taken>,
}

/// The records and the buffers of each CPU.
#[derive(Drop)]
pub struct ReplayContents {
    pub streams: Series<Series<Rec>>,
    pub texts: Series<Series<ReadBuffer>>,
}

/// Reads the records of a batch back, after those before, keeps its text, and answers what taking it does.
fn read_back<S: Schema>(
    alloc: Global,
    schema: &S,
    origin: BufferOrigin,
    batch: &Batch,
    stream: &mut Series<Rec>,
    texts: &mut Series<ReadBuffer>,
) -> Result<Answer, SessionFault>
    ensures refused { IfErr result IsSudden }
    ensures kept { OnOk result (KeepsBufferText origin batch.now texts.old texts.new) }
{
    let Ok(records) = read_all(schema, batch.buffer.bytes()) else {
        return Err(SessionFault::NoText(batch.cpu));
    };
    let from = stream.len();
    let mut own = Series::new(alloc);
    let mut count: u32 = 0;
    for rec in records {
        stream.push(rec)?;
        own.push(rec)?;
        count = count.saturating_add(1);
    }
    texts.push(ReadBuffer::of(alloc, origin, batch, own)?)?;
    Ok(Answer::Took {
        drops: batch.drops,
        from,
        count,
    })
}

impl Basket {
    /// Nothing is taken yet of so many CPUs.
    pub fn new(alloc: Global, cpus: u32) -> Result<Basket, AllocError> {
        let mut taken = Vec::new(alloc);
        for _ in 0..cpus {
            taken.push(Taken {
                out: Vec::new(alloc),
                stream: Series::new(alloc),
                texts: Series::new(alloc),
            })?;
        }
        Ok(Basket { alloc, taken })
    }

    /// A batch of the CPU is read, and is out from then on.
    pub fn add<S: Schema>(
        &mut self,
        schema: &S,
        cpu: u32,
        batch: Batch,
    ) -> Result<Answer, SessionFault>
        ensures { IfErr result IsSudden }
    {
        let Some(taken) = self.taken.get_mut(cpu as usize) else {
            return Ok(Answer::TookNone);
        };
        let Taken { out, stream, texts } = taken;
        let answer = read_back(
            self.alloc,
            schema,
            BufferOrigin::Batch,
            &batch,
            stream,
            texts,
        )?;
        out.push(batch)?;
        Ok(answer)
    }

    /// A batch of the CPU that is left at the end is read.
    pub fn read<S: Schema>(
        &mut self,
        schema: &S,
        cpu: u32,
        batch: &Batch,
    ) -> Result<(), SessionFault>
        ensures { IfErr result IsSudden }
    {
        let Some(taken) = self.taken.get_mut(cpu as usize) else {
            return Ok(());
        };
        let Taken { stream, texts, .. } = taken;
        read_back(self.alloc, schema, BufferOrigin::Rest, batch, stream, texts)?;
        Ok(())
    }

    /// The batch of the CPU that is out longest, to be given back.
    pub fn oldest(&mut self, cpu: u32) -> Option<Batch> {
        let taken = self.taken.get_mut(cpu as usize)?;
        if taken.out.is_empty() {
            return None;
        }
        Some(taken.out.remove(0))
    }

    /// All that was read of each CPU.
    pub fn contents(self) -> Result<ReplayContents, SessionFault>
        ensures { IfErr result IsSudden }
    {
        let mut streams = Series::new(self.alloc);
        let mut texts = Series::new(self.alloc);
        for taken in self.taken {
            streams.push(taken.stream)?;
            texts.push(taken.texts)?;
        }
        Ok(ReplayContents { streams, texts })
    }
}
