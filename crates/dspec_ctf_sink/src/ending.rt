//! What the reports of a closed session count as lost beyond what its batches told.

ghost use Rattle.std.specs.Prelude.{◌≡◌, ◌<◌, IfOk, OnErr, OnOk, length, slice_get, Some};
ghost use Rattle.dspec_session_core.specs.declared.left.Left.{Left};
ghost use Rattle.dspec_ctf_sink.specs.Ending.{GetsTelling, IsBare, TellsUntold, untold};

use dspec::{Batch, Closed, Enablings, Report, Sink};
use dspec_buffer::{ByteBuffer, TraceBuffer};
use std::alloc::{AllocError, Global};

/// How many records a CPU lost that its batches don't tell as drops, by its report.
fn untold_in(report: &Report) -> u64
    ensures { result ≡ untold report.now }
{
    report
        .dropped
        .saturating_add(report.specdropped)
        .saturating_add(report.lost)
        .saturating_sub(report.drops)
}

/// A batch without records.
fn without_records(alloc: Global) -> Result<Batch, AllocError>
    ensures { IfOk result (λ batch. IsBare batch) }
{
    let mut buffer = <ByteBuffer as TraceBuffer<Enablings>>::make(alloc, 8)?;
    buffer.clear();
    let (cpu, drops) = (0, 0);
    Ok(Batch { cpu, drops, buffer })
}

// What one CPU lost beyond what its batches told goes to the sink, by this batch without records.
fn tell<K: Sink<Enablings>>(
    closed: &Closed,
    schema: &Enablings,
    cpu: u32,
    batch: &mut Batch,
    sink: &mut K,
)
    requires there { cpu < length closed.now }
    requires bare { IsBare batch.old }
    ensures bare { IsBare batch.new }
    ensures told { (l : Left) → slice_get closed.now cpu ≡ Some l → GetsTelling (K.gets schema.now) cpu l.report sink.old sink.new }
{
    batch.cpu = cpu;
    batch.drops = untold_in(closed.report(cpu));
    sink.batch(schema, batch);
}

/// What a trace tells at its end, with the memory that this takes: so it can be taken before a session starts, and telling refuses nothing.
#[derive(Drop)]
pub struct Untold {
    batch: Batch,
    ghost bare: { IsBare batch },
}

impl Untold {
    /// Takes the memory.
    pub fn new(alloc: Global) -> Result<Untold, AllocError> {
        let batch = without_records(alloc)?;
        Ok(Untold { batch })
    }

    /// Tells a sink, after the close of its session, what the reports count as lost beyond what batches told: a batch tells each refused reservation,
    /// so a lost block as one, and nothing of what speculative buffers had no room for. Each CPU's batch has no records, and as many drops as records
    /// are to be told still. So where the sink is the session's own and its last writes are taken, its trace tells `dropped + specdropped + lost` of
    /// each report, and what it couldn't write. The contract says which batches the sink gets.
    pub fn tell<K: Sink<Enablings>>(self, schema: &Enablings, closed: &Closed, sink: &mut K)
        ensures { TellsUntold (K.gets schema.now) closed.now sink.old sink.new }
    {
        let mut batch = self.batch;
        for cpu in 0..closed.cpus() {
            tell(closed, schema, cpu, &mut batch, sink);
        }
    }
}

/// Tells a sink what `Untold` tells, with memory that is taken now.
pub fn tell_untold<K: Sink<Enablings>>(
    alloc: Global,
    schema: &Enablings,
    closed: &Closed,
    sink: &mut K,
) -> Result<(), AllocError>
    ensures told { OnOk result (TellsUntold (K.gets schema.now) closed.now sink.old sink.new) }
    ensures refused { OnErr result (sink.new ≡ sink.old) }
{
    Untold::new(alloc)?.tell(schema, closed, sink);
    Ok(())
}
