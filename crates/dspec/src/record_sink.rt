ghost use Rattle.std.specs.List.{enumerate_from, flat_map};
ghost use Rattle.std.specs.Prelude.{◌≡◌, ◌-◌, ◌++◌, ◌⊎◌, IfOk, IfErr, OnOk, Some, None, length, replicate};
ghost use Rattle.dspec.specs.SinkRecords.{AddsText, KeepsBatch, IsRecordSinkFault, is_made_by, no_records, record_of_cpu, records_of_cpu};
ghost use Rattle.dspec.specs.declared.record_sink.RecordSinkFault.TheVariants.{Memory};

use crate::work::Sink;
use dspec_buffer::{ReadFault, Records, read_all};
use dspec_record::{Enablings, Rec};
use dspec_ring::Batch;
use std::alloc::{AllocError, Global};
use std::error::Error;
use std::fmt;
use std::marker::Model;

/// Why records weren't kept.
#[derive(Debug, Clone, Copy, PartialEq, Eq)]
pub enum RecordSinkFault {
    /// A batch of this CPU can't be read; as `read_all` tells it.
    Text { cpu: u32, fault: ReadFault },
    /// A growth was refused.
    Memory,
}

impl Error for RecordSinkFault {}

impl fmt::Display for RecordSinkFault {
    fn fmt<W: fmt::Write>(&self, f: &mut fmt::Formatter<W>) -> fmt::Result {
        match *self {
            RecordSinkFault::Text { cpu, fault } => write!(f, "a batch of cpu {cpu}: {fault}"),
            RecordSinkFault::Memory => f.pad("out of memory"),
        }
    }
}

impl From<AllocError> for RecordSinkFault {
    ghost from_gives = { λ _ fault. fault ≡ Memory };

    fn from(_refused: AllocError) -> Self {
        RecordSinkFault::Memory
    }
}

/// A sink that keeps every record, in the order in which they come, in memory that grows with them. After the first batch of which
/// it can't keep all records it keeps no more. Contracts see its records and that fault.
#[derive(Drop)]
pub struct RecordSink {
    records: Vec<Rec>,
    cpus: Vec<u32>,
    fault: Option<RecordSinkFault>,
}

impl Model for RecordSink {
    ghost use Rattle.dspec.specs.SinkRecords.{SinkRecords};

    ghost Value = { SinkRecords };

    ghost view = { λ i. record { records = i.records.items; cpus = i.cpus.items; fault = i.fault } };
}

// All of these records come after those that are kept, and with each its CPU.
fn keep_all(
    kept: &mut Vec<Rec>,
    cpus: &mut Vec<u32>,
    cpu: u32,
    came: Records<'_, Enablings>,
) -> Result<(), AllocError>
    ensures records { OnOk result (kept.new.items ≡ kept.old.items ++ came.entry) }
    ensures cpus { OnOk result (cpus.new.items ≡ cpus.old.items ++ replicate (length came.entry) cpu) }
{
    for rec in came {
        kept.push(rec)?;
        cpus.push(cpu)?;
    }
    Ok(())
}

// So do those of a batch.
fn keep_batch(
    kept: &mut Vec<Rec>,
    cpus: &mut Vec<u32>,
    schema: &Enablings,
    batch: &Batch,
) -> Result<(), RecordSinkFault>
    ensures added { OnOk result (AddsText schema.now batch.now.buffer.text kept.old.items kept.new.items) }
    ensures cpus { OnOk result (cpus.new.items ≡ cpus.old.items ++ replicate (length kept.new.items - length kept.old.items) batch.now.cpu) }
    ensures fault { IfErr result (IsRecordSinkFault schema.now batch.now) }
{
    let came = match read_all(schema, batch.buffer.bytes()) {
        Ok(came) => came,
        Err(fault) => {
            return Err(RecordSinkFault::Text {
                cpu: batch.cpu,
                fault,
            });
        }
    };
    keep_all(kept, cpus, batch.cpu, came)?;
    Ok(())
}

// Whether the record at a place is of this CPU.
fn is_of(cpus: &[u32], place: usize, cpu: u32) -> bool
    ensures { result ≡ is_made_by cpu cpus.now place }
{
    match cpus.get(place) {
        Some(of) => *of == cpu,
        None => false,
    }
}

// The records of this CPU, in their order.
fn records_of(
    alloc: Global,
    records: &[Rec],
    cpus: &[u32],
    cpu: u32,
) -> Result<Vec<Rec>, AllocError>
    ensures { IfOk result (λ found. found.items ≡ flat_map (record_of_cpu cpu cpus.now) (enumerate_from 0 records.now)) }
{
    let mut found = Vec::new(alloc);
    for (place, rec) in records.iter().enumerate() {
        if is_of(cpus, place, cpu) {
            found.push(*rec)?;
        }
    }
    Ok(found)
}

impl RecordSink {
    /// Nothing is kept yet.
    pub fn new(alloc: Global) -> RecordSink
        ensures { result ≡ no_records }
    {
        RecordSink {
            records: Vec::new(alloc),
            cpus: Vec::new(alloc),
            fault: None,
        }
    }

    /// The records of this CPU, in the order in which they came, which is that of its calls, or why not all were kept.
    pub fn by_cpu(&self, alloc: Global, cpu: u32) -> Result<Vec<Rec>, RecordSinkFault>
        ensures records { IfOk result (λ records. (records.items ≡ records_of_cpu cpu self.now) × (self.now.fault ≡ None)) }
        ensures fault { IfErr result (λ fault. (self.now.fault ≡ Some fault) ⊎ (fault ≡ Memory)) }
    {
        if let Some(fault) = self.fault {
            return Err(fault);
        }
        Ok(records_of(alloc, self.records.as_slice(), self.cpus.as_slice(), cpu)?)
    }

    /// All records that came, or why not all were kept.
    pub fn records(self) -> Result<Vec<Rec>, RecordSinkFault>
        ensures records { IfOk result (λ records. (records.items ≡ self.records) × (self.fault ≡ None)) }
        ensures fault { IfErr result (λ fault. self.fault ≡ Some fault) }
    {
        let RecordSink {
            records,
            cpus: _,
            fault,
        } = self;
        match fault {
            None => Ok(records),
            Some(fault) => Err(fault),
        }
    }
}

impl Sink<Enablings> for RecordSink {
    ghost gets = { KeepsBatch };

    fn batch(&mut self, schema: &Enablings, batch: &Batch) {
        if self.fault.is_some() {
            return;
        }
        let Err(fault) = keep_batch(&mut self.records, &mut self.cpus, schema, batch) else {
            return;
        };
        self.fault = Some(fault);
    }
}
