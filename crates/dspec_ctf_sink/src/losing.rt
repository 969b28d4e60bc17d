//! What isn't written of a trace, and its count.

ghost use Rattle.std.specs.Prelude.{◌≡◌, ◌+◌, length, None, IfErr, OnOk, Some};
ghost use Rattle.dspec_ctf_sink.specs.Losses.{HasSoManyRecords, capped, lost_more, missed_more};

use crate::fault::FolderFault;
use dspec::{Batch, Enablings, Records, read_all};
use std::error::Error;
use std::fmt;

/// What a batch lost, or a trace in all: in which file and why first, and how many records weren't written.
#[derive(Debug, Clone, Copy, PartialEq, Eq)]
pub struct Loss {
    /// The CPU whose file it is.
    pub cpu: u32,
    /// The number of the file among those of the CPU, in a trace by time; None where no file was come to.
    pub row: Option<usize>,
    /// Why it wasn't written.
    pub fault: FolderFault,
    /// How many records weren't written.
    pub records: u64,
}

impl Error for Loss {}

/// `cpu_0: write fault: No space left on device (os error 28); 12 records weren't written`
impl fmt::Display for Loss {
    fn fmt<W: fmt::Write>(&self, f: &mut fmt::Formatter<W>) -> fmt::Result {
        write!(f, "cpu_{}", self.cpu)?;
        if let Some(row) = self.row {
            write!(f, "_{row}")?;
        }
        write!(
            f,
            ": {}; {} records weren't written",
            self.fault, self.records
        )
    }
}

/// A sink that says what its last batch lost.
pub trait Lossy {
    /// What the last batch lost; None where it lost nothing.
    fn last_loss(&self) -> Option<Loss>;
}

/// How many records these are, as far as 64 bits count.
fn count_of(records: Records<'_, Enablings>) -> u64
    ensures { result ≡ capped (length records.entry) }
{
    let mut count = 0u64;
    for _rec in records {
        count = count.saturating_add(1);
    }
    count
}

/// How many records a batch has.
pub(crate) fn records_in(schema: &Enablings, batch: &Batch) -> u64
    ensures { HasSoManyRecords schema.now batch.now result }
{
    match read_all(schema, batch.buffer.bytes()) {
        Ok(records) => count_of(records),
        Err(_) => u64::from(batch.buffer.count()),
    }
}

/// Counts what a CPU missed.
pub(crate) fn miss(missed: &mut [u64; 64], cpu: u32, drops: u64, records: u64)
    ensures { missed.new ≡ missed_more missed.old cpu (drops + records) }
{
    let place = cpu as usize;
    if place >= missed.len() {
        return;
    }
    missed[place] = missed[place].saturating_add(drops).saturating_add(records);
}

/// What was lost in all, with one loss more.
pub(crate) fn with_loss(lost: Option<Loss>, loss: Loss) -> Loss
    ensures { Some result ≡ lost_more lost loss }
{
    let Some(first) = lost else {
        return loss;
    };
    let records = first.records.saturating_add(loss.records);
    Loss { records, ..first }
}

/// How a trace ends by what was lost of it in all.
pub(crate) fn ended_by(lost: Option<Loss>) -> Result<(), Loss>
    ensures whole { OnOk result (lost ≡ None) }
    ensures loss { IfErr result (λ loss. lost ≡ Some loss) }
{
    match lost {
        None => Ok(()),
        Some(loss) => Err(loss),
    }
}
