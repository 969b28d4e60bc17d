ghost use Rattle.std.specs.{Fmt.WritesText, Prelude.◌≡◌, Prelude.IfErr, Prelude.IfOk, Prelude.None, Prelude.OnOk, Prelude.Some};
ghost use Rattle.dspec.specs.TextSinks.{ToldInTurn, IsTextSinkFault, TellsWhole, TellsText, stamp_in_line, told_line, told_line_text};
ghost use Rattle.dspec.specs.declared.text_sink.TextSinkFault.TheVariants.{Write};

use crate::work::Sink;
use dspec_buffer::{ReadFault, Records, read_all};
use dspec_probe::{Probes, Told};
use dspec_record::{Enablings, Header, Rec};
use dspec_ring::Batch;
use std::error::Error;
use std::fmt;

/// Why records weren't told.
#[derive(Debug, Clone, Copy, PartialEq, Eq)]
pub enum TextSinkFault {
    /// A batch of this CPU can't be read; as `read_all` tells it.
    Text { cpu: u32, fault: ReadFault },
    /// What takes the text refused it.
    Write,
}

impl Error for TextSinkFault {}

impl fmt::Display for TextSinkFault {
    fn fmt<W: fmt::Write>(&self, f: &mut fmt::Formatter<W>) -> fmt::Result {
        match *self {
            TextSinkFault::Text { cpu, fault } => write!(f, "a batch of cpu {cpu}: {fault}"),
            TextSinkFault::Write => f.pad("the text wasn't taken"),
        }
    }
}

impl From<fmt::Error> for TextSinkFault {
    ghost from_gives = { λ _ fault. fault ≡ Write };

    fn from(_refused: fmt::Error) -> Self {
        TextSinkFault::Write
    }
}

/// The line of a record, as `cpu 2 at 1500: end request=0 done=false micros=11857`; without `at` where records have no stamp.
#[derive(Debug, Clone, Copy)]
pub struct ToldLine<'n> {
    /// The CPU that made it.
    pub cpu: u32,
    /// Its stamp, where records have one.
    pub stamp: Option<u64>,
    /// The record, by the declaration of its probe.
    pub told: Told<'n>,
}

impl fmt::Display for ToldLine<'_> {
    ghost output = { told_line_text };

    fn fmt<W: fmt::Write>(&self, f: &mut fmt::Formatter<W>) -> fmt::Result {
        let (cpu, told) = (self.cpu, &self.told);
        match self.stamp {
            Some(stamp) => write!(f, "cpu {cpu} at {stamp}: {told}\n"),
            None => write!(f, "cpu {cpu}: {told}\n"),
        }
    }
}

/// A sink that writes a line for each record, in the order in which they come, to whatever takes text: a `String`, or `ErrorOutput`.
/// It tells records by the probes' declaration (`ToldLine`). After the first batch that can't be told whole it tells no more.
#[derive(Drop)]
pub struct TextSink<'p, 'n, W: Drop> {
    probes: &'p Probes<'n>,
    out: W,
    fault: Option<TextSinkFault>,
}

// The stamp of a record, where records have one.
fn stamp_of(schema: &Enablings, rec: &Rec) -> Option<u64>
    ensures { result ≡ stamp_in_line schema.now.header rec.now.stamp }
{
    match schema.header() {
        Header::One => None,
        Header::Two => Some(rec.stamp()),
    }
}

// Writes the line of a record.
fn tell_one<W: fmt::Write>(
    out: &mut W,
    probes: &Probes<'_>,
    schema: &Enablings,
    cpu: u32,
    rec: &Rec,
) -> fmt::Result
    ensures { OnOk result (WritesText W.write_str_gives out.old (told_line probes.now schema.now.header cpu rec.now) out.new) }
{
    let stamp = stamp_of(schema, rec);
    match probes.tell(rec) {
        Some(told) => {
            let line = ToldLine { cpu, stamp, told };
            write!(out, "{line}")
        }
        None => write!(out, "cpu {cpu}: {rec}\n"),
    }
}

// Writes those of all records.
fn tell_all<W: fmt::Write>(
    out: &mut W,
    probes: &Probes<'_>,
    schema: &Enablings,
    cpu: u32,
    came: Records<'_, Enablings>,
) -> fmt::Result
    ensures { OnOk result (ToldInTurn (λ w r v. WritesText W.write_str_gives w (told_line probes.now schema.now.header cpu r) v) out.old came.entry out.new) }
{
    for rec in came {
        tell_one(out, probes, schema, cpu, &rec)?;
    }
    Ok(())
}

// Writes those of a batch.
fn tell_batch<W: fmt::Write>(
    out: &mut W,
    probes: &Probes<'_>,
    schema: &Enablings,
    batch: &Batch,
) -> Result<(), TextSinkFault>
    ensures told { OnOk result (TellsText (WritesText W.write_str_gives) probes.now schema.now batch.now out.old out.new) }
    ensures fault { IfErr result (IsTextSinkFault schema.now batch.now) }
{
    let came = match read_all(schema, batch.buffer.bytes()) {
        Ok(came) => came,
        Err(fault) => {
            return Err(TextSinkFault::Text {
                cpu: batch.cpu,
                fault,
            });
        }
    };
    tell_all(out, probes, schema, batch.cpu, came)?;
    Ok(())
}

impl<'p, 'n, W: fmt::Write + Drop> TextSink<'p, 'n, W> {
    /// Nothing is told yet. The records are those of a session with these probes.
    pub fn new(probes: &'p Probes<'n>, out: W) -> TextSink<'p, 'n, W>
        ensures { (result.probes.now ≡ probes.now) × (result.out ≡ out) × (result.fault ≡ None) }
    {
        TextSink {
            probes,
            out,
            fault: None,
        }
    }

    /// What has taken the text, or why not all records were told.
    pub fn finish(self) -> Result<W, TextSinkFault>
        ensures told { IfOk result (λ out. (out ≡ self.entry.out) × (self.entry.fault ≡ None)) }
        ensures fault { IfErr result (λ fault. self.entry.fault ≡ Some fault) }
    {
        let TextSink {
            probes: _,
            out,
            fault,
        } = self;
        match fault {
            None => Ok(out),
            Some(fault) => Err(fault),
        }
    }
}

impl<W: fmt::Write + Send + Drop> Sink<Enablings> for TextSink<'_, '_, W> {
    ghost gets = { TellsWhole (WritesText W.write_str_gives) };

    fn batch(&mut self, schema: &Enablings, batch: &Batch) {
        if self.fault.is_some() {
            return;
        }
        let Err(fault) = tell_batch(&mut self.out, self.probes, schema, batch) else {
            return;
        };
        self.fault = Some(fault);
    }
}

/// The error output, as it takes text. What can't be written there is an error of that write.
#[derive(Drop)]
pub struct ErrorOutput<'r> {
    rt: &'r HostRuntime,
}

impl<'r> ErrorOutput<'r> {
    /// That of this program.
    pub fn of(rt: &'r HostRuntime) -> ErrorOutput<'r> {
        ErrorOutput { rt }
    }
}

impl fmt::Write for ErrorOutput<'_> {
    fn write_str(&mut self, text: &str) -> fmt::Result {
        match eprint!(self.rt; "{text}") {
            Ok(()) => Ok(()),
            Err(_) => Err(fmt::Error),
        }
    }
}
