//! The bytes of a play's buffers, made from its deeds by the rules of docs/SPECIFICATION.md alone: no buffer and no schema of the
//! library has a part in them, so that a session whose batches have other bytes is found.

ghost use Rattle.std.specs.Prelude.{◌<◌};

use crate::sample::Sample;
use dspec_deeds::{Actor, Answer, ConsumerOp, DecideFate, Deed, Op, SpeculateFate, TraceFate};
use dspec_interleaving::{Outcome, Series};
use dspec_record::{Field, Header, Rec};
use dspec_replay::{BufferOrigin, ReadBuffer, Replayed};
use dspec_word::SpecId;
use std::alloc::{AllocError, Global};

/// How many bytes a field has.
fn width_of(field: Field) -> usize
    ensures { 0 < result }
{
    match field {
        Field::Eight => 8,
        Field::Four => 4,
        Field::Two => 2,
        Field::One => 1,
    }
}

/// Zeros up to the next multiple.
fn pad(bytes: &mut Vec<u8>, multiple: usize) -> Result<(), AllocError>
    requires { 0 < multiple }
{
    for _ in 0..multiple {
        if bytes.len() % multiple == 0 {
            break;
        }
        bytes.push(0)?;
    }
    Ok(())
}

/// A number in so many bytes, the lowest first.
fn add_number(bytes: &mut Vec<u8>, value: u64, count: usize) -> Result<(), AllocError> {
    let mut left = value;
    for _ in 0..count {
        bytes.push((left % 256) as u8)?;
        left /= 256;
    }
    Ok(())
}

/// The fields of a record: those of its enabling, or none under the default action.
fn fields_of<'a>(sample: &'a Sample, rec: &Rec) -> &'a [Field] {
    let place = (rec.epid() as usize).wrapping_sub(1);
    match sample.probes.get(place) {
        Some(probe) => probe.fields(),
        None => &[],
    }
}

/// Where records with these fields begin: at multiples of this.
fn multiple_of(fields: &[Field]) -> usize
    ensures { 0 < result }
{
    for field in fields {
        if *field == Field::Eight {
            return 8;
        }
    }
    4
}

/// The bytes of a record, counted from its own start.
fn record_bytes(
    alloc: Global,
    header: Header,
    fields: &[Field],
    rec: &Rec,
) -> Result<Vec<u8>, AllocError> {
    let mut bytes = Vec::new(alloc);
    add_number(&mut bytes, u64::from(rec.epid()), 4)?;
    if header == Header::Two {
        add_number(&mut bytes, rec.stamp(), 8)?;
    }
    for (field, value) in fields.iter().zip(rec.values()) {
        let width = width_of(*field);
        pad(&mut bytes, width)?;
        add_number(&mut bytes, *value, width)?;
    }
    pad(&mut bytes, 4)?;
    Ok(bytes)
}

/// Adds a record at the next place where it may stand.
fn add_record(
    alloc: Global,
    sample: &Sample,
    text: &mut ReadBuffer,
    rec: &Rec,
) -> Result<(), AllocError> {
    let fields = fields_of(sample, rec);
    pad(&mut text.bytes, multiple_of(fields))?;
    let bytes = record_bytes(alloc, sample.schedule.header(), fields, rec)?;
    text.bytes.extend_from_slice(bytes.as_slice())?;
    text.records.push(*rec)
}

/// Adds the block of a speculation: all that the CPU kept of it, from a multiple of eight on.
fn add_block(
    alloc: Global,
    sample: &Sample,
    text: &mut ReadBuffer,
    deeds: &[Deed],
    cpu: u32,
    id: SpecId,
) -> Result<(), AllocError> {
    pad(&mut text.bytes, 8)?;
    for deed in deeds {
        if let Deed::Speculate(by, of, rec, SpeculateFate::Kept) = deed {
            if *by == cpu && *of == id {
                add_record(alloc, sample, text, rec)?;
            }
        }
    }
    Ok(())
}

/// What a decision makes of the CPU's block of a speculation: the block is added, or a reservation was refused. After its own decision
/// the CPU has nothing left to settle, and copies no record.
fn add_decision(
    alloc: Global,
    sample: &Sample,
    text: &mut ReadBuffer,
    deeds: &[Deed],
    cpu: u32,
    id: SpecId,
    fate: DecideFate,
) -> Result<(), AllocError> {
    match fate {
        DecideFate::Copied(count) => {
            if count > 0 {
                add_block(alloc, sample, text, deeds, cpu, id)?;
            }
        }
        DecideFate::Lost(_) => text.drops = text.drops.saturating_add(1),
        DecideFate::Thrown(_) | DecideFate::Void | DecideFate::Stopped => {}
    }
    Ok(())
}

/// What becomes of a record that was traced: it is added, or a reservation was refused.
fn add_traced(
    alloc: Global,
    sample: &Sample,
    text: &mut ReadBuffer,
    rec: &Rec,
    fate: TraceFate,
) -> Result<(), AllocError> {
    match fate {
        TraceFate::Kept => add_record(alloc, sample, text, rec)?,
        TraceFate::Dropped => text.drops = text.drops.saturating_add(1),
        TraceFate::Stopped => {}
    }
    Ok(())
}

/// What a deed of the CPU makes of its principal buffer.
fn add_deed(
    alloc: Global,
    sample: &Sample,
    text: &mut ReadBuffer,
    deeds: &[Deed],
    cpu: u32,
    deed: Deed,
) -> Result<(), AllocError> {
    match deed {
        Deed::Trace(by, rec, fate) => {
            if by == cpu {
                add_traced(alloc, sample, text, &rec, fate)?;
            }
        }
        Deed::Commit(by, id, fate) => {
            if by == cpu {
                add_decision(alloc, sample, text, deeds, cpu, id, fate)?;
            }
        }
        Deed::Settle(by, id, fate) => {
            if by == cpu {
                add_decision(alloc, sample, text, deeds, cpu, id, fate)?;
            }
        }
        _ => {}
    }
    Ok(())
}

/// How many batches of the CPU were taken.
fn taken_of(outcome: &Outcome, cpu: u32) -> usize {
    let mut count = 0usize;
    for (_, op, answer) in outcome.answers.as_slice() {
        if let Answer::Took { .. } = answer {
            if *op == Op::Consumer(ConsumerOp::Take(cpu)) {
                count = count.saturating_add(1);
            }
        }
    }
    count
}

/// A buffer without records, after so many others of which so many were taken.
fn empty(alloc: Global, before: usize, taken: usize) -> ReadBuffer {
    ReadBuffer {
        origin: if before < taken {
            BufferOrigin::Batch
        } else {
            BufferOrigin::Rest
        },
        drops: 0,
        records: Series::new(alloc),
        bytes: Vec::new(alloc),
    }
}

/// The buffers of a CPU, in order: a Seal ends one.
fn texts_of(
    alloc: Global,
    sample: &Sample,
    outcome: &Outcome,
    cpu: u32,
) -> Result<Series<ReadBuffer>, AllocError> {
    let deeds = outcome.close.deeds.as_slice();
    let taken = taken_of(outcome, cpu);
    let mut texts = Series::new(alloc);
    let mut text = empty(alloc, 0, taken);
    for deed in deeds {
        if *deed == Deed::Seal(cpu) {
            texts.push(text)?;
            text = empty(alloc, texts.len(), taken);
        } else {
            add_deed(alloc, sample, &mut text, deeds, cpu, *deed)?;
        }
    }
    texts.push(text)?;
    Ok(texts)
}

/// What the player's play leaves, with the buffers that a session has to have.
pub fn encoded(alloc: Global, sample: &Sample, outcome: Outcome) -> Result<Replayed, AllocError> {
    let mut texts = Series::new(alloc);
    for cpu in 0..sample.schedule.config.cpus {
        texts.push(texts_of(alloc, sample, &outcome, cpu)?)?;
    }
    Ok(Replayed { outcome, texts })
}
