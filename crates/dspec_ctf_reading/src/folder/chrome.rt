//! What happened, as events of Chrome's Trace Event form, which ui.perfetto.dev and chrome://tracing open. Each event is one JSON
//! object; a program puts them into the array `traceEvents`.

use super::text::{label_of, text_at};
use super::value::ShownValue;
use crate::{EventText, FieldText};
use dspec_probe::Kind;
use json::{Writer, is_number};
use std::alloc::{AllocError, Global};

/// Numbers from here on are rounded by readers, whose numbers are floats of 64 bits: they are written as strings.
const EXACT: u64 = 9_007_199_254_740_992;

/// A row of a picture.
#[derive(Debug, Clone, Copy)]
pub struct Track {
    /// The number of its process in the picture, from 1 on.
    pub process: u64,
    /// Its own number, from 1 on.
    pub number: u64,
}

/// A record of a row that isn't a CPU's: on which CPU it was made, so many nanoseconds after the picture's beginning, with which values.
#[derive(Debug, Clone, Copy)]
pub struct RowRecord<'v> {
    /// The number of its CPU.
    pub cpu: u32,
    /// When it was made.
    pub nanoseconds: u64,
    /// The values of its fields.
    pub values: &'v [u64],
}

/// A number as a JSON number, or as a string where readers would round it.
fn put_unsigned(out: &mut Writer, number: u64) -> Result<(), AllocError> {
    if number < EXACT {
        return out.u64(number);
    }
    out.quoted_u64(number)
}

/// The same of a number that may be negative.
fn put_signed(out: &mut Writer, number: i64) -> Result<(), AllocError> {
    if number.unsigned_abs() < EXACT {
        return out.i64(number);
    }
    out.quoted_i64(number)
}

/// A float; one that is no number, or infinite, by its name.
fn put_double(out: &mut Writer, number: f64) -> Result<(), AllocError> {
    if number.is_nan() {
        return out.string("NaN");
    }
    if number.is_finite() {
        return out.float(number);
    }
    out.string(if number < 0.0 { "-inf" } else { "inf" })
}

/// The same of 32 bits.
fn put_single(out: &mut Writer, number: f32) -> Result<(), AllocError> {
    if number.is_nan() {
        return out.string("NaN");
    }
    if number.is_finite() {
        return out.float(number);
    }
    out.string(if number < 0.0 { "-inf" } else { "inf" })
}

/// The value of a field: its label, where it has one, else what its number stands for.
fn put_value(out: &mut Writer, field: &FieldText<'_>, number: u64) -> Result<(), AllocError> {
    if let Some(label) = label_of(field, number) {
        return out.string(label);
    }
    match ShownValue::of(field.width, field.kind, number) {
        Some(ShownValue::Signed(number)) => put_signed(out, number),
        Some(ShownValue::Single(number)) => put_single(out, number),
        Some(ShownValue::Double(number)) => put_double(out, number),
        Some(ShownValue::Unsigned(_)) | None => put_unsigned(out, number),
    }
}

/// The field at a place, as a member. A text is a string, at its first word.
fn put_member(
    out: &mut Writer,
    alloc: Global,
    event: &EventText<'_>,
    place: usize,
    values: &[u64],
) -> Result<(), AllocError> {
    let (Some(field), Some(number)) = (event.fields.get(place), values.get(place)) else {
        return Ok(());
    };
    if field.kind == Kind::TextNext {
        return Ok(());
    }
    out.key(field.name)?;
    if field.kind == Kind::Text {
        let text = text_at(alloc, event, values, place)?;
        return out.string(text.as_str());
    }
    put_value(out, field, *number)
}

/// The members that say which row an event is in.
fn put_track(out: &mut Writer, track: Track) -> Result<(), AllocError> {
    out.key("pid")?;
    out.u64(track.process)?;
    out.key("tid")?;
    out.u64(track.number)
}

/// Nanoseconds as microseconds, with three digits after the point.
fn put_micros(out: &mut Writer, alloc: Global, nanoseconds: u64) -> Result<(), AllocError> {
    let (micros, rest) = (nanoseconds / 1000, nanoseconds % 1000);
    let text = format!(in alloc; "{micros}.{rest:03}")?;
    if is_number(text.as_str()) {
        return out.number(text.as_str());
    }
    out.u64(micros)
}

/// The members of an event up to its arguments, after those of its phase: of this name, so many nanoseconds after the picture's beginning.
fn put_front(
    out: &mut Writer,
    alloc: Global,
    track: Track,
    name: &str,
    nanoseconds: u64,
) -> Result<(), AllocError> {
    put_track(out, track)?;
    out.key("ts")?;
    put_micros(out, alloc, nanoseconds)?;
    out.key("name")?;
    out.string(name)?;
    out.key("args")?;
    out.begin_object()
}

/// The members of a mark up to its arguments.
fn put_mark(
    out: &mut Writer,
    alloc: Global,
    track: Track,
    name: &str,
    nanoseconds: u64,
) -> Result<(), AllocError> {
    out.key("ph")?;
    out.string("i")?;
    out.key("s")?;
    out.string("t")?;
    put_front(out, alloc, track, name, nanoseconds)
}

/// Arguments: the CPU, and the values of the fields.
fn put_values(
    out: &mut Writer,
    alloc: Global,
    event: &EventText<'_>,
    record: RowRecord<'_>,
) -> Result<(), AllocError> {
    out.key("on cpu")?;
    out.u64(u64::from(record.cpu))?;
    for place in 0..event.fields.len() {
        put_member(out, alloc, event, place, record.values)?;
    }
    Ok(())
}

/// The end of the arguments and of the event, and its text.
fn ended(mut out: Writer) -> Result<String, AllocError> {
    out.end_object()?;
    out.end_object()?;
    match String::from_utf8(out.into_inner()) {
        Ok(text) => Ok(text),
        Err(_) => Err(AllocError),
    }
}

/// An event that happened so many nanoseconds after the picture's beginning, with the values of its fields as arguments.
pub fn chrome_event(
    alloc: Global,
    track: Track,
    event: &EventText<'_>,
    nanoseconds: u64,
    values: &[u64],
) -> Result<String, AllocError> {
    let mut out = Writer::new(Vec::new(alloc));
    out.begin_object()?;
    put_mark(&mut out, alloc, track, event.name, nanoseconds)?;
    for place in 0..event.fields.len() {
        put_member(&mut out, alloc, event, place, values)?;
    }
    ended(out)
}

/// A record as a mark of a row that isn't a CPU's: its arguments are its CPU and the values of its fields.
pub fn chrome_record(
    alloc: Global,
    track: Track,
    event: &EventText<'_>,
    record: RowRecord<'_>,
) -> Result<String, AllocError> {
    let mut out = Writer::new(Vec::new(alloc));
    out.begin_object()?;
    put_mark(&mut out, alloc, track, event.name, record.nanoseconds)?;
    put_values(&mut out, alloc, event, record)?;
    ended(out)
}

/// So many events that were missed up to there.
pub fn chrome_missed(
    alloc: Global,
    track: Track,
    nanoseconds: u64,
    missed: u64,
) -> Result<String, AllocError> {
    let mut out = Writer::new(Vec::new(alloc));
    out.begin_object()?;
    put_mark(&mut out, alloc, track, "events missed", nanoseconds)?;
    out.key("missed")?;
    put_unsigned(&mut out, missed)?;
    ended(out)
}

/// What a row, or the process of rows, is called: `kind` is `thread_name` or `process_name`.
pub fn chrome_name(
    alloc: Global,
    track: Track,
    kind: &str,
    name: &str,
) -> Result<String, AllocError> {
    let mut out = Writer::new(Vec::new(alloc));
    out.begin_object()?;
    out.key("ph")?;
    out.string("M")?;
    put_track(&mut out, track)?;
    out.key("name")?;
    out.string(kind)?;
    out.key("args")?;
    out.begin_object()?;
    out.key("name")?;
    out.string(name)?;
    ended(out)
}
