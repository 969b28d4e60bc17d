//! The types of fields.

ghost use Rattle.std.specs.{Option.option_map, Prelude.◌≡◌, Prelude.length, Prelude.map, Prelude.take, Prelude.drop, Prelude.◌++◌};
ghost use Rattle.dspec_record.specs.Layout.{width as bytes_of};
ghost use Rattle.dspec_ctf_reading.specs.{Parts.Gives, Parts.read_enumeration, ReadingMetadata.float_types, ReadingMetadata.read_label, ReadingMetadata.read_labels, ReadingMetadata.read_type};
ghost use Rattle.dspec_ctf_reading.specs.{ReadingMetadata.read_type_of, ReadingMetadata.whole_types, Told.told_label};

use crate::fault::{Expected, ReadStop};
use crate::scan::{after, decimal, past_text, quoted};
use crate::told::Label;
use dspec_probe::Kind;
use dspec_record::Field;
use std::alloc::Global;

/// The type of numbers with this text, and the bytes after it.
fn unsigned(bytes: &[u8]) -> Option<(Field, &[u8])>
    ensures { option_map (λ p. (bytes_of p.0, p.1.now)) result ≡ read_type_of (take 4 whole_types) bytes.now }
{
    if let Some(rest) = after(bytes, "uint8_t") {
        return Some((Field::One, rest));
    }
    if let Some(rest) = after(bytes, "uint16_t") {
        return Some((Field::Two, rest));
    }
    if let Some(rest) = after(bytes, "uint32_t") {
        return Some((Field::Four, rest));
    }
    let rest = after(bytes, "uint64_t")?;
    Some((Field::Eight, rest))
}

/// The same of numbers with a sign.
fn signed(bytes: &[u8]) -> Option<(Field, &[u8])>
    ensures { option_map (λ p. (bytes_of p.0, p.1.now)) result ≡ read_type_of (drop 4 whole_types) bytes.now }
{
    if let Some(rest) = after(bytes, "integer { size = 8; align = 8; signed = true; }") {
        return Some((Field::One, rest));
    }
    if let Some(rest) = after(bytes, "integer { size = 16; align = 8; signed = true; }") {
        return Some((Field::Two, rest));
    }
    if let Some(rest) = after(bytes, "integer { size = 32; align = 8; signed = true; }") {
        return Some((Field::Four, rest));
    }
    let rest = after(bytes, "integer { size = 64; align = 8; signed = true; }")?;
    Some((Field::Eight, rest))
}

/// The same of floats.
fn float(bytes: &[u8]) -> Option<(Field, &[u8])>
    ensures { option_map (λ p. (bytes_of p.0, p.1.now)) result ≡ read_type_of float_types bytes.now }
{
    if let Some(rest) = after(
        bytes,
        "floating_point { exp_dig = 8; mant_dig = 24; align = 8; }",
    ) {
        return Some((Field::Four, rest));
    }
    let rest = after(
        bytes,
        "floating_point { exp_dig = 11; mant_dig = 53; align = 8; }",
    )?;
    Some((Field::Eight, rest))
}

/// A type of whole numbers: how wide they are and what they mean, and the bytes after it.
fn whole(bytes: &[u8]) -> Option<(Field, Kind, &[u8])>
    ensures { option_map (λ p. (bytes_of p.0, p.2.now)) result ≡ read_type_of whole_types bytes.now }
{
    if let Some((width, rest)) = unsigned(bytes) {
        return Some((width, Kind::Unsigned, rest));
    }
    let (width, rest) = signed(bytes)?;
    Some((width, Kind::Signed, rest))
}

/// A type of numbers.
fn number(bytes: &[u8]) -> Option<(Field, Kind, &[u8])>
    ensures { option_map (λ p. (bytes_of p.0, p.2.now)) result ≡ read_type_of (whole_types ++ float_types) bytes.now }
{
    if let Some(part) = whole(bytes) {
        return Some(part);
    }
    let (width, rest) = float(bytes)?;
    Some((width, Kind::Float, rest))
}

/// No type stands here.
fn no_type(bytes: &[u8]) -> ReadStop {
    ReadStop::Unread {
        left: bytes.len(),
        expected: Expected::Type,
    }
}

/// A label, and the bytes after it.
fn label(bytes: &[u8]) -> Result<(Label<'_>, &[u8]), ReadStop>
    ensures { Gives result (λ p. (told_label p.0, p.1.now)) (read_label bytes.now) }
{
    let rest = past_text(bytes, "\"")?;
    let (text, rest) = quoted(rest)?;
    let rest = past_text(rest, "\" = ")?;
    let (number, rest) = decimal(rest)?;
    let rest = past_text(rest, ", ")?;
    Ok((Label { text, number }, rest))
}

/// Labels up to the brace after them, and the bytes after it.
fn labels<'t>(alloc: Global, bytes: &'t [u8]) -> Result<(Vec<Label<'t>>, &'t [u8]), ReadStop>
    ensures { Gives result (λ p. (map told_label p.0.items, p.1.now)) (read_labels (length bytes.now) bytes.now) }
{
    let mut found = Vec::new(alloc);
    let mut rest = bytes;
    for _ in 0..bytes.len() {
        if let Some(end) = after(rest, "}") {
            return Ok((found, end));
        }
        let (one, next) = label(rest)?;
        found.push(one)?;
        rest = next;
    }
    Err(ReadStop::Unread {
        left: rest.len(),
        expected: Expected::Text("}"),
    })
}

/// What a field's type tells.
#[derive(Debug, Drop)]
pub(crate) struct Numbers<'t> {
    /// How wide its numbers are.
    pub(crate) width: Field,
    /// What they mean.
    pub(crate) kind: Kind,
    /// What some of them are called.
    pub(crate) labels: Vec<Label<'t>>,
}

/// An enumeration, from the type of its numbers on, and the bytes after it.
fn enumeration<'t>(alloc: Global, bytes: &'t [u8]) -> Result<(Numbers<'t>, &'t [u8]), ReadStop>
    ensures { Gives result (λ p. (bytes_of p.0.width, p.1.now)) (read_enumeration bytes.now) }
{
    let Some((width, kind, rest)) = whole(bytes) else {
        return Err(no_type(bytes));
    };
    let rest = past_text(rest, " { ")?;
    let (labels, rest) = labels(alloc, rest)?;
    Ok((
        Numbers {
            width,
            kind,
            labels,
        },
        rest,
    ))
}

/// A field's type, and the bytes after it.
pub(crate) fn field_type<'t>(
    alloc: Global,
    bytes: &'t [u8],
) -> Result<(Numbers<'t>, &'t [u8]), ReadStop>
    ensures { Gives result (λ p. (bytes_of p.0.width, p.1.now)) (read_type bytes.now) }
{
    if let Some(rest) = after(bytes, "enum : ") {
        return enumeration(alloc, rest);
    }
    let Some((width, kind, rest)) = number(bytes) else {
        return Err(no_type(bytes));
    };
    Ok((
        Numbers {
            width,
            kind,
            labels: Vec::new(alloc),
        },
        rest,
    ))
}
