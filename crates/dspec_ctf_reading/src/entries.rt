//! The events that a metadata's text tells, and their fields.

ghost use Rattle.std.specs.{Option.option_map, Prelude.◌≡◌, Prelude.length, Prelude.map, Prelude.replicate, Prelude.IfOk};
ghost use Rattle.dspec_ctf_reading.specs.{Parts.Gives, ReadingMetadata.read_event_text, ReadingMetadata.read_event_texts, ReadingMetadata.read_field, ReadingMetadata.read_fields};
ghost use Rattle.dspec_ctf_reading.specs.{ReadingMetadata.read_number_field, ReadingMetadata.read_text_field, ReadingMetadata.text_layouts, Told.told_event, Told.told_field};

use crate::fault::{Expected, ReadStop};
use crate::kinds::field_type;
use crate::scan::{after, decimal, past_text, quoted, word};
use crate::told::{EventText, FieldText};
use dspec_probe::Kind;
use dspec_record::Field;
use std::alloc::{AllocError, Global};

/// What stands before a text's name.
const TEXT_FRONT: &str = "integer { size = 8; align = 8; signed = false; encoding = UTF8; } ";

/// A field of numbers, and the bytes after its line.
fn number_field<'t>(alloc: Global, bytes: &'t [u8]) -> Result<(FieldText<'t>, &'t [u8]), ReadStop>
    ensures { Gives result (λ p. (told_field p.0, p.1.now)) (read_number_field bytes.now) }
{
    let (told, rest) = field_type(alloc, bytes)?;
    let rest = past_text(rest, " ")?;
    let (name, rest) = word(rest)?;
    let rest = past_text(rest, ";\n")?;
    Ok((
        FieldText {
            name,
            width: told.width,
            kind: told.kind,
            labels: told.labels,
        },
        rest,
    ))
}

/// So many words of a text, as fields of its name.
#[tactic(auto, using(crate::proofs::TextFields::words_on))]
fn some_words<'t>(
    alloc: Global,
    name: &'t str,
    count: u64,
) -> Result<Vec<FieldText<'t>>, AllocError>
    ensures { IfOk result (λ found. map told_field found.items ≡ replicate count (record { name = name.now; width = 8 })) }
{
    let mut found = Vec::new(alloc);
    let mut kind = Kind::Text;
    for _ in 0..count {
        found.push(FieldText {
            name,
            width: Field::Eight,
            kind,
            labels: Vec::new(alloc),
        })?;
        kind = Kind::TextNext;
    }
    Ok(found)
}

/// The words of a text of so many bytes, as fields of its name; None where no text has so many.
fn words<'t>(
    alloc: Global,
    name: &'t str,
    size: u64,
) -> Result<Option<Vec<FieldText<'t>>>, AllocError>
    ensures { IfOk result (λ found. option_map (λ fields. map told_field fields.items) found ≡ text_layouts name.now size) }
{
    if size % 8 != 0 || !(8..=64).contains(&size) {
        return Ok(None);
    }
    Ok(Some(some_words(alloc, name, size / 8)?))
}

/// A text, from its name on: its words, and the bytes after its line.
fn text_field<'t>(
    alloc: Global,
    bytes: &'t [u8],
) -> Result<(Vec<FieldText<'t>>, &'t [u8]), ReadStop>
    ensures { Gives result (λ p. (map told_field p.0.items, p.1.now)) (read_text_field bytes.now) }
{
    let (name, rest) = word(bytes)?;
    let rest = past_text(rest, "[")?;
    let (size, rest) = decimal(rest)?;
    let end = past_text(rest, "];\n")?;
    match words(alloc, name, size)? {
        Some(fields) => Ok((fields, end)),
        None => Err(ReadStop::Unread {
            left: rest.len(),
            expected: Expected::Type,
        }),
    }
}

/// A line: the field that it tells, or the words of a text, and the bytes after it.
fn field<'t>(alloc: Global, bytes: &'t [u8]) -> Result<(Vec<FieldText<'t>>, &'t [u8]), ReadStop>
    ensures { Gives result (λ p. (map told_field p.0.items, p.1.now)) (read_field bytes.now) }
{
    let rest = past_text(bytes, "\t\t")?;
    if let Some(rest) = after(rest, TEXT_FRONT) {
        return text_field(alloc, rest);
    }
    let (one, rest) = number_field(alloc, rest)?;
    let mut fields = Vec::new(alloc);
    fields.push(one)?;
    Ok((fields, rest))
}

/// Fields up to the end of their event, and the bytes after it.
fn fields<'t>(alloc: Global, bytes: &'t [u8]) -> Result<(Vec<FieldText<'t>>, &'t [u8]), ReadStop>
    ensures { Gives result (λ p. (map told_field p.0.items, p.1.now)) (read_fields (length bytes.now) bytes.now) }
{
    let mut found = Vec::new(alloc);
    let mut rest = bytes;
    for _ in 0..bytes.len() {
        if let Some(end) = after(rest, "\t};\n};\n") {
            return Ok((found, end));
        }
        let (mut line, next) = field(alloc, rest)?;
        found.append(&mut line)?;
        rest = next;
    }
    Err(ReadStop::Unread {
        left: rest.len(),
        expected: Expected::Text("\t};\n};\n"),
    })
}

/// An event, and the bytes after it.
fn event<'t>(alloc: Global, bytes: &'t [u8]) -> Result<(EventText<'t>, &'t [u8]), ReadStop>
    ensures { Gives result (λ p. (told_event p.0, p.1.now)) (read_event_text bytes.now) }
{
    let rest = past_text(bytes, "\nevent {\n\tid = ")?;
    let (id, rest) = decimal(rest)?;
    let rest = past_text(rest, ";\n\tname = \"")?;
    let (name, rest) = quoted(rest)?;
    let rest = past_text(rest, "\";\n\tstream_id = 0;\n\tfields := struct {\n")?;
    let (fields, rest) = fields(alloc, rest)?;
    Ok((EventText { id, name, fields }, rest))
}

/// Events up to the end of the text.
pub(crate) fn events<'t>(alloc: Global, bytes: &'t [u8]) -> Result<Vec<EventText<'t>>, ReadStop>
    ensures { Gives result (λ events. map told_event events.items) (read_event_texts (length bytes.now) bytes.now) }
{
    let mut found = Vec::new(alloc);
    let mut rest = bytes;
    for _ in 0..bytes.len() {
        if rest.is_empty() {
            return Ok(found);
        }
        let (one, next) = event(alloc, rest)?;
        found.push(one)?;
        rest = next;
    }
    if rest.is_empty() {
        return Ok(found);
    }
    Err(ReadStop::Unread {
        left: rest.len(),
        expected: Expected::Text("\nevent {\n\tid = "),
    })
}
