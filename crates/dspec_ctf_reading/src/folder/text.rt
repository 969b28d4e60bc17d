//! What happened, in words.

use super::value::ShownValue;
use crate::{EventText, FieldText};
use dspec_probe::{Kind, text_bytes};
use std::alloc::{AllocError, Global};
use std::str;

/// Whether a label can stand without quotes.
fn is_plain(label: &str) -> bool {
    label.as_bytes().iter().all(|byte| byte.is_ascii_alphanumeric()
        || *byte == b'_'
        || *byte == b'-'
        || *byte == b'.')
}

/// Adds what a number stands for.
fn put_number(out: &mut String, field: &FieldText<'_>, number: u64) -> Result<(), AllocError> {
    match ShownValue::of(field.width, field.kind, number) {
        Some(ShownValue::Signed(number)) => write!(out, "{number}"),
        Some(ShownValue::Single(number)) => write!(out, "{number:?}"),
        Some(ShownValue::Double(number)) => write!(out, "{number:?}"),
        Some(ShownValue::Unsigned(_)) | None => write!(out, "{number}"),
    }
}

/// What a number of a field is called, if it has a label.
pub(crate) fn label_of<'t>(field: &FieldText<'t>, number: u64) -> Option<&'t str> {
    for label in &field.labels {
        if label.number == number {
            return Some(label.text);
        }
    }
    None
}

/// Adds a field with its name: ` name=value`, and ` name=label(value)` where the value is called something.
fn put_field(out: &mut String, field: &FieldText<'_>, number: u64) -> Result<(), AllocError> {
    let name = field.name;
    write!(out, " {name}=")?;
    match label_of(field, number) {
        Some(label) if is_plain(label) => write!(out, "{label}(")?,
        Some(label) => write!(out, "\"{label}\"(")?,
        None => return put_number(out, field, number),
    }
    put_number(out, field, number)?;
    out.push(')')
}

/// How many words the text has whose first is at a place.
fn word_count(event: &EventText<'_>, first: usize) -> usize {
    let mut count = 1usize;
    for (place, field) in event.fields.iter().enumerate() {
        if place <= first {
            continue;
        }
        if field.kind != Kind::TextNext {
            return count;
        }
        count = count.saturating_add(1);
    }
    count
}

/// The words of the text whose first is at a place.
fn words_at<'v>(event: &EventText<'_>, values: &'v [u64], first: usize) -> &'v [u64] {
    if first > values.len() {
        return &[];
    }
    let words = &values[first..];
    let count = word_count(event, first);
    if count > words.len() {
        return words;
    }
    &words[..count]
}

/// The character of UTF-8 with which these bytes begin, if one does.
fn first_character(bytes: &[u8]) -> Option<&str> {
    for len in 1..=4 {
        if len > bytes.len() {
            return None;
        }
        if let Ok(character) = str::from_utf8(&bytes[..len]) {
            return Some(character);
        }
    }
    None
}

/// Whether a character is for control, as those before the space are.
fn is_control(character: &str) -> bool {
    match character.as_bytes() {
        [byte] => *byte < 32 || *byte == 127,
        [194, byte] => *byte < 160,
        _ => false,
    }
}

/// Adds bytes by their numbers.
fn put_numbers(out: &mut String, bytes: &[u8]) -> Result<(), AllocError> {
    for byte in bytes {
        write!(out, "\\x{byte:02x}")?;
    }
    Ok(())
}

/// Adds a character between quotes.
fn put_quoted(out: &mut String, character: &str) -> Result<(), AllocError> {
    if is_control(character) {
        return put_numbers(out, character.as_bytes());
    }
    if character == "\"" || character == "\\" {
        out.push('\\')?;
    }
    out.push_str(character)
}

/// Adds the character with which these bytes begin, or the first of them by its number; says how many bytes that were.
fn put_first(out: &mut String, bytes: &[u8], is_quoted: bool) -> Result<usize, AllocError> {
    match first_character(bytes) {
        Some(character) => {
            if is_quoted {
                put_quoted(out, character)?;
            } else {
                out.push_str(character)?;
            }
            Ok(character.len())
        }
        None => {
            match bytes.first() {
                Some(byte) => put_numbers(out, &[*byte])?,
                None => {}
            }
            Ok(1)
        }
    }
}

/// The bytes after so many of these.
fn bytes_after(bytes: &[u8], count: usize) -> &[u8] {
    if count > bytes.len() {
        return &[];
    }
    &bytes[count..]
}

/// Adds the text of these words. Bytes that aren't UTF-8 are shown by their numbers; where it stands between quotes, characters for
/// control too, and a backslash stands before quotes and backslashes.
fn put_text(
    out: &mut String,
    alloc: Global,
    words: &[u64],
    is_quoted: bool,
) -> Result<(), AllocError> {
    let bytes = text_bytes(alloc, words)?;
    let mut rest = bytes.as_slice();
    for _ in 0..bytes.len() {
        if rest.is_empty() {
            return Ok(());
        }
        let count = put_first(out, rest, is_quoted)?;
        rest = bytes_after(rest, count);
    }
    Ok(())
}

/// The text whose first word is at a place. Bytes that aren't UTF-8 are shown by their numbers.
pub(crate) fn text_at(
    alloc: Global,
    event: &EventText<'_>,
    values: &[u64],
    place: usize,
) -> Result<String, AllocError> {
    let mut out = String::new(alloc);
    put_text(&mut out, alloc, words_at(event, values, place), false)?;
    Ok(out)
}

/// Adds the field at a place: as its name and its number, or as its name and its text in quotes. Of a text it is the first word.
fn put_field_at(
    out: &mut String,
    alloc: Global,
    event: &EventText<'_>,
    values: &[u64],
    place: usize,
) -> Result<(), AllocError> {
    let (Some(field), Some(number)) = (event.fields.get(place), values.get(place)) else {
        return Ok(());
    };
    match field.kind {
        Kind::TextNext => Ok(()),
        Kind::Text => {
            let name = field.name;
            write!(out, " {name}=\"")?;
            put_text(out, alloc, words_at(event, values, place), true)?;
            out.push('"')
        }
        Kind::Unsigned | Kind::Signed | Kind::Float => put_field(out, field, *number),
    }
}

/// The value of the field of that name, in words: its label, where it has one, else its number; a text is itself. None where the event has no such field.
pub fn field_text(
    alloc: Global,
    event: &EventText<'_>,
    values: &[u64],
    name: &str,
) -> Result<Option<String>, AllocError> {
    for (place, field) in event.fields.iter().enumerate() {
        let Some(number) = values.get(place) else {
            return Ok(None);
        };
        if field.name != name {
            continue;
        }
        if field.kind == Kind::Text {
            return Ok(Some(text_at(alloc, event, values, place)?));
        }
        if let Some(label) = label_of(field, *number) {
            return Ok(Some(String::from_str(alloc, label)?));
        }
        let mut out = String::new(alloc);
        put_number(&mut out, field, *number)?;
        return Ok(Some(out));
    }
    Ok(None)
}

/// An event in words: its name, and each value after its field's name. A number that is called something has its label before it. A text
/// stands in quotes.
pub fn event_text(
    alloc: Global,
    event: &EventText<'_>,
    values: &[u64],
) -> Result<String, AllocError> {
    let mut out = String::from_str(alloc, event.name)?;
    for place in 0..event.fields.len() {
        put_field_at(&mut out, alloc, event, values, place)?;
    }
    Ok(out)
}

/// A loss in words.
pub fn missed_text(alloc: Global, missed: u64) -> Result<String, AllocError> {
    format!(in alloc; "({missed} missed)")
}
