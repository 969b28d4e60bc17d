//! The values of records as JSON, and what fields are called.

use crate::path_events::{PATH_FIELD, ShownEvent};
use dspec_ctf_reading::folder::{ShownValue, field_text};
use dspec_ctf_reading::{EventText, FieldText, Kind, Metadata};
use json::Writer;
use std::alloc::{AllocError, Global};

/// Numbers from here on are rounded by readers, whose numbers are floats of 64 bits: they are written as strings.
const EXACT: u64 = 9_007_199_254_740_992;

/// Whether a field is shown: each but the number of the path, and the further words of a text.
pub(crate) fn is_shown(field: &FieldText<'_>) -> bool {
    field.name != PATH_FIELD && field.kind != Kind::TextNext
}

/// A float; one that is no number, or infinite, by its name.
pub(crate) fn put_float(out: &mut Writer, number: f64) -> Result<(), AllocError> {
    if number.is_finite() {
        out.float(number)
    } else if number.is_nan() {
        out.string("NaN")
    } else if number < 0.0 {
        out.string("-Infinity")
    } else {
        out.string("Infinity")
    }
}

/// The label of a field's number, where it has one.
pub(crate) fn label_in<'t>(field: &FieldText<'t>, number: u64) -> Option<&'t str> {
    let label = field.labels.iter().find(|label| label.number == number)?;
    Some(label.text)
}

/// What a number of a field stands for.
fn put_number(out: &mut Writer, field: &FieldText<'_>, number: u64) -> Result<(), AllocError> {
    match ShownValue::of(field.width, field.kind, number) {
        Some(ShownValue::Signed(number)) if number.unsigned_abs() < EXACT => out.i64(number),
        Some(ShownValue::Signed(number)) => out.quoted_i64(number),
        Some(ShownValue::Single(number)) => put_float(out, f64::from(number)),
        Some(ShownValue::Double(number)) => put_float(out, number),
        Some(ShownValue::Unsigned(_)) | None if number < EXACT => out.u64(number),
        Some(ShownValue::Unsigned(_)) | None => out.quoted_u64(number),
    }
}

/// The text of a field of an event.
pub(crate) fn text_of_field(
    alloc: Global,
    event: &ShownEvent<'_, '_>,
    field: &FieldText<'_>,
) -> Result<String, AllocError> {
    match field_text(alloc, event.text, event.values, field.name)? {
        Some(text) => Ok(text),
        None => Ok(String::new(alloc)),
    }
}

/// The value of a field of an event: a text, or a number.
pub(crate) fn put_value(
    out: &mut Writer,
    alloc: Global,
    event: &ShownEvent<'_, '_>,
    field: &FieldText<'_>,
    number: u64,
) -> Result<(), AllocError> {
    if field.kind != Kind::Text {
        return put_number(out, field, number);
    }
    let text = text_of_field(alloc, event, field)?;
    out.string(text.as_str())
}

/// Adds the values of an event's fields that are shown.
pub(crate) fn put_shown_values(
    out: &mut Writer,
    alloc: Global,
    event: &ShownEvent<'_, '_>,
) -> Result<(), AllocError> {
    for (place, field) in event.text.fields.iter().enumerate() {
        if is_shown(field) {
            let number = event.values.get(place).copied().unwrap_or(0);
            put_value(out, alloc, event, field, number)?;
        }
    }
    Ok(())
}

/// Adds what a field is called, and what some of its numbers are.
fn put_field(out: &mut Writer, field: &FieldText<'_>) -> Result<(), AllocError> {
    out.begin_object()?;
    out.key("name")?;
    out.string(field.name)?;
    if !field.labels.is_empty() {
        out.key("labels")?;
        out.begin_array()?;
        for label in &field.labels {
            put_number(out, field, label.number)?;
            out.string(label.text)?;
        }
        out.end_array()?;
    }
    out.end_object()
}

/// Adds what an event is called, and its fields that are shown.
fn put_event(out: &mut Writer, event: &EventText<'_>) -> Result<(), AllocError> {
    out.begin_object()?;
    out.key("name")?;
    out.string(event.name)?;
    out.key("fields")?;
    out.begin_array()?;
    for field in &event.fields {
        if is_shown(field) {
            put_field(out, field)?;
        }
    }
    out.end_array()?;
    out.end_object()
}

/// Adds what the events of one folder are called.
fn put_events(out: &mut Writer, metadata: &Metadata<'_>) -> Result<(), AllocError> {
    for event in &metadata.events {
        put_event(out, event)?;
    }
    Ok(())
}

/// Adds what all events of these folders are called.
pub(crate) fn put_texts(out: &mut Writer, metadatas: &[Metadata<'_>]) -> Result<(), AllocError> {
    out.key("events")?;
    out.begin_array()?;
    for metadata in metadatas {
        put_events(out, metadata)?;
    }
    out.end_array()
}
