//! `specview folder --otlp`: a line for each kept path, as the receiver `otlpjsonfile` of the OpenTelemetry Collector reads it: a span, its records as
//! events, its status by its reason.

use crate::path_bars::key_text;
use crate::path_events::{MergedTraces, ShownEvent, event_at};
use crate::path_rows::{ThreadName, name_of_thread, thread_names};
use crate::path_trace_id::{CallerText, caller_in, made_trace, run_number, span_number};
use crate::path_words::{KeptEnd, end_of};
use crate::paths::{KeptPath, KeptPaths, PathRecord};
use crate::record_values::{is_shown, label_in, put_float, text_of_field};
use dspec_ctf_reading::folder::{ShownValue, field_text};
use dspec_ctf_reading::{FieldText, Kind, Metadata};
use json::Writer;
use std::alloc::{AllocError, Global};
use std::io;
use std::io::Write;

/// The status of a span that failed.
const STATUS_ERROR: u64 = 2;

/// The kind of a span that answers requests.
const KIND_SERVER: u64 = 2;

/// Adds an attribute that is a text.
fn put_text(out: &mut Writer, key: &str, text: &str) -> Result<(), AllocError> {
    out.begin_object()?;
    out.key("key")?;
    out.string(key)?;
    out.key("value")?;
    out.begin_object()?;
    out.key("stringValue")?;
    out.string(text)?;
    out.end_object()?;
    out.end_object()
}

/// Adds an attribute that is a number: one that its 63 bits don't hold as a text.
fn put_number(out: &mut Writer, key: &str, number: u64) -> Result<(), AllocError> {
    let kind = if number < 1 << 63 {
        "intValue"
    } else {
        "stringValue"
    };
    out.begin_object()?;
    out.key("key")?;
    out.string(key)?;
    out.key("value")?;
    out.begin_object()?;
    out.key(kind)?;
    out.quoted_u64(number)?;
    out.end_object()?;
    out.end_object()
}

/// Adds an attribute that is a number which may be negative.
fn put_signed(out: &mut Writer, key: &str, number: i64) -> Result<(), AllocError> {
    out.begin_object()?;
    out.key("key")?;
    out.string(key)?;
    out.key("value")?;
    out.begin_object()?;
    out.key("intValue")?;
    out.quoted_i64(number)?;
    out.end_object()?;
    out.end_object()
}

/// Adds an attribute that is a float; one that is no number, or infinite, by its name.
fn put_double(out: &mut Writer, key: &str, number: f64) -> Result<(), AllocError> {
    out.begin_object()?;
    out.key("key")?;
    out.string(key)?;
    out.key("value")?;
    out.begin_object()?;
    out.key("doubleValue")?;
    put_float(out, number)?;
    out.end_object()?;
    out.end_object()
}

/// Adds what a number of a field stands for as an attribute.
fn put_shown(out: &mut Writer, field: &FieldText<'_>, number: u64) -> Result<(), AllocError> {
    let key = field.name;
    match ShownValue::of(field.width, field.kind, number) {
        Some(ShownValue::Signed(shown)) => put_signed(out, key, shown),
        Some(ShownValue::Single(shown)) => put_double(out, key, f64::from(shown)),
        Some(ShownValue::Double(shown)) => put_double(out, key, shown),
        Some(ShownValue::Unsigned(_)) | None => put_number(out, key, number),
    }
}

/// Adds the field at a place of an event as an attribute.
fn put_field(
    out: &mut Writer,
    alloc: Global,
    event: &ShownEvent<'_, '_>,
    place: usize,
    field: &FieldText<'_>,
) -> Result<(), AllocError> {
    if field.kind == Kind::Text {
        let text = text_of_field(alloc, event, field)?;
        return put_text(out, field.name, text.as_str());
    }
    let number = event.values.get(place).copied().unwrap_or(0);
    match label_in(field, number) {
        Some(label) => put_text(out, field.name, label),
        None => put_shown(out, field, number),
    }
}

/// When the first mark was, in nanoseconds from the beginning of 1970 on.
fn first_time(of: MergedTraces<'_, '_, '_, '_>) -> u64 {
    match of.merged.marks.first() {
        Some(mark) => u64::try_from(mark.time).unwrap_or(u64::MAX),
        None => 0,
    }
}

/// Adds a member that is a time, so many nanoseconds after the first mark.
fn put_time(
    out: &mut Writer,
    of: MergedTraces<'_, '_, '_, '_>,
    key: &str,
    time: u64,
) -> Result<(), AllocError> {
    out.key(key)?;
    out.quoted_u64(first_time(of).saturating_add(time))
}

/// Adds a record as an event, with its fields that are shown.
fn put_event(
    out: &mut Writer,
    alloc: Global,
    of: MergedTraces<'_, '_, '_, '_>,
    event: &ShownEvent<'_, '_>,
) -> Result<(), AllocError> {
    out.begin_object()?;
    put_time(out, of, "timeUnixNano", event.time)?;
    out.key("name")?;
    out.string(event.text.name)?;
    out.key("attributes")?;
    out.begin_array()?;
    for (place, field) in event.text.fields.iter().enumerate() {
        if is_shown(field) {
            put_field(out, alloc, event, place, field)?;
        }
    }
    out.end_array()?;
    out.end_object()
}

/// Adds a path's records as events.
fn put_events(
    out: &mut Writer,
    alloc: Global,
    of: MergedTraces<'_, '_, '_, '_>,
    records: &[PathRecord],
) -> Result<(), AllocError> {
    out.key("events")?;
    out.begin_array()?;
    for record in records {
        if let Some(event) = event_at(of, record.mark) {
            put_event(out, alloc, of, &event)?;
        }
    }
    out.end_array()
}

/// Whether a path that was kept for this reason failed.
fn is_failure(why: &str) -> bool {
    why == "failed" || why == "crash" || why == "signal"
}

/// Adds the status of a path.
fn put_status(out: &mut Writer, why: &str) -> Result<(), AllocError> {
    out.key("status")?;
    out.begin_object()?;
    if is_failure(why) {
        out.key("code")?;
        out.u64(STATUS_ERROR)?;
        out.key("message")?;
        out.string(why)?;
    }
    out.end_object()
}

/// What the program is called, its machine and its process.
fn put_resource(out: &mut Writer, path: &str, metadata: &Metadata<'_>) -> Result<(), AllocError> {
    out.key("resource")?;
    out.begin_object()?;
    out.key("attributes")?;
    out.begin_array()?;
    match metadata.process {
        Some(process) => {
            put_text(out, "service.name", process.name)?;
            put_text(out, "host.name", process.host)?;
            put_number(out, "process.pid", process.pid)?;
        }
        None => put_text(out, "service.name", path)?,
    }
    out.end_array()?;
    out.end_object()
}

/// The text of a path's first field `traceparent`.
fn header_of(
    alloc: Global,
    of: MergedTraces<'_, '_, '_, '_>,
    records: &[PathRecord],
) -> Result<Option<String>, AllocError> {
    for record in records {
        if let Some(event) = event_at(of, record.mark) {
            if let Some(text) = field_text(alloc, event.text, event.values, "traceparent")? {
                return Ok(Some(text));
            }
        }
    }
    Ok(None)
}

/// Adds the numbers of a path's trace, of its own span and of the one that called it.
fn put_numbers(
    out: &mut Writer,
    alloc: Global,
    run: u64,
    path: &KeptPath,
    end: &KeptEnd,
    caller: Option<CallerText<'_>>,
) -> Result<(), AllocError> {
    out.key("traceId")?;
    match (key_text(alloc, end)?, &caller) {
        (Some(key), _) => out.string(key.as_str())?,
        (None, Some(caller)) => out.string(caller.trace)?,
        (None, None) => {
            let made = made_trace(alloc, run, path.number)?;
            out.string(made.as_str())?;
        }
    }
    let own = span_number(run, path.number);
    let own = format!(in alloc; "{own:016x}")?;
    out.key("spanId")?;
    out.string(own.as_str())?;
    out.key("parentSpanId")?;
    out.string(match &caller {
        Some(caller) => caller.span,
        None => "",
    })
}

/// Adds what the end of a path tells, and the thread that began it.
fn put_attributes(
    out: &mut Writer,
    path: &KeptPath,
    end: &KeptEnd,
    names: &[ThreadName],
) -> Result<(), AllocError> {
    out.key("attributes")?;
    out.begin_array()?;
    put_text(out, "dspec.why", end.why.as_str())?;
    put_number(out, "dspec.path", path.number)?;
    put_number(out, "dspec.cut", end.cut)?;
    put_number(out, "thread.id", end.thread)?;
    if let Some(name) = name_of_thread(names, path.folder, end.thread) {
        put_text(out, "thread.name", name)?;
    }
    out.end_array()
}

/// What a span is made with.
#[derive(Clone, Copy)]
struct SpanPage<'p, 's, 'o, 'a> {
    of: MergedTraces<'p, 's, 'o, 'a>,
    paths: &'p KeptPaths,
    names: &'p [ThreadName],
}

/// Adds the span of a path.
fn put_span(
    out: &mut Writer,
    alloc: Global,
    page: SpanPage<'_, '_, '_, '_>,
    run: u64,
    path: &KeptPath,
) -> Result<(), AllocError> {
    let of = page.of;
    let end = end_of(alloc, of, path)?;
    let records = page.paths.records(alloc, path)?;
    let header = header_of(alloc, of, records.as_slice())?;
    let caller = match &header {
        Some(text) => caller_in(text.as_str()),
        None => None,
    };
    out.begin_object()?;
    put_numbers(out, alloc, run, path, &end, caller)?;
    out.key("name")?;
    out.string(
        match records.first().and_then(|record| event_at(of, record.mark)) {
            Some(event) => event.text.name,
            None => "path",
        },
    )?;
    out.key("kind")?;
    out.u64(KIND_SERVER)?;
    put_time(out, of, "startTimeUnixNano", path.begin)?;
    put_time(
        out,
        of,
        "endTimeUnixNano",
        path.begin.saturating_add(path.took),
    )?;
    put_attributes(out, path, &end, page.names)?;
    put_events(out, alloc, of, records.as_slice())?;
    out.key("droppedEventsCount")?;
    out.u64(end.cut.min(u64::from(u32::MAX)))?;
    put_status(out, end.why.as_str())?;
    out.end_object()
}

/// The line of a path.
fn line_of(
    alloc: Global,
    page: SpanPage<'_, '_, '_, '_>,
    path: &KeptPath,
) -> Result<Vec<u8>, AllocError> {
    let traces = page.of.traces;
    let (Some(opened), Some(metadata)) = (
        traces.opened.get(path.folder),
        traces.metadatas.get(path.folder),
    ) else {
        return Ok(Vec::new(alloc));
    };
    let run = match opened.uuid(metadata) {
        Ok(uuid) => run_number(&uuid),
        Err(_) => 1,
    };
    let mut out = Writer::new(Vec::new(alloc));
    out.begin_object()?;
    out.key("resourceSpans")?;
    out.begin_array()?;
    out.begin_object()?;
    put_resource(&mut out, opened.path, metadata)?;
    out.key("scopeSpans")?;
    out.begin_array()?;
    out.begin_object()?;
    out.key("scope")?;
    out.begin_object()?;
    out.key("name")?;
    out.string("dspec")?;
    out.end_object()?;
    out.key("spans")?;
    out.begin_array()?;
    put_span(&mut out, alloc, page, run, path)?;
    out.end_array()?;
    out.end_object()?;
    out.end_array()?;
    out.end_object()?;
    out.end_array()?;
    out.end_object()?;
    Ok(out.into_inner())
}

/// Writes a line for each path.
pub(crate) fn write_spans<W: Write>(
    alloc: Global,
    out: &mut W,
    of: MergedTraces<'_, '_, '_, '_>,
    paths: &KeptPaths,
) -> io::Result<()> {
    let names = thread_names(alloc, of)?;
    let page = SpanPage {
        of,
        paths,
        names: names.as_slice(),
    };
    for path in &paths.paths {
        let line = line_of(alloc, page, path)?;
        out.write_all(line.as_slice())?;
        out.write_all(b"\n")?;
    }
    Ok(())
}
