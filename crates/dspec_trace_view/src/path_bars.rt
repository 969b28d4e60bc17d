//! Kept paths as bars of Chrome's Trace Event form: each on a row of its thread, its records as marks in it, and within it a bar for each span.

use crate::chart::put_event;
use crate::path_events::{MergedTraces, event_at};
use crate::path_nest::{PathSpan, spans_of};
use crate::path_rows::{RowPath, ThreadName, name_of_thread, rows_of_paths, thread_names};
use crate::path_words::{KeptEnd, end_of, title_of};
use crate::paths::{KeptPath, KeptPaths, PathRecord, marks_of_path};
use dspec_ctf_reading::folder::{RowRecord, Track, chrome_name, chrome_record};
use json::{Writer, is_number};
use std::alloc::{AllocError, Global};
use std::io;
use std::io::Write;

/// A bar: from when to when, what it is called, and in which row.
#[derive(Clone, Copy)]
struct PathBar<'n> {
    track: Track,
    name: &'n str,
    begin: u64,
    end: u64,
}

/// Nanoseconds as microseconds, with three digits after the point.
fn put_micros(out: &mut Writer, alloc: Global, nanoseconds: u64) -> Result<(), AllocError> {
    let micros = nanoseconds / 1000;
    let rest = nanoseconds % 1000;
    let number = format!(in alloc; "{micros}.{rest:03}")?;
    match is_number(number.as_str()) {
        true => out.number(number.as_str()),
        false => out.u64(micros),
    }
}

/// The members of a bar up to its arguments. One without length has a nanosecond, so that it is seen.
fn put_bar(out: &mut Writer, alloc: Global, bar: &PathBar<'_>) -> Result<(), AllocError> {
    out.begin_object()?;
    out.key("ph")?;
    out.string("X")?;
    out.key("pid")?;
    out.u64(bar.track.process)?;
    out.key("tid")?;
    out.u64(bar.track.number)?;
    out.key("ts")?;
    put_micros(out, alloc, bar.begin)?;
    out.key("dur")?;
    put_micros(out, alloc, bar.end.saturating_sub(bar.begin).max(1))?;
    out.key("name")?;
    out.string(bar.name)?;
    out.key("args")?;
    out.begin_object()
}

/// The key of a path, in digits of base 16; None where it has none.
pub(crate) fn key_text(alloc: Global, end: &KeptEnd) -> Result<Option<String>, AllocError> {
    let (high, low) = (end.key_high, end.key_low);
    if high == 0 && low == 0 {
        return Ok(None);
    }
    Ok(Some(format!(in alloc; "{high:016x}{low:016x}")?))
}

/// The bar of a path, with what its end tells.
fn path_bar(
    alloc: Global,
    bar: &PathBar<'_>,
    path: &KeptPath,
    end: &KeptEnd,
    count: usize,
) -> Result<Vec<u8>, AllocError> {
    let mut out = Writer::new(Vec::new(alloc));
    put_bar(&mut out, alloc, bar)?;
    out.key("path")?;
    out.quoted_u64(path.number)?;
    out.key("why")?;
    out.string(end.why.as_str())?;
    out.key("records")?;
    out.quoted_u64(count as u64)?;
    out.key("cut")?;
    out.quoted_u64(end.cut)?;
    if let Some(key) = key_text(alloc, end)? {
        out.key("key")?;
        out.string(key.as_str())?;
    }
    out.end_object()?;
    out.end_object()?;
    Ok(out.into_inner())
}

/// The bar of a span.
fn span_bar(
    alloc: Global,
    track: Track,
    number: u64,
    span: &PathSpan<'_>,
) -> Result<Vec<u8>, AllocError> {
    let mut out = Writer::new(Vec::new(alloc));
    let bar = PathBar {
        track,
        name: span.name,
        begin: span.begin,
        end: span.end,
    };
    put_bar(&mut out, alloc, &bar)?;
    out.key("path")?;
    out.quoted_u64(number)?;
    out.end_object()?;
    out.end_object()?;
    Ok(out.into_inner())
}

/// Writes the bars of a path and of its spans.
fn put_bars<W: Write>(
    alloc: Global,
    out: &mut W,
    of: MergedTraces<'_, '_, '_, '_>,
    track: Track,
    path: &KeptPath,
    records: &[PathRecord],
) -> io::Result<()> {
    let end = end_of(alloc, of, path)?;
    let mut title = title_of(alloc, of, records)?;
    let why = end.why.as_str();
    write!(title, " ({why})")?;
    let bar = PathBar {
        track,
        name: title.as_str(),
        begin: path.begin,
        end: path.begin.saturating_add(path.took),
    };
    let text = path_bar(alloc, &bar, path, &end, records.len())?;
    put_event(out, false, text.as_slice())?;
    for span in spans_of(alloc, of, records, bar.end)? {
        let text = span_bar(alloc, track, path.number, &span)?;
        put_event(out, false, text.as_slice())?;
    }
    Ok(())
}

/// Writes these marks in a row.
fn put_marks<W: Write>(
    alloc: Global,
    out: &mut W,
    of: MergedTraces<'_, '_, '_, '_>,
    track: Track,
    marks: &[usize],
) -> io::Result<()> {
    for mark in marks {
        if let Some(event) = event_at(of, *mark) {
            let record = RowRecord {
                cpu: event.source.cpu,
                nanoseconds: event.time,
                values: event.values,
            };
            let text = chrome_record(alloc, track, event.text, record)?;
            put_event(out, false, text.as_str().as_bytes())?;
        }
    }
    Ok(())
}

/// What a row is called.
fn row_name(alloc: Global, names: &[ThreadName], row: &RowPath) -> Result<String, AllocError> {
    let thread = row.thread;
    let mut name = match name_of_thread(names, row.folder, thread) {
        Some(name) => format!(in alloc; "{name} {thread}")?,
        None if thread == 0 => String::from_str(alloc, "thread unknown")?,
        None => format!(in alloc; "thread {thread}")?,
    };
    if row.row > 0 {
        let number = row.row.saturating_add(1);
        write!(name, " ({number})")?;
    }
    Ok(name)
}

/// Whether both are in one row.
fn is_one_row(one: &RowPath, other: &RowPath) -> bool {
    one.folder == other.folder && one.thread == other.thread && one.row == other.row
}

/// The rows of paths, row by row.
fn sorted_rows(
    alloc: Global,
    of: MergedTraces<'_, '_, '_, '_>,
    paths: &KeptPaths,
) -> Result<Vec<RowPath>, AllocError> {
    let mut rows = rows_of_paths(alloc, of, paths)?;
    rows.sort_by_key(|row| (row.folder, row.thread, row.row))?;
    Ok(rows)
}

/// Writes a path in its row, with all marks that it has.
fn put_path<W: Write>(
    alloc: Global,
    out: &mut W,
    of: MergedTraces<'_, '_, '_, '_>,
    paths: &KeptPaths,
    row: &RowPath,
    track: Track,
) -> io::Result<()> {
    let Some(path) = paths.paths.get(row.path) else {
        return Ok(());
    };
    let records = paths.records(alloc, path)?;
    put_bars(alloc, out, of, track, path, records.as_slice())?;
    let marks = marks_of_path(alloc, paths, path)?;
    put_marks(alloc, out, of, track, marks.as_slice())
}

/// Writes all paths, row by row; the rows are numbered from that number on.
pub(crate) fn put_paths<W: Write>(
    alloc: Global,
    out: &mut W,
    of: MergedTraces<'_, '_, '_, '_>,
    paths: &KeptPaths,
    first_number: u64,
) -> io::Result<()> {
    let names = thread_names(alloc, of)?;
    let mut number = first_number;
    let mut before: Option<RowPath> = None;
    for row in sorted_rows(alloc, of, paths)? {
        let is_new = before.is_none_or(|other| !is_one_row(&other, &row));
        if is_new && before.is_some() {
            number = number.saturating_add(1);
        }
        let track = Track {
            process: (row.folder as u64).saturating_add(1),
            number,
        };
        if is_new {
            let name = row_name(alloc, names.as_slice(), &row)?;
            let text = chrome_name(alloc, track, "thread_name", name.as_str())?;
            put_event(out, false, text.as_str().as_bytes())?;
        }
        put_path(alloc, out, of, paths, &row, track)?;
        before = Some(row);
    }
    Ok(())
}
