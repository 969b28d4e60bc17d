//! `specview folder --json --track FIELD`: the document with a row for each value of a field. A path has such a row where its records have its
//! number: they stand in it in order of time, whichever CPUs they were made on.

use crate::chart::{
    END, FRONT, STEP, after_begin, cpu_name, event_of, first_number, process_name, put_event,
};
use dspec_ctf_reading::EventText;
use dspec_ctf_reading::folder::{
    Mark, RowRecord, Track, What, chrome_name, chrome_record, field_text,
};
use dspec_folder_view::{Merged, OpenedTraces, Source};
use std::alloc::{AllocError, Global};
use std::io;
use std::io::Write;

/// Whose row it is.
#[derive(Debug, PartialEq, Eq, PartialOrd, Ord, Drop)]
enum Owner {
    /// That of a CPU: of records without the field, and of what was missed.
    Cpu(u32),
    /// That of a value of the field, by its text.
    Value(String),
}

/// Where a mark is drawn.
#[derive(Debug, PartialEq, Eq, PartialOrd, Ord, Drop)]
struct Placed {
    /// The place of its folder.
    folder: usize,
    /// Whose row it stands in.
    owner: Owner,
    /// The mark's place in order of time.
    mark: usize,
}

/// A row, by the places of its marks in the list of all.
#[derive(Debug, Clone, Copy)]
struct TrackRow {
    start: usize,
    end: usize,
    /// Rows of CPUs come first, then those of values by their first marks.
    order: usize,
}

/// What a row is drawn with.
#[derive(Clone, Copy)]
struct Page<'p, 's, 'o, 'a, 'f> {
    traces: &'p OpenedTraces<'s, 'o, 'a>,
    merged: &'s Merged,
    /// The name of the field.
    field: &'f str,
}

/// Whose row a mark of this file stands in.
fn owner_of(
    alloc: Global,
    traces: &OpenedTraces<'_, '_, '_>,
    source: &Source,
    mark: &Mark,
    field: &str,
) -> Result<Owner, AllocError> {
    let What::Event(event) = &mark.what else {
        return Ok(Owner::Cpu(source.cpu));
    };
    let texts = traces.metadatas.get(source.folder);
    let Some(text) = texts.and_then(|metadata| metadata.events.get(event.place)) else {
        return Ok(Owner::Cpu(source.cpu));
    };
    match field_text(alloc, text, event.values.as_slice(), field)? {
        Some(value) => Ok(Owner::Value(value)),
        None => Ok(Owner::Cpu(source.cpu)),
    }
}

/// All marks, row by row; those of one row in order of time.
fn placed_marks(
    alloc: Global,
    traces: &OpenedTraces<'_, '_, '_>,
    merged: &Merged,
    field: &str,
) -> Result<Vec<Placed>, AllocError> {
    let mut all = Vec::new(alloc);
    for (place, mark) in merged.marks.iter().enumerate() {
        let Some(source) = merged.sources.get(mark.file) else {
            continue;
        };
        all.push(Placed {
            folder: source.folder,
            owner: owner_of(alloc, traces, source, mark, field)?,
            mark: place,
        })?;
    }
    all.sort()?;
    Ok(all)
}

/// Whether both stand in one row.
fn is_one_row(one: &Placed, other: &Placed) -> bool {
    one.folder == other.folder && one.owner == other.owner
}

/// The rows of these marks.
fn rows_of(alloc: Global, all: &[Placed]) -> Result<Vec<TrackRow>, AllocError> {
    let mut rows: Vec<TrackRow> = Vec::new(alloc);
    for (place, placed) in all.iter().enumerate() {
        let end = place.saturating_add(1);
        if let Some(row) = rows.last_mut() {
            if all
                .get(row.start)
                .is_some_and(|first| is_one_row(first, placed))
            {
                row.end = end;
                continue;
            }
        }
        let order = match placed.owner {
            Owner::Cpu(_) => 0,
            Owner::Value(_) => placed.mark.saturating_add(1),
        };
        rows.push(TrackRow {
            start: place,
            end,
            order,
        })?;
    }
    rows.sort_by_key(|row| row.order)?;
    Ok(rows)
}

/// What a row is called.
fn name_of(
    alloc: Global,
    page: Page<'_, '_, '_, '_, '_>,
    owner: &Owner,
) -> Result<String, AllocError> {
    let field = page.field;
    match owner {
        Owner::Cpu(cpu) => cpu_name(alloc, page.merged, *cpu),
        Owner::Value(value) => {
            let value = value.as_str();
            match page.merged.base {
                Some(_) => format!(in alloc; "{field} {value}"),
                None => format!(in alloc; "{field} {value} (in order, without a clock)"),
            }
        }
    }
}

/// How many nanoseconds a mark is after the picture's beginning; without a clock by its place in its row.
fn nanoseconds_in(merged: &Merged, mark: &Mark, place: usize) -> u64 {
    if merged.base.is_some() {
        return after_begin(merged, mark);
    }
    STEP.saturating_mul(place as u64)
}

/// The record at a place of a row of a value, and the text of its event.
fn record_at<'s, 'o>(
    page: Page<'_, 's, 'o, '_, '_>,
    row: &[Placed],
    place: usize,
) -> Option<(&'s EventText<'o>, RowRecord<'s>)> {
    let mark = page.merged.marks.get(row.get(place)?.mark)?;
    let source = page.merged.sources.get(mark.file)?;
    let What::Event(event) = &mark.what else {
        return None;
    };
    let text = page
        .traces
        .metadatas
        .get(source.folder)?
        .events
        .get(event.place)?;
    let record = RowRecord {
        cpu: source.cpu,
        nanoseconds: nanoseconds_in(page.merged, mark, place),
        values: event.values.as_slice(),
    };
    Some((text, record))
}

/// Writes the records of a row of a value, each once.
fn put_records<W: Write>(
    alloc: Global,
    out: &mut W,
    page: Page<'_, '_, '_, '_, '_>,
    row: &[Placed],
    track: Track,
) -> io::Result<()> {
    for place in 0..row.len() {
        if let Some((text, record)) = record_at(page, row, place) {
            let event = chrome_record(alloc, track, text, record)?;
            put_event(out, false, event.as_str().as_bytes())?;
        }
    }
    Ok(())
}

/// Writes the marks of a CPU's row.
fn put_marks<W: Write>(
    alloc: Global,
    out: &mut W,
    page: Page<'_, '_, '_, '_, '_>,
    row: &[Placed],
) -> io::Result<()> {
    for (place, placed) in row.iter().enumerate() {
        let Some(mark) = page.merged.marks.get(placed.mark) else {
            continue;
        };
        let Some(source) = page.merged.sources.get(mark.file) else {
            continue;
        };
        let nanoseconds = nanoseconds_in(page.merged, mark, place);
        let event = event_of(alloc, page.traces, source, &mark.what, nanoseconds)?;
        put_event(out, false, event.as_str().as_bytes())?;
    }
    Ok(())
}

/// Writes a row: its name, and what stands in it. The number is for a row of a value.
fn put_row<W: Write>(
    alloc: Global,
    out: &mut W,
    page: Page<'_, '_, '_, '_, '_>,
    row: &[Placed],
    number: u64,
) -> io::Result<()> {
    let Some(first) = row.first() else {
        return Ok(());
    };
    let track = Track {
        process: (first.folder as u64).saturating_add(1),
        number: match first.owner {
            Owner::Cpu(cpu) => u64::from(cpu).saturating_add(1),
            Owner::Value(_) => number,
        },
    };
    let name = name_of(alloc, page, &first.owner)?;
    let event = chrome_name(alloc, track, "thread_name", name.as_str())?;
    put_event(out, false, event.as_str().as_bytes())?;
    match first.owner {
        Owner::Cpu(_) => put_marks(alloc, out, page, row),
        Owner::Value(_) => put_records(alloc, out, page, row, track),
    }
}

/// Writes the names of all traces that have a file.
fn put_processes<W: Write>(
    alloc: Global,
    out: &mut W,
    page: Page<'_, '_, '_, '_, '_>,
) -> io::Result<()> {
    let mut before: Option<usize> = None;
    for source in &page.merged.sources {
        if before != Some(source.folder) {
            let name = process_name(alloc, page.traces, source)?;
            put_event(out, before.is_none(), name.as_str().as_bytes())?;
        }
        before = Some(source.folder);
    }
    Ok(())
}

/// Writes the document, row by row.
pub(crate) fn write_tracks<'s, W: Write>(
    alloc: Global,
    out: &mut W,
    traces: &OpenedTraces<'s, '_, '_>,
    merged: &'s Merged,
    field: &str,
) -> io::Result<()> {
    let page = Page {
        traces,
        merged,
        field,
    };
    let all = placed_marks(alloc, traces, merged, field)?;
    let rows = rows_of(alloc, all.as_slice())?;
    out.write_all(FRONT.as_bytes())?;
    put_processes(alloc, out, page)?;
    let mut number = first_number(merged);
    for row in &rows {
        if let Some(marks) = all.get(row.start..row.end) {
            put_row(alloc, out, page, marks, number)?;
        }
        number = number.saturating_add(1);
    }
    out.write_all(END)
}
