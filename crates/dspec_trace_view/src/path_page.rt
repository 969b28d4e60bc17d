//! `specview folder --html`: kept paths as one page, which asks for nothing from outside. What programs recorded is in it as data: a document of
//! JSON without a character of markup, which the page's script reads, and shows as text alone.

use crate::chart::name_of;
use crate::page_escape::escaped;
use crate::page_script::SCRIPT;
use crate::page_style::STYLE;
use crate::page_text::{AFTER_SCRIPT, BEFORE_DATA, BEFORE_SCRIPT, BEFORE_STYLE};
use crate::path_bars::key_text;
use crate::path_counts::{FolderCounts, counts_of};
use crate::path_events::{MergedTraces, ShownEvent, event_at, value_of};
use crate::path_rows::thread_names;
use crate::path_words::{KeptEnd, crash_place, end_of, put_begin, signal_name};
use crate::paths::{KeptPath, KeptPaths, PathCrash, PathRecord};
use crate::record_values::{put_shown_values, put_texts};
use json::Writer;
use std::alloc::{AllocError, Global};

/// Adds a member that is a number.
fn put_number(out: &mut Writer, key: &str, number: u64) -> Result<(), AllocError> {
    out.key(key)?;
    out.u64(number)
}

/// Adds what the traces are called.
fn put_traces(
    out: &mut Writer,
    alloc: Global,
    of: MergedTraces<'_, '_, '_, '_>,
) -> Result<(), AllocError> {
    out.key("traces")?;
    out.begin_array()?;
    for (opened, metadata) in of.traces.opened.iter().zip(of.traces.metadatas) {
        let name = name_of(alloc, opened.path, metadata)?;
        out.string(name.as_str())?;
    }
    out.end_array()
}

/// Adds what threads are called.
fn put_threads(
    out: &mut Writer,
    alloc: Global,
    of: MergedTraces<'_, '_, '_, '_>,
) -> Result<(), AllocError> {
    out.key("threads")?;
    out.begin_array()?;
    for name in thread_names(alloc, of)? {
        out.begin_array()?;
        out.u64(name.folder as u64)?;
        out.u64(name.thread)?;
        out.string(name.name.as_str())?;
        out.end_array()?;
    }
    out.end_array()
}

/// The place of a reason among those that were told, which it joins where it isn't there.
fn place_of_why(whys: &mut Vec<String>, why: String) -> Result<u64, AllocError> {
    for (place, other) in whys.iter().enumerate() {
        if other.as_str() == why.as_str() {
            return Ok(place as u64);
        }
    }
    let place = whys.len() as u64;
    whys.push(why)?;
    Ok(place)
}

/// Adds the records of a path: of each its event, the nanoseconds since the one before, and its values.
fn put_records(
    out: &mut Writer,
    alloc: Global,
    of: MergedTraces<'_, '_, '_, '_>,
    path: &KeptPath,
    records: &[PathRecord],
) -> Result<(), AllocError> {
    out.begin_array()?;
    let mut before = path.begin;
    for record in records {
        if let Some(event) = event_at(of, record.mark) {
            out.u64(event_number(of, &event))?;
            out.u64(event.time.saturating_sub(before))?;
            put_shown_values(out, alloc, &event)?;
            before = event.time;
        }
    }
    out.end_array()
}

/// The number of an event's kind among those of all folders.
fn event_number(of: MergedTraces<'_, '_, '_, '_>, event: &ShownEvent<'_, '_>) -> u64 {
    let mut number = event.place;
    for metadata in of.traces.metadatas.iter().take(event.source.folder) {
        number = number.saturating_add(metadata.events.len());
    }
    number as u64
}

/// Adds a path.
fn put_path(
    out: &mut Writer,
    alloc: Global,
    of: MergedTraces<'_, '_, '_, '_>,
    paths: &KeptPaths,
    path: &KeptPath,
    whys: &mut Vec<String>,
) -> Result<(), AllocError> {
    let end: KeptEnd = end_of(alloc, of, path)?;
    let key = key_text(alloc, &end)?;
    out.begin_array()?;
    out.u64(path.folder as u64)?;
    out.u64(path.number)?;
    out.u64(path.begin)?;
    out.u64(path.took)?;
    out.u64(place_of_why(whys, end.why)?)?;
    out.u64(end.thread)?;
    out.u64(end.cut)?;
    out.string(match &key {
        Some(key) => key.as_str(),
        None => "",
    })?;
    let records = paths.records(alloc, path)?;
    put_records(out, alloc, of, path, records.as_slice())?;
    out.end_array()
}

/// Adds all paths, and then the reasons for which they were kept.
fn put_paths(
    out: &mut Writer,
    alloc: Global,
    of: MergedTraces<'_, '_, '_, '_>,
    paths: &KeptPaths,
) -> Result<(), AllocError> {
    let mut whys = Vec::new(alloc);
    out.key("paths")?;
    out.begin_array()?;
    for path in &paths.paths {
        put_path(out, alloc, of, paths, path, &mut whys)?;
    }
    out.end_array()?;
    out.key("whys")?;
    out.begin_array()?;
    for why in &whys {
        out.string(why.as_str())?;
    }
    out.end_array()
}

/// Adds a crash.
fn put_crash(
    out: &mut Writer,
    alloc: Global,
    of: MergedTraces<'_, '_, '_, '_>,
    crash: &PathCrash,
) -> Result<(), AllocError> {
    let Some(event) = event_at(of, crash.mark) else {
        return Ok(());
    };
    let signal = signal_name(alloc, value_of(&event, "signal").unwrap_or(0))?;
    let place = crash_place(alloc, of, crash, &event)?;
    out.begin_object()?;
    put_number(out, "folder", crash.folder as u64)?;
    put_number(out, "path", crash.number)?;
    put_number(out, "time", crash.time)?;
    put_number(out, "thread", value_of(&event, "thread").unwrap_or(0))?;
    out.key("signal")?;
    out.string(signal.as_str())?;
    out.key("place")?;
    out.string(place.as_str())?;
    out.end_object()
}

/// Adds all crashes.
fn put_crashes(
    out: &mut Writer,
    alloc: Global,
    of: MergedTraces<'_, '_, '_, '_>,
    paths: &KeptPaths,
) -> Result<(), AllocError> {
    out.key("crashes")?;
    out.begin_array()?;
    for crash in &paths.crashes {
        put_crash(out, alloc, of, crash)?;
    }
    out.end_array()
}

/// Adds from when to when, and the counts.
fn put_head(
    out: &mut Writer,
    alloc: Global,
    of: MergedTraces<'_, '_, '_, '_>,
) -> Result<(), AllocError> {
    let mut begin = String::new(alloc);
    put_begin(&mut begin, of)?;
    let counts: FolderCounts = counts_of(of);
    out.key("begin")?;
    out.string(begin.as_str())?;
    put_number(out, "span", counts.span)?;
    put_number(out, "thrown", counts.thrown)?;
    put_number(out, "refused", counts.refused)?;
    put_number(out, "missed", counts.missed)?;
    put_number(out, "outside", counts.outside)
}

/// The page's data, as a document of JSON.
fn data_of(
    alloc: Global,
    of: MergedTraces<'_, '_, '_, '_>,
    paths: &KeptPaths,
) -> Result<Vec<u8>, AllocError> {
    let mut out = Writer::new(Vec::new(alloc));
    out.begin_object()?;
    put_head(&mut out, alloc, of)?;
    put_traces(&mut out, alloc, of)?;
    put_threads(&mut out, alloc, of)?;
    put_texts(&mut out, of.traces.metadatas)?;
    put_crashes(&mut out, alloc, of, paths)?;
    put_paths(&mut out, alloc, of, paths)?;
    out.end_object()?;
    Ok(out.into_inner())
}

/// The page.
pub(crate) fn page_of(
    alloc: Global,
    of: MergedTraces<'_, '_, '_, '_>,
    paths: &KeptPaths,
) -> Result<Vec<u8>, AllocError> {
    let json = data_of(alloc, of, paths)?;
    let data = escaped(alloc, json.as_slice())?;
    let mut page = Vec::new(alloc);
    for part in [
        BEFORE_STYLE.as_bytes(),
        STYLE.as_bytes(),
        BEFORE_DATA.as_bytes(),
        data.as_slice(),
        BEFORE_SCRIPT.as_bytes(),
        SCRIPT.as_bytes(),
        AFTER_SCRIPT.as_bytes(),
    ] {
        page.extend_from_slice(part)?;
    }
    Ok(page)
}
