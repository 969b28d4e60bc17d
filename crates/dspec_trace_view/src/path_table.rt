//! `specview folder --paths` and `--path`: the kept paths in a table, and one path's records.

ghost use Rattle.std.specs.Prelude.{◌↔◌, ◌≤◌, ◌+◌, IsTrue};

use crate::chart::after_begin;
use crate::listing::put_whose;
use crate::path_events::{MergedTraces, event_at};
use crate::path_words::{KeptEnd, end_of, put_time, put_took, record_text};
use crate::paths::{KeptPath, KeptPaths, PathRecord, marks_of_path};
use std::alloc::{AllocError, Global};
use std::io;
use std::io::Write;

/// Which paths a table has.
#[derive(Debug, Clone, Copy, PartialEq, Eq)]
pub struct PathChoice<'a> {
    /// Those that were kept for this reason.
    pub why: Option<&'a str>,
    /// Those that took so many nanoseconds or more.
    pub longer: u64,
    /// Those with a record of this name.
    pub event: Option<&'a str>,
    /// Those that ended so many nanoseconds before the last event, or later.
    pub since: u64,
}

/// The words above a table.
pub(crate) const TITLES: &str =
    "      path  why           thread  begin                                 took  records    cut  first record\n";

/// Whether a path has a record of that name.
fn has_event(of: MergedTraces<'_, '_, '_, '_>, records: &[PathRecord], name: &str) -> bool {
    for record in records {
        if event_at(of, record.mark).is_some_and(|event| event.text.name == name) {
            return true;
        }
    }
    false
}

/// When the last event was, in nanoseconds after the first.
fn last_time(of: MergedTraces<'_, '_, '_, '_>) -> u64 {
    match of.merged.marks.last() {
        Some(mark) => after_begin(of.merged, mark),
        None => 0,
    }
}

/// Whether what ended at one time did so within that many nanoseconds before the last, or after it.
fn is_within(end: u64, last: u64, span: u64) -> bool
    ensures { IsTrue result ↔ last ≤ end + span }
{
    last.saturating_sub(end) <= span
}

/// Whether a path is among those that are asked for.
pub(crate) fn is_chosen(
    of: MergedTraces<'_, '_, '_, '_>,
    choice: &PathChoice<'_>,
    path: &KeptPath,
    end: &KeptEnd,
    records: &[PathRecord],
) -> bool {
    if path.took < choice.longer {
        return false;
    }
    let end_time = path.begin.saturating_add(path.took);
    if !is_within(end_time, last_time(of), choice.since) {
        return false;
    }
    if let Some(why) = choice.why
        && why != end.why.as_str()
    {
        return false;
    }
    let Some(name) = choice.event else {
        return true;
    };
    has_event(of, records, name)
}

/// The words of a path's first record.
fn first_words(
    alloc: Global,
    of: MergedTraces<'_, '_, '_, '_>,
    records: &[PathRecord],
) -> Result<String, AllocError> {
    match records.first().and_then(|record| event_at(of, record.mark)) {
        Some(event) => record_text(alloc, &event),
        None => Ok(String::new(alloc)),
    }
}

/// Adds whose path it is, where there are several folders.
fn put_folder(
    out: &mut String,
    of: MergedTraces<'_, '_, '_, '_>,
    folder: usize,
) -> Result<(), AllocError> {
    let (Some(opened), Some(metadata)) = (
        of.traces.opened.get(folder),
        of.traces.metadatas.get(folder),
    ) else {
        return Ok(());
    };
    if of.traces.opened.len() < 2 {
        return Ok(());
    }
    put_whose(out, opened.path, metadata)
}

/// The line of a path.
pub(crate) fn line_of(
    alloc: Global,
    of: MergedTraces<'_, '_, '_, '_>,
    path: &KeptPath,
    end: &KeptEnd,
    records: &[PathRecord],
) -> Result<String, AllocError> {
    let mut begin = String::new(alloc);
    put_time(&mut begin, of, path.begin)?;
    let mut took = String::new(alloc);
    put_took(&mut took, path.took)?;
    let (number, why, thread) = (path.number, end.why.as_str(), end.thread);
    let (begin, took) = (begin.as_str(), took.as_str());
    let (count, cut) = (records.len(), end.cut);
    let mut line = format!(in alloc;
        "{number:>10}  {why:<10}  {thread:>8}  {begin:<29}  {took:>11}  {count:>7}  {cut:>5}  "
    )?;
    put_folder(&mut line, of, path.folder)?;
    let first = first_words(alloc, of, records)?;
    line.push_str(first.as_str())?;
    line.push('\n')?;
    Ok(line)
}

/// Writes the table of the paths that are asked for, the one that took longest first.
pub(crate) fn write_table<W: Write>(
    alloc: Global,
    out: &mut W,
    of: MergedTraces<'_, '_, '_, '_>,
    paths: &KeptPaths,
    choice: &PathChoice<'_>,
) -> io::Result<()> {
    out.write_all(TITLES.as_bytes())?;
    for path in &paths.paths {
        let end = end_of(alloc, of, path)?;
        let records = paths.records(alloc, path)?;
        if is_chosen(of, choice, path, &end, records.as_slice()) {
            let line = line_of(alloc, of, path, &end, records.as_slice())?;
            out.write_all(line.as_str().as_bytes())?;
        }
    }
    Ok(())
}

/// The line of a record: how long after its path's begin it was made, and its words.
fn record_line(
    alloc: Global,
    of: MergedTraces<'_, '_, '_, '_>,
    path: &KeptPath,
    mark: usize,
) -> Result<String, AllocError> {
    let Some(event) = event_at(of, mark) else {
        return Ok(String::new(alloc));
    };
    let after = event.time.saturating_sub(path.begin);
    let (seconds, rest) = (after / 1_000_000_000, after % 1_000_000_000);
    let words = record_text(alloc, &event)?;
    let words = words.as_str();
    format!(in alloc; "  +{seconds}.{rest:09}  {words}\n")
}

/// Writes a path's records, and the crash and the end that it has.
fn write_records<W: Write>(
    alloc: Global,
    out: &mut W,
    of: MergedTraces<'_, '_, '_, '_>,
    paths: &KeptPaths,
    path: &KeptPath,
) -> io::Result<()> {
    let marks = marks_of_path(alloc, paths, path)?;
    for mark in &marks {
        let line = record_line(alloc, of, path, *mark)?;
        out.write_all(line.as_str().as_bytes())?;
    }
    Ok(())
}

/// Whether there is a path of that number.
pub(crate) fn has_path(paths: &KeptPaths, number: u64) -> bool {
    paths.paths.iter().any(|path| path.number == number)
}

/// Writes the records of each path of that number, below its line.
pub(crate) fn write_path<W: Write>(
    alloc: Global,
    out: &mut W,
    of: MergedTraces<'_, '_, '_, '_>,
    paths: &KeptPaths,
    number: u64,
) -> io::Result<()> {
    out.write_all(TITLES.as_bytes())?;
    for path in &paths.paths {
        if path.number == number {
            let end = end_of(alloc, of, path)?;
            let records = paths.records(alloc, path)?;
            let line = line_of(alloc, of, path, &end, records.as_slice())?;
            out.write_all(line.as_str().as_bytes())?;
            write_records(alloc, out, of, paths, path)?;
        }
    }
    Ok(())
}
