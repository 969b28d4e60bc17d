//! The rows of threads: which path is drawn in which of them. Where paths of one thread are open at once, as on an event loop, it has several.

ghost use Rattle.std.specs.Prelude.{◌≡◌, ◌≢◌, ◌≤◌, OnOk, get_or, length, ℕ};

use crate::path_events::{MergedTraces, ShownEvent, event_at, value_of};
use crate::path_words::thread_of;
use crate::paths::KeptPaths;
use dspec_ctf_reading::folder::field_text;
use std::alloc::{AllocError, Global};

/// The event that names a thread.
const THREAD_EVENT: &str = "dspec_thread";

/// A path on its way to its row.
#[derive(Debug, Clone, Copy, PartialEq, Eq, PartialOrd, Ord)]
struct ThreadPath {
    /// The place of its folder.
    folder: usize,
    /// The thread that began it.
    thread: u64,
    /// In nanoseconds after the first mark.
    begin: u64,
    /// The same.
    end: u64,
    /// Its place in the list of all.
    path: usize,
}

/// A path in its row.
#[derive(Debug, Clone, Copy)]
pub(crate) struct RowPath {
    /// The place of its folder.
    pub folder: usize,
    /// The thread that began it; 0 where that isn't told.
    pub thread: u64,
    /// Which of the thread's rows it is in, from 0 on.
    pub row: usize,
    /// Its place in the list of all.
    pub path: usize,
}

/// What a thread is called.
#[derive(Debug, Drop)]
pub(crate) struct ThreadName {
    /// The place of its folder.
    pub folder: usize,
    /// Its number.
    pub thread: u64,
    /// Its name.
    pub name: String,
}

/// All paths by folder, thread and begin.
fn by_thread(
    alloc: Global,
    of: MergedTraces<'_, '_, '_, '_>,
    paths: &KeptPaths,
) -> Result<Vec<ThreadPath>, AllocError> {
    let mut all = Vec::new(alloc);
    for (place, path) in paths.paths.iter().enumerate() {
        all.push(ThreadPath {
            folder: path.folder,
            thread: thread_of(of, path),
            begin: path.begin,
            end: path.begin.saturating_add(path.took.max(1)),
            path: place,
        })?;
    }
    all.sort()?;
    Ok(all)
}

/// The first of these rows that is free from that time on, by the times at which they end; a further one where none is.
fn free_row(ends: &[u64], begin: u64) -> usize
    ensures place { result ≤ length ends.now }
    ensures free { get_or ends.now result 0 ≤ begin }
{
    for (row, end) in ends.iter().enumerate() {
        if *end <= begin {
            return row;
        }
    }
    ends.len()
}

/// Takes a row until that time: one of those that are there, or the next one.
fn take_row(ends: &mut Vec<u64>, row: usize, until: u64) -> Result<(), AllocError>
    requires { row ≤ length ends.old.items }
    ensures taken { OnOk result (get_or ends.new.items row 0 ≡ until) }
    ensures others { OnOk result ((other : ℕ) → other ≢ row → get_or ends.new.items other 0 ≡ get_or ends.old.items other 0) }
{
    if let Some(end) = ends.get_mut(row) {
        *end = until;
        return Ok(());
    }
    Ok(ends.push(until)?)
}

/// Each path in a row of its thread, by folder, thread and begin: those of one row don't overlap.
pub(crate) fn rows_of_paths(
    alloc: Global,
    of: MergedTraces<'_, '_, '_, '_>,
    paths: &KeptPaths,
) -> Result<Vec<RowPath>, AllocError> {
    let mut rows = Vec::new(alloc);
    let mut ends: Vec<u64> = Vec::new(alloc);
    let mut before: Option<(usize, u64)> = None;
    for path in by_thread(alloc, of, paths)? {
        if before != Some((path.folder, path.thread)) {
            ends.clear();
        }
        before = Some((path.folder, path.thread));
        let row = free_row(ends.as_slice(), path.begin);
        take_row(&mut ends, row, path.end)?;
        rows.push(RowPath {
            folder: path.folder,
            thread: path.thread,
            row,
            path: path.path,
        })?;
    }
    Ok(rows)
}

/// What an event calls a thread, if it does.
fn name_in(alloc: Global, event: &ShownEvent<'_, '_>) -> Result<Option<ThreadName>, AllocError> {
    if event.text.name != THREAD_EVENT {
        return Ok(None);
    }
    let Some(thread) = value_of(event, "thread") else {
        return Ok(None);
    };
    match field_text(alloc, event.text, event.values, "name")? {
        Some(name) => Ok(Some(ThreadName {
            folder: event.source.folder,
            thread,
            name,
        })),
        None => Ok(None),
    }
}

/// What threads are called, by the tracer's events.
pub(crate) fn thread_names(
    alloc: Global,
    of: MergedTraces<'_, '_, '_, '_>,
) -> Result<Vec<ThreadName>, AllocError> {
    let mut names = Vec::new(alloc);
    for mark in 0..of.merged.marks.len() {
        let Some(event) = event_at(of, mark) else {
            continue;
        };
        if let Some(name) = name_in(alloc, &event)? {
            names.push(name)?;
        }
    }
    Ok(names)
}

/// The name of a thread, where one is told.
pub(crate) fn name_of_thread<'n>(
    names: &'n [ThreadName],
    folder: usize,
    thread: u64,
) -> Option<&'n str> {
    for name in names {
        if name.folder == folder && name.thread == thread {
            return Some(name.name.as_str());
        }
    }
    None
}
