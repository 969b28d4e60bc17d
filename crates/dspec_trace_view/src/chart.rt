//! Traces as a document of Chrome's Trace Event form, which ui.perfetto.dev and chrome://tracing open: a process for each folder, and in
//! it a row for each CPU, and rows for the threads whose paths were kept.

use crate::path_bars::put_paths;
use crate::path_events::MergedTraces;
use crate::path_words::put_begin;
use crate::paths::{KeptPaths, marks_of_path};
use dspec_ctf_reading::Metadata;
use dspec_ctf_reading::folder::{Mark, Track, What, chrome_event, chrome_missed, chrome_name};
use dspec_folder_view::{Merged, OpenedTraces, Source};
use std::alloc::{AllocError, Global};
use std::io;
use std::io::Write;

/// What stands before the events.
pub(crate) const FRONT: &str = "{\"displayTimeUnit\":\"ns\",\"traceEvents\":[\n";

/// What comes before them where it is told when the picture begins.
const DATED_FRONT: &str = "{\"displayTimeUnit\":\"ns\",\"otherData\":{\"begin\":\"";

/// What comes after that time.
const DATED_END: &str = "\"},\"traceEvents\":[\n";

/// What comes after the events.
pub(crate) const END: &[u8] = b"\n]}\n";

/// How far events of a trace without a clock are drawn from one another, in nanoseconds.
pub(crate) const STEP: u64 = 1000;

/// The row of a file's events.
pub(crate) fn track_of(source: &Source) -> Track {
    Track {
        process: (source.folder as u64).saturating_add(1),
        number: u64::from(source.cpu).saturating_add(1),
    }
}

/// What a trace is called: by its program, process and machine, where it tells them, else by its folder.
pub(crate) fn name_of(
    alloc: Global,
    path: &str,
    metadata: &Metadata<'_>,
) -> Result<String, AllocError> {
    match metadata.process {
        Some(process) => {
            let (host, name, pid) = (process.host, process.name, process.pid);
            format!(in alloc; "{name} ({pid}) on {host}")
        }
        None => String::from_str(alloc, path),
    }
}

/// The event that names a trace.
pub(crate) fn process_name(
    alloc: Global,
    traces: &OpenedTraces<'_, '_, '_>,
    source: &Source,
) -> Result<String, AllocError> {
    let (Some(opened), Some(metadata)) = (
        traces.opened.get(source.folder),
        traces.metadatas.get(source.folder),
    ) else {
        return Ok(String::new(alloc));
    };
    let name = name_of(alloc, opened.path, metadata)?;
    chrome_name(alloc, track_of(source), "process_name", name.as_str())
}

/// What the row of a CPU is called.
pub(crate) fn cpu_name(alloc: Global, merged: &Merged, cpu: u32) -> Result<String, AllocError> {
    match merged.base {
        Some(_) => format!(in alloc; "cpu {cpu}"),
        None => format!(in alloc; "cpu {cpu} (in order, without a clock)"),
    }
}

/// The event that names the row of a CPU.
fn row_name(alloc: Global, merged: &Merged, source: &Source) -> Result<String, AllocError> {
    let name = cpu_name(alloc, merged, source.cpu)?;
    chrome_name(alloc, track_of(source), "thread_name", name.as_str())
}

/// What happened so many nanoseconds after the picture's beginning, as an event in the row of its CPU.
pub(crate) fn event_of(
    alloc: Global,
    traces: &OpenedTraces<'_, '_, '_>,
    source: &Source,
    what: &What,
    nanoseconds: u64,
) -> Result<String, AllocError> {
    let track = track_of(source);
    match what {
        What::Missed(missed) => chrome_missed(alloc, track, nanoseconds, *missed),
        What::Event(event) => {
            let texts = traces.metadatas.get(source.folder);
            match texts.and_then(|metadata| metadata.events.get(event.place)) {
                Some(text) => {
                    chrome_event(alloc, track, text, nanoseconds, event.values.as_slice())
                }
                None => Ok(String::new(alloc)),
            }
        }
    }
}

/// The time of the first mark, from which on a picture's times are counted.
fn begin_of(merged: &Merged) -> u128 {
    match merged.marks.first() {
        Some(mark) => mark.time,
        None => 0,
    }
}

/// How many nanoseconds a mark is after the picture's beginning, by a clock.
pub(crate) fn after_begin(merged: &Merged, mark: &Mark) -> u64 {
    let nanoseconds = mark.time.saturating_sub(begin_of(merged));
    u64::try_from(nanoseconds).unwrap_or(u64::MAX)
}

/// The same; without a clock by its place in its file.
fn nanoseconds_of(merged: &Merged, mark: &Mark, places: &mut [u64]) -> u64 {
    if merged.base.is_some() {
        return after_begin(merged, mark);
    }
    let Some(place) = places.get_mut(mark.file) else {
        return 0;
    };
    let now = *place;
    *place = now.saturating_add(STEP);
    now
}

/// What stands before the events: with the time of the first of them, from which on a picture's times are counted, where a clock tells it.
fn front_of(alloc: Global, of: MergedTraces<'_, '_, '_, '_>) -> Result<String, AllocError> {
    let mut begin = String::new(alloc);
    put_begin(&mut begin, of)?;
    if begin.is_empty() {
        return String::from_str(alloc, FRONT);
    }
    let begin = begin.as_str();
    format!(in alloc; "{DATED_FRONT}{begin}{DATED_END}")
}

/// The number of the first row that isn't a CPU's: each CPU's is below it.
pub(crate) fn first_number(merged: &Merged) -> u64 {
    let mut first = 1u64;
    for source in &merged.sources {
        first = first.max(track_of(source).number.saturating_add(1));
    }
    first
}

/// Writes an event, after a comma where it isn't the first.
pub(crate) fn put_event<W: Write>(out: &mut W, first: bool, event: &[u8]) -> io::Result<()> {
    if !first {
        out.write_all(b",\n")?;
    }
    out.write_all(event)
}

/// Writes the names of all rows and of their traces, each once.
fn put_names<W: Write>(
    alloc: Global,
    out: &mut W,
    traces: &OpenedTraces<'_, '_, '_>,
    merged: &Merged,
) -> io::Result<()> {
    let mut before: Option<Source> = None;
    for source in &merged.sources {
        if before.is_none_or(|other| other.folder != source.folder) {
            let name = process_name(alloc, traces, source)?;
            put_event(out, before.is_none(), name.as_str().as_bytes())?;
        }
        if before != Some(*source) {
            let name = row_name(alloc, merged, source)?;
            put_event(out, false, name.as_str().as_bytes())?;
        }
        before = Some(*source);
    }
    Ok(())
}

/// Which marks stand in rows of paths.
fn marks_in_paths(
    alloc: Global,
    merged: &Merged,
    paths: &KeptPaths,
) -> Result<Vec<bool>, AllocError> {
    let mut taken = vec![in alloc; false; merged.marks.len()]?;
    for path in &paths.paths {
        for mark in marks_of_path(alloc, paths, path)? {
            if let Some(slot) = taken.get_mut(mark) {
                *slot = true;
            }
        }
    }
    Ok(taken)
}

/// Writes the marks that stand in no row of paths, in the rows of their CPUs.
fn put_marks<W: Write>(
    alloc: Global,
    out: &mut W,
    of: MergedTraces<'_, '_, '_, '_>,
    taken: &[bool],
) -> io::Result<()> {
    let mut places = vec![in alloc; 0u64; of.merged.sources.len()]?;
    for (mark, taken) in of.merged.marks.iter().zip(taken) {
        let nanoseconds = nanoseconds_of(of.merged, mark, places.as_mut_slice());
        if *taken {
            continue;
        }
        let Some(source) = of.merged.sources.get(mark.file) else {
            continue;
        };
        let event = event_of(alloc, of.traces, source, &mark.what, nanoseconds)?;
        put_event(out, false, event.as_str().as_bytes())?;
    }
    Ok(())
}

/// Writes the document.
pub(crate) fn write_chart<W: Write>(
    alloc: Global,
    out: &mut W,
    of: MergedTraces<'_, '_, '_, '_>,
    paths: &KeptPaths,
) -> io::Result<()> {
    let front = front_of(alloc, of)?;
    out.write_all(front.as_str().as_bytes())?;
    put_names(alloc, out, of.traces, of.merged)?;
    let taken = marks_in_paths(alloc, of.merged, paths)?;
    put_marks(alloc, out, of, taken.as_slice())?;
    put_paths(alloc, out, of, paths, first_number(of.merged))?;
    out.write_all(END)
}
