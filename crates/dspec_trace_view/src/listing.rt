//! Traces as lines of text.

use dspec_ctf_reading::Metadata;
use dspec_ctf_reading::folder::{Mark, What, event_text, missed_text};
use dspec_folder_view::{Merged, OpenedTraces, put_moment};
use std::alloc::{AllocError, Global};
use std::io;
use std::io::Write;

/// Adds whose trace it is: its machine, program and process, where it tells them, else its folder.
pub(crate) fn put_whose(
    out: &mut String,
    path: &str,
    metadata: &Metadata<'_>,
) -> Result<(), AllocError> {
    match metadata.process {
        Some(process) => {
            let (host, name, pid) = (process.host, process.name, process.pid);
            write!(out, "{host} {name}[{pid}] ")
        }
        None => write!(out, "{path} "),
    }
}

/// What happened, in words.
fn words_of(alloc: Global, metadata: &Metadata<'_>, what: &What) -> Result<String, AllocError> {
    match what {
        What::Missed(missed) => missed_text(alloc, *missed),
        What::Event(event) => match metadata.events.get(event.place) {
            Some(text) => event_text(alloc, text, event.values.as_slice()),
            None => Ok(String::new(alloc)),
        },
    }
}

/// The line of a mark.
fn line_of(
    alloc: Global,
    traces: &OpenedTraces<'_, '_, '_>,
    merged: &Merged,
    mark: &Mark,
) -> Result<String, AllocError> {
    let mut line = String::new(alloc);
    let Some(source) = merged.sources.get(mark.file) else {
        return Ok(line);
    };
    let (Some(opened), Some(metadata)) = (
        traces.opened.get(source.folder),
        traces.metadatas.get(source.folder),
    ) else {
        return Ok(line);
    };
    if let Some(base) = merged.base {
        put_moment(&mut line, base, mark.time)?;
        line.push(' ')?;
    }
    put_whose(&mut line, opened.path, metadata)?;
    let words = words_of(alloc, metadata, &mark.what)?;
    let (cpu, words) = (source.cpu, words.as_str());
    write!(line, "cpu {cpu} {words}\n")?;
    Ok(line)
}

/// Writes a line for each mark, in their order.
pub(crate) fn write_list<W: Write>(
    alloc: Global,
    out: &mut W,
    traces: &OpenedTraces<'_, '_, '_>,
    merged: &Merged,
) -> io::Result<()> {
    for mark in &merged.marks {
        let line = line_of(alloc, traces, merged, mark)?;
        out.write_all(line.as_str().as_bytes())?;
    }
    Ok(())
}
