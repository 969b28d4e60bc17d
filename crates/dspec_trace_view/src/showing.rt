//! `specview folder --text`, `--json`, `--paths` and `--path`: all that trace folders tell, merged by time.

use crate::chart::write_chart;
use crate::listing::write_list;
use crate::path_events::{MergedTraces, PATH_FIELD};
use crate::path_otlp::write_spans;
use crate::path_page::page_of;
use crate::path_table::{PathChoice, has_path, write_path, write_table};
use crate::paths::KeptPaths;
use crate::tracks::write_tracks;
use dspec_command::output_fault;
use dspec_ctf_reading::Metadata;
use dspec_ctf_reading::folder::Base;
use dspec_folder_view::{
    FolderViewFault, OpenedTraces, TraceFolderFault, merge_all, metadata_of_all, open_all,
};
use std::alloc::{AllocError, Global};
use std::io;
use std::io::{BufWriter, Write};

/// How folders are shown.
#[derive(Debug, Clone, Copy, PartialEq, Eq)]
pub enum OutputFormat<'a> {
    /// A line for each event.
    Text,
    /// A document of Chrome's Trace Event form.
    Json,
    /// The same with a row for each value of the field of this name.
    Tracks(&'a str),
    /// A table of kept paths.
    Paths(PathChoice<'a>),
    /// The records of the path of this number.
    Path(u64),
    /// A line for each kept path, as a collector of OpenTelemetry reads it.
    Spans,
}

/// Whether an event of this trace has a field of that name.
fn has_field(metadata: &Metadata<'_>, name: &str) -> bool {
    for event in &metadata.events {
        if event.fields.iter().any(|field| field.name == name) {
            return true;
        }
    }
    false
}

/// Sees that an event of these traces has a field of that name.
fn see_field<'a>(
    traces: &OpenedTraces<'_, '_, 'a>,
    name: &'a str,
) -> Result<(), TraceFolderFault<'a>> {
    for metadata in traces.metadatas {
        if has_field(metadata, name) {
            return Ok(());
        }
    }
    Err(TraceFolderFault::NoField(name))
}

/// What was written to standard output, or wasn't.
fn written<'a>(outcome: io::Result<()>) -> Result<(), FolderViewFault<'a>> {
    match outcome {
        Ok(()) => Ok(()),
        Err(reason) => Err(FolderViewFault::Command(output_fault(reason))),
    }
}

/// The paths that a shape wants: none where it shows no paths.
fn paths_for(
    alloc: Global,
    of: MergedTraces<'_, '_, '_, '_>,
    shape: OutputFormat<'_>,
) -> Result<KeptPaths, AllocError> {
    match shape {
        OutputFormat::Text | OutputFormat::Tracks(_) => Ok(KeptPaths::none(alloc)),
        OutputFormat::Json | OutputFormat::Paths(_) | OutputFormat::Path(_) | OutputFormat::Spans =>
            KeptPaths::of(alloc, of),
    }
}

/// Sees that there is what is asked for.
fn see_asked<'a>(
    of: MergedTraces<'_, '_, '_, 'a>,
    paths: &KeptPaths,
    shape: OutputFormat<'a>,
) -> Result<(), TraceFolderFault<'a>> {
    match shape {
        OutputFormat::Text | OutputFormat::Json => Ok(()),
        OutputFormat::Tracks(field) => see_field(of.traces, field),
        OutputFormat::Paths(_) => see_field(of.traces, PATH_FIELD),
        OutputFormat::Spans if of.merged.base == Some(Base::Epoch) => see_field(
            of.traces, PATH_FIELD,
        ),
        OutputFormat::Spans => Err(TraceFolderFault::NoDate),
        OutputFormat::Path(number) if has_path(paths, number) => Ok(()),
        OutputFormat::Path(number) => Err(TraceFolderFault::NoPath(number)),
    }
}

/// Writes folders as they are asked for.
fn write_shape<W: Write>(
    alloc: Global,
    out: &mut W,
    of: MergedTraces<'_, '_, '_, '_>,
    paths: &KeptPaths,
    shape: OutputFormat<'_>,
) -> io::Result<()> {
    match shape {
        OutputFormat::Text => write_list(alloc, out, of.traces, of.merged),
        OutputFormat::Json => write_chart(alloc, out, of, paths),
        OutputFormat::Tracks(field) => write_tracks(alloc, out, of.traces, of.merged, field),
        OutputFormat::Paths(choice) => write_table(alloc, out, of, paths, &choice),
        OutputFormat::Path(number) => write_path(alloc, out, of, paths, number),
        OutputFormat::Spans => write_spans(alloc, out, of, paths),
    }
}

/// Shows folders on standard output, and says whether each of their files could be read to its end.
pub fn show_folders<'a>(
    rt: &HostRuntime,
    paths: &[&'a str],
    shape: OutputFormat<'a>,
) -> Result<bool, FolderViewFault<'a>> {
    let opened = open_all(rt, paths)?;
    let metadatas = metadata_of_all(rt.alloc(), opened.as_slice())?;
    let traces = OpenedTraces {
        opened: opened.as_slice(),
        metadatas: metadatas.as_slice(),
    };
    let merged = merge_all(rt, &traces)?;
    let of = MergedTraces {
        traces: &traces,
        merged: &merged,
    };
    let kept = paths_for(rt.alloc(), of, shape)?;
    see_asked(of, &kept, shape)?;
    let mut out = match BufWriter::new(rt.alloc(), io::writer(rt)) {
        Ok(out) => out,
        Err(reason) => return Err(FolderViewFault::Command(output_fault(reason))),
    };
    written(write_shape(rt.alloc(), &mut out, of, &kept, shape))?;
    written(out.flush())?;
    Ok(merged.sound)
}

/// The page of the paths of folders, and whether each of their files could be read to its end.
pub fn page_of_folders<'a>(
    rt: &HostRuntime,
    paths: &[&'a str],
) -> Result<(Vec<u8>, bool), FolderViewFault<'a>> {
    let opened = open_all(rt, paths)?;
    let metadatas = metadata_of_all(rt.alloc(), opened.as_slice())?;
    let traces = OpenedTraces {
        opened: opened.as_slice(),
        metadatas: metadatas.as_slice(),
    };
    see_field(&traces, PATH_FIELD)?;
    let merged = merge_all(rt, &traces)?;
    let of = MergedTraces {
        traces: &traces,
        merged: &merged,
    };
    let kept = KeptPaths::of(rt.alloc(), of)?;
    let page = page_of(rt.alloc(), of, &kept)?;
    Ok((page, merged.sound))
}
