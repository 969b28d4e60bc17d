//! What several trace folders tell, merged by time: each is opened, then its metadata is read, then its files.

ghost use Rattle.std.specs.Prelude.{IfOk};
ghost use Rattle.dspec_folder_view.specs.Merged.{IsInOrder};

use crate::fault::FolderViewFault;
use crate::folder_fault::TraceFolderFault;
use crate::naming::FileName;
use crate::opening::OpenedTrace;
use crate::progress::ReadingProgress;
use dspec_ctf_reading::Metadata;
use dspec_ctf_reading::folder::{Base, Mark, Moment, base_of, marks_of, sort_by_time};
use std::alloc::{AllocError, Global};

/// A file that was read.
#[derive(Debug, Clone, Copy, PartialEq, Eq)]
pub struct Source {
    /// The place of its folder.
    pub folder: usize,
    /// The number of its CPU.
    pub cpu: u32,
}

/// What folders tell, in order of time.
#[derive(Drop)]
pub struct Merged {
    /// What happened. A mark's file is a place in `sources`.
    pub marks: Vec<Mark>,
    /// The files that were read.
    pub sources: Vec<Source>,
    /// From when on times are counted; None where no trace has a clock.
    pub base: Option<Base>,
    /// Whether each file could be read to its end.
    pub sound: bool,
}

/// Traces with their folders.
#[derive(Clone, Copy)]
pub struct OpenedTraces<'s, 'o, 'a> {
    /// The folders.
    pub opened: &'s [OpenedTrace<'a>],
    /// What the metadata of each tells.
    pub metadatas: &'s [Metadata<'o>],
}

/// Opens the folders of these paths.
pub fn open_all<'a>(
    rt: &HostRuntime,
    paths: &[&'a str],
) -> Result<Vec<OpenedTrace<'a>>, FolderViewFault<'a>> {
    let mut opened = Vec::new(rt.alloc());
    for path in paths {
        opened.push(OpenedTrace::of(rt, path)?)?;
    }
    Ok(opened)
}

/// What the metadata of each of these folders tells.
pub fn metadata_of_all<'o, 'a>(
    alloc: Global,
    opened: &'o [OpenedTrace<'a>],
) -> Result<Vec<Metadata<'o>>, FolderViewFault<'a>> {
    let mut metadatas = Vec::new(alloc);
    for folder in opened {
        metadatas.push(folder.metadata(alloc)?)?;
    }
    Ok(metadatas)
}

/// Adds a time: a day and its time, or seconds from the clock's beginning on.
pub fn put_moment(out: &mut String, base: Base, time: u128) -> Result<(), AllocError> {
    if base == Base::Clock {
        let (seconds, rest) = (time / 1_000_000_000, time % 1_000_000_000);
        return write!(out, "{seconds}.{rest:09}");
    }
    let at = Moment::of(time);
    let (year, month, day) = (at.year, at.month, at.day);
    let (hour, minute, second) = (at.hour, at.minute, at.second);
    let rest = at.nanosecond;
    write!(
        out,
        "{year:04}-{month:02}-{day:02} {hour:02}:{minute:02}:{second:02}.{rest:09}"
    )
}

/// From when on the times of all these traces are counted; None where none of them has a clock.
fn common_base<'a>(
    alloc: Global,
    metadatas: &[Metadata<'_>],
) -> Result<Option<Base>, TraceFolderFault<'a>> {
    let mut clocks = Vec::new(alloc);
    for metadata in metadatas {
        if let Some(clock) = metadata.clock {
            if clocks.push(clock).is_err() {
                return Err(TraceFolderFault::Memory);
            }
        }
    }
    if clocks.is_empty() {
        return Ok(None);
    }
    match base_of(clocks.as_slice()) {
        Some(base) if clocks.len() == metadatas.len() => Ok(Some(base)),
        _ => Err(TraceFolderFault::Clocks),
    }
}

/// A trace, and the place of its folder.
#[derive(Clone, Copy)]
struct PlacedTrace<'s, 'o, 'a> {
    opened: &'s OpenedTrace<'a>,
    metadata: &'s Metadata<'o>,
    folder: usize,
}

/// How many files these folders have.
fn files_of(opened: &[OpenedTrace<'_>]) -> usize {
    let mut files = 0usize;
    for folder in opened {
        files = files.saturating_add(folder.files.len());
    }
    files
}

impl Merged {
    /// Adds what a file tells.
    fn add<'a>(
        &mut self,
        rt: &HostRuntime,
        of: PlacedTrace<'_, '_, 'a>,
        file: FileName,
        progress: &mut ReadingProgress,
    ) -> Result<(), FolderViewFault<'a>> {
        progress.next(rt);
        let bytes = of.opened.bytes(rt, file)?;
        let place = self.sources.len();
        self.sources.push(Source {
            folder: of.folder,
            cpu: file.cpu,
        })?;
        let base = self.base.unwrap_or(Base::Clock);
        let marks = &mut self.marks;
        match marks_of(
            rt.alloc(),
            of.metadata,
            base,
            place,
            bytes.as_slice(),
            marks,
        )? {
            None => Ok(()),
            Some(fault) if fault.is_memory() => Err(FolderViewFault::from(AllocError)),
            Some(fault) => {
                self.sound = false;
                progress.tell_wrong(rt, of.opened.path, file, &fault);
                Ok(())
            }
        }
    }

    /// Adds what the files of a folder tell.
    fn add_folder<'a>(
        &mut self,
        rt: &HostRuntime,
        of: PlacedTrace<'_, '_, 'a>,
        progress: &mut ReadingProgress,
    ) -> Result<(), FolderViewFault<'a>> {
        for file in &of.opened.files {
            self.add(rt, of, *file, progress)?;
        }
        Ok(())
    }

    /// Adds what the files of all these folders tell.
    fn add_folders<'a>(
        &mut self,
        rt: &HostRuntime,
        traces: &OpenedTraces<'_, '_, 'a>,
        progress: &mut ReadingProgress,
    ) -> Result<(), FolderViewFault<'a>> {
        let folders = traces.opened.iter().zip(traces.metadatas);
        for (folder, (opened, metadata)) in folders.enumerate() {
            let of = PlacedTrace {
                opened,
                metadata,
                folder,
            };
            self.add_folder(rt, of, progress)?;
        }
        Ok(())
    }
}

/// What the files of these folders tell, in order of time, while this is told of the reading.
fn merge<'a>(
    rt: &HostRuntime,
    traces: &OpenedTraces<'_, '_, 'a>,
    mut progress: ReadingProgress,
) -> Result<Merged, FolderViewFault<'a>>
    ensures { IfOk result (λ merged. IsInOrder merged.marks.items) }
{
    let mut merged = Merged {
        marks: Vec::new(rt.alloc()),
        sources: Vec::new(rt.alloc()),
        base: common_base(rt.alloc(), traces.metadatas)?,
        sound: true,
    };
    let added = merged.add_folders(rt, traces, &mut progress);
    progress.clear(rt);
    added?;
    sort_by_time(&mut merged.marks)?;
    Ok(merged)
}

/// What the files of these folders tell, in order of time: all of it in memory. A file that is wrong is told.
pub fn merge_all<'a>(
    rt: &HostRuntime,
    traces: &OpenedTraces<'_, '_, 'a>,
) -> Result<Merged, FolderViewFault<'a>>
    ensures { IfOk result (λ merged. IsInOrder merged.marks.items) }
{
    merge(
        rt,
        traces,
        ReadingProgress::new(rt, files_of(traces.opened)),
    )
}

/// The same of folders that are written meanwhile: a file that is wrong is read up to there, and isn't told.
pub fn merge_live<'a>(
    rt: &HostRuntime,
    traces: &OpenedTraces<'_, '_, 'a>,
) -> Result<Merged, FolderViewFault<'a>>
    ensures { IfOk result (λ merged. IsInOrder merged.marks.items) }
{
    merge(rt, traces, ReadingProgress::quiet())
}
