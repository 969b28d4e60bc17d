//! `specview folder --paths --follow`: kept paths as they come, of a folder that is being written.

ghost use Rattle.std.specs.Prelude.{◌≡◌};
ghost use Rattle.dspec_trace_view.specs.Following.{is_told_now};

use crate::path_events::MergedTraces;
use crate::path_table::{PathChoice, TITLES, is_chosen, line_of};
use crate::path_words::end_of;
use crate::paths::{KeptPath, KeptPaths, PathRecord};
use dspec_command::{CommandFault, device_fault, print_text};
use dspec_folder_view::{
    FolderViewFault, OpenedTraces, TraceFolderFault, merge_live, metadata_of_all, open_all,
};
use std::alloc::{AllocError, Global};
use std::collections::BTreeMap;
use std::sync::Wait;
use std::time::{Duration, Instant};
use std::{fs, io, thread};

/// How long it waits between two readings.
const PERIOD_SECONDS: u64 = 1;

/// A path of a folder that is followed.
#[derive(Debug, Clone, Copy, PartialEq, Eq, PartialOrd, Ord, Drop)]
struct EndedPath {
    /// Its number.
    number: u64,
    /// When its end was recorded, in nanoseconds of the folder's clock.
    end: u128,
}

/// What a reading had of a path.
#[derive(Debug, Clone, Copy)]
struct PathReading {
    /// How many records.
    records: usize,
    /// Whether it was told by then.
    is_told: bool,
}

/// What a reading had of all paths that had ended.
type EndedPaths = BTreeMap<EndedPath, PathReading>;

/// A part of a trace with a bound; of another the folder itself.
#[derive(Debug, Drop)]
struct FolderPart {
    /// Its number.
    number: u64,
    /// Its path.
    path: String,
}

/// Whether a path is told now, of which a reading has so many records, by what the reading before had: once, when two readings one after the other
/// have the same records of it, or when no other follows.
fn is_told_now(before: Option<PathReading>, records: usize, is_last: bool) -> bool
    ensures { result ≡ is_told_now before records is_last }
{
    match before {
        None => is_last,
        Some(before) => !before.is_told && (is_last || before.records == records),
    }
}

/// The paths that have ended, in order of their ends.
fn ended_paths(alloc: Global, paths: &KeptPaths) -> Result<Vec<KeptPath>, AllocError> {
    let mut ended = Vec::new(alloc);
    for path in &paths.paths {
        if path.kept.is_some() {
            ended.push(*path)?;
        }
    }
    ended.sort_by_key(|path: &KeptPath| path.kept.unwrap_or(0))?;
    Ok(ended)
}

/// Which path it is.
fn ended_path(of: MergedTraces<'_, '_, '_, '_>, path: &KeptPath) -> EndedPath {
    let mark = path.kept.and_then(|place| of.merged.marks.get(place));
    EndedPath {
        number: path.number,
        end: match mark {
            Some(mark) => mark.time,
            None => 0,
        },
    }
}

/// The line of a path, where it is among those that are asked for.
fn chosen_line(
    alloc: Global,
    of: MergedTraces<'_, '_, '_, '_>,
    choice: &PathChoice<'_>,
    path: &KeptPath,
    records: &[PathRecord],
) -> Result<Option<String>, AllocError> {
    let end = end_of(alloc, of, path)?;
    if !is_chosen(of, choice, path, &end, records) {
        return Ok(None);
    }
    Ok(Some(line_of(alloc, of, path, &end, records)?))
}

/// Whether memory was wanting: any other fault is that of a folder that is being written, begun or removed, and the next reading sees what became of it.
fn is_memory(fault: &FolderViewFault<'_>) -> bool {
    match fault {
        FolderViewFault::Command(CommandFault::Memory)
        | FolderViewFault::Folder(TraceFolderFault::Memory) => true,
        _ => false,
    }
}

/// The number in the name of a part of a trace with a bound: after the trace's own name and a point.
fn part_number(name: &str, base: &str) -> Option<u64> {
    let digits = name.strip_prefix(base)?.strip_prefix('.')?;
    if digits.bytes().all(|byte| byte.is_ascii_digit()) {
        digits.parse().ok()
    } else {
        None
    }
}

/// Whether a folder has the metadata of a trace.
fn has_metadata(rt: &HostRuntime, folder: &str) -> Result<bool, AllocError> {
    let metadata = format!(in rt.alloc(); "{folder}/metadata")?;
    Ok(fs::metadata(rt, metadata.as_str()).is_ok())
}

/// The parts of a trace with a bound that are there, by age: of `FOLDER` the folders `FOLDER.0`, `FOLDER.1` and so on.
fn numbered_parts(rt: &HostRuntime, folder: &str) -> io::Result<Vec<FolderPart>> {
    let (above, base) = folder.rsplit_once('/').unwrap_or((".", folder));
    let above = if above.is_empty() { "/" } else { above };
    let mut parts = Vec::new(rt.alloc());
    for entry in fs::read_dir(rt, above)? {
        let entry = entry?;
        if let Some(number) = part_number(entry.file_name(), base) {
            let path = format!(in rt.alloc(); "{folder}.{number}")?;
            if has_metadata(rt, path.as_str())? {
                parts.push(FolderPart { number, path })?;
            }
        }
    }
    parts.sort_by_key(|part: &FolderPart| part.number)?;
    Ok(parts)
}

/// The parts of the trace of this name that are there, by age: the folder itself, else those of a trace with a bound.
fn parts_of(rt: &HostRuntime, folder: &str) -> io::Result<Vec<FolderPart>> {
    if !has_metadata(rt, folder)? {
        return numbered_parts(rt, folder);
    }
    let mut parts = Vec::new(rt.alloc());
    let path = String::from_str(rt.alloc(), folder)?;
    parts.push(FolderPart { number: 0, path })?;
    Ok(parts)
}

/// What a reading tells, and what it had.
#[derive(Drop)]
struct ToldReading {
    /// The lines of the paths that are told now.
    lines: String,
    /// All paths that had ended.
    paths: EndedPaths,
}

/// A trace that is followed.
#[derive(Drop)]
struct FollowedTrace<'c> {
    /// Which paths are told.
    choice: PathChoice<'c>,
    /// The number of the part that was read last.
    number: u64,
    /// What that reading had.
    paths: EndedPaths,
    /// Whether what can't be read is told no more: a part was read, or it was told.
    is_quiet: bool,
}

impl<'c> FollowedTrace<'c> {
    /// What is told of a reading.
    fn told_of(
        &self,
        alloc: Global,
        of: MergedTraces<'_, '_, '_, '_>,
        is_last: bool,
    ) -> Result<ToldReading, AllocError> {
        let kept = KeptPaths::of(alloc, of)?;
        let mut lines = String::new(alloc);
        let mut paths = BTreeMap::new(alloc);
        for path in ended_paths(alloc, &kept)? {
            let records = kept.records(alloc, &path)?;
            let which = ended_path(of, &path);
            let before = self.paths.get(&which).copied();
            let mut is_told = before.is_some_and(|before| before.is_told);
            if is_told_now(before, records.len(), is_last) {
                is_told = true;
                if let Some(line) = chosen_line(
                    alloc,
                    of,
                    &self.choice,
                    &path,
                    records.as_slice(),
                )? {
                    lines.push_str(line.as_str())?;
                }
            }
            let now = PathReading {
                records: records.len(),
                is_told,
            };
            paths.insert(which, now)?;
        }
        Ok(ToldReading { lines, paths })
    }

    /// Reads the part of this path.
    fn reading_of<'p>(
        &self,
        rt: &HostRuntime,
        part: &'p str,
        is_last: bool,
    ) -> Result<ToldReading, FolderViewFault<'p>> {
        let opened = open_all(rt, &[part])?;
        let metadatas = metadata_of_all(rt.alloc(), opened.as_slice())?;
        let traces = OpenedTraces {
            opened: opened.as_slice(),
            metadatas: metadatas.as_slice(),
        };
        let merged = merge_live(rt, &traces)?;
        let of = MergedTraces {
            traces: &traces,
            merged: &merged,
        };
        Ok(self.told_of(rt.alloc(), of, is_last)?)
    }

    /// Tells what can't be read and is waited for: once, before anything was read. A line that can't be written changes nothing.
    fn tell_waiting(&mut self, rt: &HostRuntime, fault: &FolderViewFault<'_>) {
        if !self.is_quiet {
            self.is_quiet = true;
            let _ = eprintln!(rt; "specview: {fault}: it is waited for");
        }
    }

    /// Reads a part, and tells the paths that are due: all of them where it isn't read again.
    fn read<'a>(
        &mut self,
        rt: &HostRuntime,
        part: &FolderPart,
        is_last: bool,
    ) -> Result<(), FolderViewFault<'a>> {
        if part.number != self.number {
            self.number = part.number;
            self.paths = BTreeMap::new(rt.alloc());
        }
        match self.reading_of(rt, part.path.as_str(), is_last) {
            Ok(told) => {
                self.is_quiet = true;
                self.paths = told.paths;
                Ok(print_text(rt, told.lines.as_str())?)
            }
            Err(fault) if is_memory(&fault) => Err(FolderViewFault::from(AllocError)),
            Err(fault) => {
                self.tell_waiting(rt, &fault);
                Ok(())
            }
        }
    }

    /// Reads the parts that are there and aren't done with. One that a younger one follows isn't written any more.
    fn read_parts<'a>(
        &mut self,
        rt: &HostRuntime,
        parts: &[FolderPart],
        is_last: bool,
    ) -> Result<(), FolderViewFault<'a>> {
        for (place, part) in parts.iter().enumerate() {
            let is_closed = place.saturating_add(1) < parts.len();
            if part.number >= self.number {
                self.read(rt, part, is_closed || is_last)?;
            }
        }
        Ok(())
    }

    /// Reads what is there.
    fn read_all<'a>(
        &mut self,
        rt: &HostRuntime,
        folder: &str,
        is_last: bool,
    ) -> Result<(), FolderViewFault<'a>> {
        let parts = match parts_of(rt, folder) {
            Ok(parts) => parts,
            Err(reason) if reason.kind() == io::ErrorKind::OutOfMemory => {
                return Err(FolderViewFault::from(AllocError));
            }
            Err(_) => Vec::new(rt.alloc()),
        };
        if parts.is_empty() {
            let none = FolderViewFault::Folder(TraceFolderFault::NoMetadata(folder));
            self.tell_waiting(rt, &none);
        }
        self.read_parts(rt, parts.as_slice(), is_last)
    }
}

/// Whether so many seconds have gone by; None of them are never over.
fn is_over<'a>(
    rt: &HostRuntime,
    begin: Instant,
    seconds: Option<u64>,
) -> Result<bool, FolderViewFault<'a>> {
    match (begin.elapsed(rt), seconds) {
        (Ok(elapsed), Some(seconds)) => Ok(elapsed.as_secs() >= seconds),
        (Ok(_), None) => Ok(false),
        (Err(reason), _) => Err(FolderViewFault::Command(device_fault("the clock", reason))),
    }
}

/// Tells the kept paths of a trace as they come, for so many seconds; else until the process is ended, or nobody reads what it tells. A folder
/// that isn't there yet is waited for, and parts of a trace with a bound are followed one after another. Each path is told once.
pub fn follow_paths<'a, W: Wait>(
    waits: &W,
    rt: &HostRuntime,
    folder: &'a str,
    choice: PathChoice<'a>,
    seconds: Option<u64>,
) -> Result<bool, FolderViewFault<'a>> {
    let begin = match Instant::now(rt) {
        Ok(begin) => begin,
        Err(reason) => return Err(FolderViewFault::Command(device_fault("the clock", reason))),
    };
    print_text(rt, TITLES)?;
    let mut trace = FollowedTrace {
        choice,
        number: 0,
        paths: BTreeMap::new(rt.alloc()),
        is_quiet: false,
    };
    for _ in waits.forever() {
        let is_last = is_over(rt, begin, seconds)?;
        trace.read_all(rt, folder, is_last)?;
        if is_last {
            return Ok(true);
        }
        thread::sleep(rt, Duration::from_secs(PERIOD_SECONDS));
    }
    unreachable!()
}
