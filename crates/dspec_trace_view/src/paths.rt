//! The paths that folders have: the records of one folder whose first field, `dspec_path`, has one number, up to the event `dspec_kept` that ends
//! them. So a number that is given out again begins another path.

ghost use Rattle.std.specs.Prelude.{◌≡◌, All, IfOk, OnOk, true};
ghost use Rattle.dspec_trace_view.specs.Paths.{IsLongestFirst, IsRecordOf};

use crate::path_events::{MergedTraces, PathRole, ShownEvent, event_at, role_of, value_of};
use dspec_ctf_reading::folder::nanoseconds;
use std::alloc::{AllocError, Global};

/// A record of a path, or the end of one, in the order of paths.
#[derive(Debug, Clone, Copy, PartialEq, Eq, PartialOrd, Ord)]
pub(crate) struct PathRecord {
    /// The place of its folder.
    pub folder: usize,
    /// The number of its path.
    pub number: u64,
    /// In nanoseconds after the first mark.
    time: u64,
    /// Whether it ends the path: after the records of the same time.
    is_end: bool,
    /// Its place in order of time.
    pub mark: usize,
}

/// A path.
#[derive(Debug, Clone, Copy)]
pub(crate) struct KeptPath {
    /// The place of its folder.
    pub folder: usize,
    /// Its number.
    pub number: u64,
    /// Where its records begin in the list of all.
    start: usize,
    /// Where they end there.
    end: usize,
    /// The place of the mark that ends it, where there is one.
    pub kept: Option<usize>,
    /// Whether the tracer ended it, and not the program: its end then stands after it.
    pub is_by_tracer: bool,
    /// The place of the mark of a crash in it, where there was one.
    pub crash: Option<usize>,
    /// In nanoseconds after the first mark.
    pub begin: u64,
    /// From its begin to its end, in nanoseconds.
    pub took: u64,
}

/// A crash: its mark, and whose path it was in.
#[derive(Debug, Clone, Copy)]
pub(crate) struct PathCrash {
    /// The place of its folder.
    pub folder: usize,
    /// The number of the path, or 0.
    pub number: u64,
    /// The place of its mark.
    pub mark: usize,
    /// In nanoseconds after the first mark.
    pub time: u64,
}

/// All paths of folders.
#[derive(Debug, Drop)]
pub(crate) struct KeptPaths {
    /// Their records, path by path.
    marks: Vec<PathRecord>,
    /// The paths, the one that took longest first.
    pub paths: Vec<KeptPath>,
    /// The crashes.
    pub crashes: Vec<PathCrash>,
}

/// The records and ends of all paths, path by path, and the crashes.
fn marks_of_paths(
    alloc: Global,
    of: MergedTraces<'_, '_, '_, '_>,
) -> Result<(Vec<PathRecord>, Vec<PathCrash>), AllocError> {
    let mut marks = Vec::new(alloc);
    let mut crashes = Vec::new(alloc);
    for mark in 0..of.merged.marks.len() {
        let Some(event) = event_at(of, mark) else {
            continue;
        };
        let (folder, time) = (event.source.folder, event.time);
        let (number, is_end) = match role_of(&event) {
            PathRole::Outside => continue,
            PathRole::Record(number) => (number, false),
            PathRole::Kept(number) => (number, true),
            PathRole::Crash(number) => {
                crashes.push(PathCrash {
                    folder,
                    number,
                    mark,
                    time,
                })?;
                continue;
            }
        };
        marks.push(PathRecord {
            folder,
            number,
            time,
            is_end,
            mark,
        })?;
    }
    marks.sort()?;
    Ok((marks, crashes))
}

/// A path that begins with this mark, which stands at that place.
fn begun_by(mark: &PathRecord, place: usize) -> KeptPath {
    KeptPath {
        folder: mark.folder,
        number: mark.number,
        start: place,
        end: place,
        kept: None,
        is_by_tracer: false,
        crash: None,
        begin: mark.time,
        took: 0,
    }
}

/// Whether a mark goes on with this path: one of its records or its end, and it hasn't ended.
fn goes_on(path: &KeptPath, mark: &PathRecord) -> bool {
    path.kept.is_none() && path.folder == mark.folder && path.number == mark.number
}

/// Takes a mark, which stands at that place, into its path.
fn take_mark(path: &mut KeptPath, mark: &PathRecord, place: usize) {
    if mark.is_end {
        path.kept = Some(mark.mark);
    } else {
        path.end = place.saturating_add(1);
    }
    path.took = mark.time.saturating_sub(path.begin);
}

/// The paths of these marks.
fn paths_of_marks(alloc: Global, marks: &[PathRecord]) -> Result<Vec<KeptPath>, AllocError> {
    let mut paths: Vec<KeptPath> = Vec::new(alloc);
    for (place, mark) in marks.iter().enumerate() {
        if paths.last().is_none_or(|path| !goes_on(path, mark)) {
            paths.push(begun_by(mark, place))?;
        }
        if let Some(path) = paths.last_mut() {
            take_mark(path, mark, place);
        }
    }
    Ok(paths)
}

/// When a path began by its end's word, in nanoseconds after the first mark: its first record may be one that isn't there.
fn told_begin(of: MergedTraces<'_, '_, '_, '_>, kept: &ShownEvent<'_, '_>) -> Option<u64> {
    let begun = value_of(kept, "begun")?;
    let metadata = of.traces.metadatas.get(kept.source.folder)?;
    let time = nanoseconds(metadata.clock.as_ref()?, of.merged.base?, begun)?;
    let first = of.merged.marks.first()?.time;
    u64::try_from(time.saturating_sub(first)).ok()
}

/// Whether the tracer ended a path, and not the program: of such a one the end's stamp says little.
fn is_by_tracer(kept: &ShownEvent<'_, '_>) -> bool {
    value_of(kept, "by") == Some(0)
}

/// Whether a mark is a record of this path.
fn is_record_of(path: &KeptPath, mark: &PathRecord) -> bool
    ensures { result ≡ true → IsRecordOf path.now mark.now }
{
    mark.folder == path.folder && mark.number == path.number && !mark.is_end
}

/// Puts paths in order of how long they took, the longest first.
fn put_longest_first(paths: &mut Vec<KeptPath>) -> Result<(), AllocError>
    ensures { OnOk result (IsLongestFirst paths.new.items) }
{
    paths.sort_by_key(|path| u64::MAX - path.took)?;
    Ok(())
}

impl KeptPaths {
    /// The last record of a path.
    fn last_record(&self, path: &KeptPath) -> Option<&PathRecord> {
        self.marks.get(path.start..path.end)?.last()
    }

    /// The times of this path: from where its end says it began to its end, or to its last record where the tracer ended it.
    fn timed(&self, of: MergedTraces<'_, '_, '_, '_>, path: KeptPath) -> KeptPath {
        let mut timed = path;
        let Some(kept) = path.kept.and_then(|mark| event_at(of, mark)) else {
            return timed;
        };
        if let Some(begin) = told_begin(of, &kept) {
            timed.begin = path.begin.min(begin);
        }
        timed.is_by_tracer = is_by_tracer(&kept);
        let end = match self.last_record(&path) {
            Some(last) if timed.is_by_tracer => last.time,
            _ => kept.time,
        };
        timed.took = end.saturating_sub(timed.begin);
        timed
    }

    /// Sets the times of all paths.
    fn set_times(&mut self, of: MergedTraces<'_, '_, '_, '_>) {
        for place in 0..self.paths.len() {
            let Some(path) = self.paths.get(place).copied() else {
                continue;
            };
            let timed = self.timed(of, path);
            if let Some(slot) = self.paths.get_mut(place) {
                *slot = timed;
            }
        }
    }

    /// Tells the last path of a crash's number that it ended there.
    fn tell_crash(&mut self, crash: PathCrash) {
        let mut found: Option<usize> = None;
        for (place, path) in self.paths.iter().enumerate() {
            if path.folder == crash.folder
                && path.number == crash.number
                && path.begin <= crash.time
            {
                found = Some(place);
            }
        }
        let Some(path) = found.and_then(|place| self.paths.get_mut(place)) else {
            return;
        };
        path.crash = Some(crash.mark);
        path.took = path.took.max(crash.time.saturating_sub(path.begin));
    }

    /// Tells each crash to its path.
    fn tell_crashes(&mut self) {
        for place in 0..self.crashes.len() {
            if let Some(crash) = self.crashes.get(place).copied() {
                self.tell_crash(crash);
            }
        }
    }

    /// No paths.
    pub fn none(alloc: Global) -> KeptPaths {
        KeptPaths {
            marks: Vec::new(alloc),
            paths: Vec::new(alloc),
            crashes: Vec::new(alloc),
        }
    }

    /// The paths of these folders, the one that took longest first.
    pub fn of(alloc: Global, of: MergedTraces<'_, '_, '_, '_>) -> Result<KeptPaths, AllocError>
        ensures { IfOk result (λ all. IsLongestFirst all.paths.items) }
    {
        let (marks, crashes) = marks_of_paths(alloc, of)?;
        let paths = paths_of_marks(alloc, marks.as_slice())?;
        let mut all = KeptPaths {
            marks,
            paths,
            crashes,
        };
        all.set_times(of);
        all.tell_crashes();
        put_longest_first(&mut all.paths)?;
        Ok(all)
    }

    /// The records of a path, in order of time: of no other path, whatever stands in the list.
    pub fn records(&self, alloc: Global, path: &KeptPath) -> Result<Vec<PathRecord>, AllocError>
        ensures { IfOk result (λ records. All (IsRecordOf path.now) records.items) }
    {
        let mut records = Vec::new(alloc);
        let Some(marks) = self.marks.get(path.start..path.end) else {
            return Ok(records);
        };
        for mark in marks {
            if is_record_of(path, mark) {
                records.push(*mark)?;
            }
        }
        Ok(records)
    }
}

/// The places of the marks within a path: its records, the crash in it, and its end where the program ended it, by time.
pub(crate) fn marks_of_path(
    alloc: Global,
    paths: &KeptPaths,
    path: &KeptPath,
) -> Result<Vec<usize>, AllocError> {
    let mut marks = Vec::new(alloc);
    for record in paths.records(alloc, path)? {
        marks.push(record.mark)?;
    }
    if let Some(mark) = path.crash {
        marks.push(mark)?;
    }
    if let Some(mark) = path.kept {
        if !path.is_by_tracer {
            marks.push(mark)?;
        }
    }
    marks.sort()?;
    Ok(marks)
}
