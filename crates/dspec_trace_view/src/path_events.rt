//! The events of folders, and what each is for a path.

use crate::chart::after_begin;
use dspec_ctf_reading::EventText;
use dspec_ctf_reading::folder::What;
use dspec_folder_view::{Merged, OpenedTraces, Source};

/// The field that has the number of a record's path, the first of each record of a tracer's program.
pub(crate) const PATH_FIELD: &str = "dspec_path";

/// The event that ends a path, and says why it is kept.
const KEPT_EVENT: &str = "dspec_kept";

/// The event that tells of a crash.
const CRASH_EVENT: &str = "dspec_crash";

/// With what the names of the tracer's own events begin.
const OWN_NAMES: &str = "dspec_";

/// What folders tell, with their texts.
#[derive(Clone, Copy)]
pub(crate) struct MergedTraces<'p, 's, 'o, 'a> {
    /// The folders and what their metadata tells.
    pub traces: &'p OpenedTraces<'s, 'o, 'a>,
    /// What their files tell, in order of time.
    pub merged: &'s Merged,
}

/// An event: which file has it, what its metadata tells of its kind, and its values.
#[derive(Clone, Copy)]
pub(crate) struct ShownEvent<'s, 'o> {
    /// Its file.
    pub source: Source,
    /// The place of its kind among those of its folder.
    pub place: usize,
    /// Its name and fields.
    pub text: &'s EventText<'o>,
    /// The values of its fields.
    pub values: &'s [u64],
    /// In nanoseconds after the first mark.
    pub time: u64,
}

/// What an event is for a path.
#[derive(Debug, Clone, Copy, PartialEq, Eq)]
pub(crate) enum PathRole {
    /// It is in none.
    Outside,
    /// It is a record of the path of this number.
    Record(u64),
    /// It ends the path of this number.
    Kept(u64),
    /// It tells of a crash: of the path of this number, or of none by 0.
    Crash(u64),
}

/// The event of a mark, if it is one.
pub(crate) fn event_at<'s, 'o>(
    of: MergedTraces<'_, 's, 'o, '_>,
    mark: usize,
) -> Option<ShownEvent<'s, 'o>> {
    let mark = of.merged.marks.get(mark)?;
    let source = of.merged.sources.get(mark.file)?;
    let What::Event(event) = &mark.what else {
        return None;
    };
    let text = of
        .traces
        .metadatas
        .get(source.folder)?
        .events
        .get(event.place)?;
    Some(ShownEvent {
        source: *source,
        place: event.place,
        text,
        values: event.values.as_slice(),
        time: after_begin(of.merged, mark),
    })
}

/// The number of the path that a record tells of, where its first field has one; 0 is none.
pub(crate) fn path_number(text: &EventText<'_>, values: &[u64]) -> Option<u64> {
    let field = text.fields.first()?;
    if field.name != PATH_FIELD {
        return None;
    }
    values.first().copied()
}

/// The value of the field of that name.
pub(crate) fn value_of(event: &ShownEvent<'_, '_>, name: &str) -> Option<u64> {
    for (place, field) in event.text.fields.iter().enumerate() {
        if field.name == name {
            return event.values.get(place).copied();
        }
    }
    None
}

/// Whether the tracer itself made events of this name.
pub(crate) fn is_own(name: &str) -> bool {
    name.starts_with(OWN_NAMES)
}

/// What an event is for a path.
pub(crate) fn role_of(event: &ShownEvent<'_, '_>) -> PathRole {
    let Some(number) = path_number(event.text, event.values) else {
        return PathRole::Outside;
    };
    if event.text.name == CRASH_EVENT {
        return PathRole::Crash(number);
    }
    if number == 0 {
        return PathRole::Outside;
    }
    if event.text.name == KEPT_EVENT {
        return PathRole::Kept(number);
    }
    if is_own(event.text.name) {
        return PathRole::Outside;
    }
    PathRole::Record(number)
}
