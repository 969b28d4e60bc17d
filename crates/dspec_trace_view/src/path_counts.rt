//! How much folders have besides paths, by the tracer's own word.

use crate::chart::after_begin;
use crate::path_events::{MergedTraces, PathRole, ShownEvent, event_at, is_own, role_of, value_of};
use dspec_ctf_reading::folder::What;

/// The event that counts paths.
const COUNTS_EVENT: &str = "dspec_counts";

/// The event that counts what was refused.
const REFUSED_EVENT: &str = "dspec_refused";

/// How much folders have.
#[derive(Debug, Clone, Copy, Default)]
pub(crate) struct FolderCounts {
    /// From the first mark to the last, in nanoseconds.
    pub span: u64,
    /// Paths that were thrown away.
    pub thrown: u64,
    /// Paths that were refused.
    pub refused: u64,
    /// Events that were missed.
    pub missed: u64,
    /// Records of no path.
    pub outside: u64,
}

impl FolderCounts {
    /// Counts an event.
    fn add(&mut self, event: &ShownEvent<'_, '_>) {
        let name = event.text.name;
        if name == COUNTS_EVENT {
            let thrown = value_of(event, "thrown").unwrap_or(0);
            self.thrown = self.thrown.saturating_add(thrown);
        } else if name == REFUSED_EVENT {
            let refused = value_of(event, "paths").unwrap_or(0);
            self.refused = self.refused.saturating_add(refused);
        } else if !is_own(name) && role_of(event) == PathRole::Outside {
            self.outside = self.outside.saturating_add(1);
        }
    }
}

/// How much these folders have.
pub(crate) fn counts_of(of: MergedTraces<'_, '_, '_, '_>) -> FolderCounts {
    let mut counts = FolderCounts::default();
    for (place, mark) in of.merged.marks.iter().enumerate() {
        counts.span = counts.span.max(after_begin(of.merged, mark));
        if let What::Missed(missed) = &mark.what {
            counts.missed = counts.missed.saturating_add(*missed);
        }
        if let Some(event) = event_at(of, place) {
            counts.add(&event);
        }
    }
    counts
}
