//! The spans within a path: from a record `x_begin` to the record `x_end` that belongs to it.

use crate::path_events::{MergedTraces, event_at};
use crate::paths::PathRecord;
use std::alloc::{AllocError, Global};

/// With what the name of a record ends that begins a span.
const BEGIN_SUFFIX: &str = "_begin";

/// With what the name of a record ends that ends one.
const END_SUFFIX: &str = "_end";

/// A span within a path.
#[derive(Debug, Clone, Copy)]
pub(crate) struct PathSpan<'s> {
    /// The name that both records have before their suffixes.
    pub name: &'s str,
    /// The place of the mark that begins it.
    pub mark: usize,
    /// In nanoseconds after the first mark.
    pub begin: u64,
    /// The same: the end of what is around it, where it has none of its own.
    pub end: u64,
}

/// The place among open spans of the innermost of that name.
fn innermost(spans: &[PathSpan<'_>], open: &[usize], name: &str) -> Option<usize> {
    let mut found = None;
    for (place, span) in open.iter().enumerate() {
        if spans.get(*span).is_some_and(|span| span.name == name) {
            found = Some(place);
        }
    }
    found
}

/// Ends the open spans from this place on.
fn end_from(spans: &mut [PathSpan<'_>], open: &mut Vec<usize>, from: usize, time: u64) {
    for place in from..open.len() {
        if let Some(span) = open.get(place).and_then(|span| spans.get_mut(*span)) {
            span.end = time.max(span.begin);
        }
    }
    open.truncate(from);
}

/// The spans of the path of these records, which ends at that time, in the order of their begins: one stands after those around it.
pub(crate) fn spans_of<'s>(
    alloc: Global,
    of: MergedTraces<'_, 's, '_, '_>,
    records: &[PathRecord],
    end: u64,
) -> Result<Vec<PathSpan<'s>>, AllocError> {
    let mut spans: Vec<PathSpan<'s>> = Vec::new(alloc);
    let mut open: Vec<usize> = Vec::new(alloc);
    for record in records {
        let Some(event) = event_at(of, record.mark) else {
            continue;
        };
        if let Some(name) = event.text.name.strip_suffix(BEGIN_SUFFIX) {
            open.push(spans.len())?;
            spans.push(PathSpan {
                name,
                mark: record.mark,
                begin: event.time,
                end: end.max(event.time),
            })?;
        } else if let Some(name) = event.text.name.strip_suffix(END_SUFFIX) {
            if let Some(place) = innermost(spans.as_slice(), open.as_slice(), name) {
                end_from(spans.as_mut_slice(), &mut open, place, event.time);
            }
        }
    }
    Ok(spans)
}
