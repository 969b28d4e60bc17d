//! What is told of a path, in words.

use crate::path_events::{MergedTraces, PATH_FIELD, ShownEvent, event_at, value_of};
use crate::paths::{KeptPath, PathCrash, PathRecord};
use dspec_ctf_reading::Kind;
use dspec_ctf_reading::folder::{Base, Moment, event_text, field_text};
use dspec_folder_view::put_moment;
use std::alloc::{AllocError, Global};

/// The reason of a path that no event ends.
const UNTOLD: &str = "untold";

/// The event that tells of a place of a crash.
const PLACE_EVENT: &str = "dspec_crash_at";

/// How many marks after a crash its places are looked for.
const MOST_PLACES: usize = 64;

/// What the end of a path tells.
#[derive(Debug, Drop)]
pub(crate) struct KeptEnd {
    /// Why it was kept.
    pub why: String,
    /// The thread that began it; 0 where that isn't told.
    pub thread: u64,
    /// How many of its records aren't there.
    pub cut: u64,
    /// The first 8 bytes of its key; 0 where it has none.
    pub key_high: u64,
    /// The other 8.
    pub key_low: u64,
}

/// Why a path was kept, by the event that ends it.
fn why_of(alloc: Global, kept: &ShownEvent<'_, '_>) -> Result<String, AllocError> {
    match field_text(alloc, kept.text, kept.values, "why")? {
        Some(why) => Ok(why),
        None => String::from_str(alloc, UNTOLD),
    }
}

/// What the end of a path tells.
pub(crate) fn end_of(
    alloc: Global,
    of: MergedTraces<'_, '_, '_, '_>,
    path: &KeptPath,
) -> Result<KeptEnd, AllocError> {
    let Some(kept) = path.kept.and_then(|mark| event_at(of, mark)) else {
        return Ok(KeptEnd {
            why: String::from_str(alloc, UNTOLD)?,
            thread: 0,
            cut: 0,
            key_high: 0,
            key_low: 0,
        });
    };
    Ok(KeptEnd {
        why: why_of(alloc, &kept)?,
        thread: value_of(&kept, "thread").unwrap_or(0),
        cut: value_of(&kept, "cut").unwrap_or(0),
        key_high: value_of(&kept, "key_high").unwrap_or(0),
        key_low: value_of(&kept, "key_low").unwrap_or(0),
    })
}

/// A record in words, without the number of its path.
pub(crate) fn record_text(alloc: Global, event: &ShownEvent<'_, '_>) -> Result<String, AllocError> {
    let whole = event_text(alloc, event.text, event.values)?;
    let (name, number) = (event.text.name, event.values.first().copied().unwrap_or(0));
    let front = format!(in alloc; "{name} {PATH_FIELD}={number}")?;
    match whole.as_str().strip_prefix(front.as_str()) {
        Some(rest) => format!(in alloc; "{name}{rest}"),
        None => Ok(whole),
    }
}

/// Adds a span of time, in the unit in which it has one to three digits before the point.
pub(crate) fn put_took(out: &mut String, nanoseconds: u64) -> Result<(), AllocError> {
    if nanoseconds < 1000 {
        return write!(out, "{nanoseconds} ns");
    }
    let (unit, name) = if nanoseconds < 1_000_000 {
        (1000u64, "us")
    } else if nanoseconds < 1_000_000_000 {
        (1_000_000u64, "ms")
    } else {
        (1_000_000_000u64, "s")
    };
    let (whole, rest) = (nanoseconds / unit, nanoseconds % unit / (unit / 1000));
    write!(out, "{whole}.{rest:03} {name}")
}

/// Adds the time so many nanoseconds after the first mark; nothing where no trace has a clock.
pub(crate) fn put_time(
    out: &mut String,
    of: MergedTraces<'_, '_, '_, '_>,
    time: u64,
) -> Result<(), AllocError> {
    let (Some(base), Some(first)) = (of.merged.base, of.merged.marks.first()) else {
        return Ok(());
    };
    put_moment(out, base, first.time.saturating_add(u128::from(time)))
}

/// The thread that began a path; 0 where that isn't told.
pub(crate) fn thread_of(of: MergedTraces<'_, '_, '_, '_>, path: &KeptPath) -> u64 {
    let kept = path.kept.and_then(|mark| event_at(of, mark));
    kept.and_then(|kept| value_of(&kept, "thread")).unwrap_or(0)
}

/// What a path is called: by its first record, and by that one's first text.
pub(crate) fn title_of(
    alloc: Global,
    of: MergedTraces<'_, '_, '_, '_>,
    records: &[PathRecord],
) -> Result<String, AllocError> {
    let Some(event) = records.first().and_then(|record| event_at(of, record.mark)) else {
        return String::from_str(alloc, "no record");
    };
    let mut title = String::from_str(alloc, event.text.name)?;
    for field in &event.text.fields {
        if field.kind != Kind::Text {
            continue;
        }
        if let Some(text) = field_text(alloc, event.text, event.values, field.name)? {
            title.push(' ')?;
            title.push_str(text.as_str())?;
        }
        return Ok(title);
    }
    Ok(title)
}

/// The name of a signal that crashes; else its number.
pub(crate) fn signal_name(alloc: Global, signal: u64) -> Result<String, AllocError> {
    let name = match signal {
        4 => "SIGILL",
        5 => "SIGTRAP",
        6 => "SIGABRT",
        7 => "SIGBUS",
        8 => "SIGFPE",
        11 => "SIGSEGV",
        31 => "SIGSYS",
        _ => return format!(in alloc; "signal {signal}"),
    };
    String::from_str(alloc, name)
}

/// Whether an event tells of the place where a crash was, and not of its callers.
fn is_place_of(event: &ShownEvent<'_, '_>, crash: &PathCrash) -> bool {
    event.text.name == PLACE_EVENT
        && event.source.folder == crash.folder
        && event.time == crash.time
        && value_of(event, PATH_FIELD) == Some(crash.number)
        && value_of(event, "frame") == Some(0)
}

/// Where a crash was: in which file at which offset, where that is told, else at which address.
pub(crate) fn crash_place(
    alloc: Global,
    of: MergedTraces<'_, '_, '_, '_>,
    crash: &PathCrash,
    event: &ShownEvent<'_, '_>,
) -> Result<String, AllocError> {
    let last = crash.mark.saturating_add(MOST_PLACES);
    for mark in crash.mark..last {
        let Some(place) = event_at(of, mark) else {
            continue;
        };
        if is_place_of(&place, crash) {
            let offset = value_of(&place, "offset").unwrap_or(0);
            if let Some(file) = field_text(alloc, place.text, place.values, "file")? {
                let file = file.as_str();
                return format!(in alloc; "{file}+0x{offset:x}");
            }
        }
    }
    let address = value_of(event, "pc").unwrap_or(0);
    format!(in alloc; "0x{address:x}")
}

/// Adds the time of the first mark as a date of ISO 8601, where a clock tells it.
pub(crate) fn put_begin(
    out: &mut String,
    of: MergedTraces<'_, '_, '_, '_>,
) -> Result<(), AllocError> {
    let (Some(Base::Epoch), Some(first)) = (of.merged.base, of.merged.marks.first()) else {
        return Ok(());
    };
    let at = Moment::of(first.time);
    let (year, month, day) = (at.year, at.month, at.day);
    let (hour, minute, second) = (at.hour, at.minute, at.second);
    let rest = at.nanosecond;
    write!(
        out,
        "{year:04}-{month:02}-{day:02}T{hour:02}:{minute:02}:{second:02}.{rest:09}Z"
    )
}
