//! The metadata, in a caller's memory.

ghost use Rattle.std.specs.Prelude.{◌≡◌, IfOk, IfErr, IfSome, None, OnErr, length, map, string_bytes};
ghost use Rattle.dspec_ctf.specs.InMemory.Naming.{HasNoMetadata, HasNoOrigin, IsMetadata, IsOrigin, PutsMetadata, PutsNone};

use super::naming::{events_of, texts_of};
use super::room::fill;
use crate::{ClockStart, Form, Names, Origin, Process, TextFault, TraceIdentity, metadata_from};
use dspec_record::Enablings;
use std::alloc::Global;
use std::str;

/// The origin of this identity.
fn origin_of<'a>(identity: &TraceIdentity<'a>) -> Option<Origin<'a>>
    ensures origin { IfSome result (IsOrigin identity.now) }
    ensures fault { result ≡ None → HasNoOrigin identity.now }
{
    let Ok(host) = str::from_utf8(identity.host) else {
        return None;
    };
    let Ok(name) = str::from_utf8(identity.name) else {
        return None;
    };
    let pid = identity.pid;
    let clock = if identity.has_clock {
        Some(identity.clock)
    } else {
        None
    };
    Some(Origin {
        uuid: identity.uuid,
        process: Some(Process { host, name, pid }),
        start: Some(ClockStart {
            seconds: identity.seconds,
            ticks: identity.ticks,
            clock,
        }),
    })
}

/// The metadata by these texts of names.
fn text_of(
    alloc: Global,
    identity: &TraceIdentity<'_>,
    enablings: &Enablings,
    texts: &[&str],
    kinds: &[u8],
) -> Result<String, TextFault>
    ensures text { IfOk result (λ text. IsMetadata identity.now enablings.now (map (λ text. text.now) texts.now) kinds.now (string_bytes text)) }
    ensures fault { IfErr result (HasNoMetadata identity.now enablings.now (map (λ text. text.now) texts.now) kinds.now) }
{
    let Some(origin) = origin_of(identity) else {
        return Err(TextFault::NotText);
    };
    let form = Form::ByTime(identity.hertz);
    if texts.is_empty() {
        return Ok(metadata_from(alloc, &origin, form, enablings, &Names::Numbered)?);
    }
    let events = match events_of(alloc, enablings, texts, kinds) {
        Ok(events) => events,
        Err(fault) => return Err(fault),
    };
    let names = Names::Given(&events);
    Ok(metadata_from(alloc, &origin, form, enablings, &names)?)
}

/// Puts the metadata of a trace by time into this room, and says how many bytes it has. The names are those of the schema's events in the order of
/// their EPIDs, after each event's name those of its fields; without any, events and fields are numbered. What the fields' numbers
/// mean is said by a kind for each field, in the same order: 0 for numbers that mean themselves, 1 for signed ones, 2 for floats, 3 for the
/// first eight bytes of a text, 4 for the next eight of the text in front. A text has one name: that of its first field.
pub fn put_metadata(
    alloc: Global,
    identity: &TraceIdentity<'_>,
    enablings: &Enablings,
    names: &[&[u8]],
    kinds: &[u8],
    room: &mut [u8],
) -> Result<usize, TextFault>
    ensures puts { IfOk result (λ size. PutsMetadata identity.now enablings.now (map (λ name. name.now) names.now) kinds.now room.old size room.new) }
    ensures fault { IfErr result (PutsNone identity.now enablings.now (map (λ name. name.now) names.now) kinds.now (length room.old)) }
    ensures refused { OnErr result (room.new ≡ room.old) }
{
    let texts = match texts_of(alloc, names) {
        Ok(texts) => texts,
        Err(fault) => return Err(fault),
    };
    let text = match text_of(alloc, identity, enablings, &texts, kinds) {
        Ok(text) => text,
        Err(fault) => return Err(fault),
    };
    match fill(room, text.as_str().as_bytes()) {
        Ok(size) => Ok(size),
        Err(needed) => Err(TextFault::TooSmall(needed)),
    }
}
