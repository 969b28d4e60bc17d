//! Events in the bytes of a packet.

ghost use Rattle.std.specs.{List.zip, Option.option_map, Prelude.◌≡◌, Prelude.◌≤◌, Prelude.◌<◌, Prelude.length, Prelude.map, Prelude.All, Prelude.IsTrue, Prelude.IfOk, Prelude.IfErr, Prelude.IfSome};
ghost use Rattle.std.specs.{Prelude.MatchOption, Prelude.Some, Prelude.None};
ghost use Rattle.dspec_ctf_reading.specs.Faults.{EventDue, EventsDue, HasKnown, IsCutOrMemory, is_event_fault};
ghost use Rattle.dspec_ctf_reading.specs.Reading.{find_event, read_event as event_from, read_event_body, read_events as events_from, read_payload};
ghost use Rattle.dspec_ctf_reading.specs.Told.{Fits, told_event, as_read, told_field, told_layout, names_of, first_place, text_at};

use crate::fault::{EventFault, EventsFault};
use crate::numbers::{four, number, stamp};
use crate::told::{EventText, FieldText, Metadata};
use std::alloc::Global;

/// An event that was read.
#[derive(Debug, Drop)]
pub struct Event {
    /// The place of its text among the metadata's events.
    pub place: usize,
    /// Its stamp, in ticks of the clock, where the trace has one.
    pub stamp: Option<u64>,
    /// The numbers of its fields in order, as their bytes have them.
    pub values: Vec<u64>,
}

/// The first event with this number, and its place.
fn find<'m, 't>(events: &'m [EventText<'t>], id: u32) -> Option<(usize, &'m EventText<'t>)>
    ensures found { MatchOption result (find_event id (map told_event events.now) ≡ None) (λ p. find_event id (map told_event events.now) ≡ Some (told_event p.1.now)) }
    ensures place { IfSome result (λ p. (p.0 < length events.now) × (text_at (map told_event events.now) p.0 ≡ told_event p.1.now)) }
    ensures first { IfSome result (λ p. first_place p.1.now.id (map told_event events.now) ≡ p.0) }
{
    for (place, event) in events.iter().enumerate() {
        if event.id == u64::from(id) {
            return Some((place, event));
        }
    }
    None
}

/// The text of the event with which these bytes begin, its place, and the bytes after the event's number.
fn heading<'m, 't, 'b>(
    metadata: &'m Metadata<'t>,
    bytes: &'b [u8],
) -> Result<(usize, &'m EventText<'t>, &'b [u8]), EventFault>
    ensures read { IfOk result (λ p. event_from (told_layout metadata.now) bytes.now ≡ read_event_body (told_layout metadata.now).timed (told_event p.1.now) p.2.now) }
    ensures place { IfOk result (λ p. (p.0 < length metadata.now.events.items) × (text_at (told_layout metadata.now).events p.0 ≡ told_event p.1.now)) }
    ensures first { IfOk result (λ p. first_place p.1.now.id (told_layout metadata.now).events ≡ p.0) }
    ensures known { IfOk result (λ p. HasKnown (told_layout metadata.now) bytes.now) }
    ensures shorter { IfOk result (λ p. length p.2.now < length bytes.now) }
    ensures fault { IfErr result (λ fault. EventDue (told_layout metadata.now) bytes.now fault) }
    ensures none { IfErr result (λ fault. event_from (told_layout metadata.now) bytes.now ≡ None) }
{
    let Some((id, rest)) = four(bytes) else {
        return Err(EventFault::Cut);
    };
    match find(&metadata.events, id) {
        Some((place, event)) => Ok((place, event, rest)),
        None => Err(EventFault::Unknown(id)),
    }
}

/// A number for each field, and the bytes after them.
fn payload<'b>(
    alloc: Global,
    fields: &[FieldText<'_>],
    bytes: &'b [u8],
) -> Result<(Vec<u64>, &'b [u8]), EventFault>
    ensures read { IfOk result (λ p. read_payload (map told_field fields.now) bytes.now ≡ Some (zip (names_of (map told_field fields.now)) p.0.items, p.1.now)) }
    ensures count { IfOk result (λ p. length p.0.items ≡ length fields.now) }
    ensures within { IfOk result (λ p. length p.1.now ≤ length bytes.now) }
    ensures fault { IfErr result (λ fault. IsCutOrMemory fault) }
    ensures none { IfErr result (λ fault. IsTrue (is_event_fault fault) → read_payload (map told_field fields.now) bytes.now ≡ None) }
{
    let mut values = Vec::new(alloc);
    let mut rest = bytes;
    for field in fields {
        let Some((value, next)) = number(field.width, rest) else {
            return Err(EventFault::Cut);
        };
        values.push(value)?;
        rest = next;
    }
    Ok((values, rest))
}

/// The bytes after the numbers of the fields.
fn after_payload<'b>(fields: &[FieldText<'_>], bytes: &'b [u8]) -> Option<&'b [u8]>
    ensures read { option_map (λ rest. rest.now) result ≡ option_map (λ p. p.1) (read_payload (map told_field fields.now) bytes.now) }
    ensures within { IfSome result (λ rest. length rest.now ≤ length bytes.now) }
{
    let mut rest = bytes;
    for field in fields {
        let Some((_, next)) = number(field.width, rest) else {
            return None;
        };
        rest = next;
    }
    Some(rest)
}

/// The event with which these bytes begin, and those after it.
pub fn read_event<'b>(
    alloc: Global,
    metadata: &Metadata<'_>,
    bytes: &'b [u8],
) -> Result<(Event, &'b [u8]), EventFault>
    ensures read { IfOk result (λ p. event_from (told_layout metadata.now) bytes.now ≡ Some (as_read (told_layout metadata.now) p.0, p.1.now)) }
    ensures fits { IfOk result (λ p. Fits (told_layout metadata.now) p.0) }
    ensures shorter { IfOk result (λ p. length p.1.now < length bytes.now) }
    ensures fault { IfErr result (λ fault. EventDue (told_layout metadata.now) bytes.now fault) }
    ensures none { IfErr result (λ fault. IsTrue (is_event_fault fault) → event_from (told_layout metadata.now) bytes.now ≡ None) }
{
    let (place, event, rest) = heading(metadata, bytes)?;
    let Some((stamp, rest)) = stamp(metadata.clock.is_some(), rest) else {
        return Err(EventFault::Cut);
    };
    let (values, rest) = payload(alloc, &event.fields, rest)?;
    Ok((
        Event {
            place,
            stamp,
            values,
        },
        rest,
    ))
}

/// The bytes after the event with which these begin.
fn after_event<'b>(metadata: &Metadata<'_>, bytes: &'b [u8]) -> Result<&'b [u8], EventFault>
    ensures read { IfOk result (λ rest. option_map (λ p. p.1) (event_from (told_layout metadata.now) bytes.now) ≡ Some rest.now) }
    ensures shorter { IfOk result (λ rest. length rest.now < length bytes.now) }
    ensures fault { IfErr result (λ fault. EventDue (told_layout metadata.now) bytes.now fault) }
    ensures none { IfErr result (λ fault. event_from (told_layout metadata.now) bytes.now ≡ None) }
{
    let (_, event, rest) = heading(metadata, bytes)?;
    let Some((_, rest)) = stamp(metadata.clock.is_some(), rest) else {
        return Err(EventFault::Cut);
    };
    match after_payload(&event.fields, rest) {
        Some(rest) => Ok(rest),
        None => Err(EventFault::Cut),
    }
}

/// The events that fill the bytes of a packet.
pub fn read_events(
    alloc: Global,
    metadata: &Metadata<'_>,
    body: &[u8],
) -> Result<Vec<Event>, EventsFault>
    ensures read { IfOk result (λ events. events_from (told_layout metadata.now) body.now ≡ Some (map (as_read (told_layout metadata.now)) events.items)) }
    ensures fit { IfOk result (λ events. All (Fits (told_layout metadata.now)) events.items) }
    ensures fault { IfErr result (λ fault. EventsDue (told_layout metadata.now) body.now fault) }
    ensures none { IfErr result (λ fault. IsTrue (is_event_fault fault.fault) → events_from (told_layout metadata.now) body.now ≡ None) }
{
    let mut events = Vec::new(alloc);
    let mut rest = body;
    while !rest.is_empty() {
        let before = events.len();
        let at = body.len() - rest.len();
        match read_event(alloc, metadata, rest) {
            Ok((event, next)) => {
                if events.push(event).is_err() {
                    let fault = EventFault::Memory;
                    return Err(EventsFault { before, at, fault });
                }
                rest = next;
            }
            Err(fault) => return Err(EventsFault { before, at, fault }),
        }
    }
    Ok(events)
}

/// How many events fill the bytes of a packet. Takes no memory.
pub fn check_events(metadata: &Metadata<'_>, body: &[u8]) -> Result<usize, EventsFault>
    ensures read { IfOk result (λ count. option_map length (events_from (told_layout metadata.now) body.now) ≡ Some count) }
    ensures fault { IfErr result (λ fault. EventsDue (told_layout metadata.now) body.now fault) }
    ensures none { IfErr result (λ fault. events_from (told_layout metadata.now) body.now ≡ None) }
{
    let mut count = 0usize;
    let mut rest = body;
    while !rest.is_empty() {
        match after_event(metadata, rest) {
            Ok(next) => rest = next,
            Err(fault) => {
                return Err(EventsFault {
                    before: count,
                    at: body.len() - rest.len(),
                    fault,
                });
            }
        }
        count += 1;
    }
    Ok(count)
}
