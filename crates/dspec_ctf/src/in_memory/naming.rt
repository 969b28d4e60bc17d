//! The names of events and fields.

ghost use Rattle.std.specs.Prelude.{◌≡◌, ◌+◌, ◌<◌, ◌≤◌, IfOk, IfErr, MatchOption, None, length, map, take};
ghost use Rattle.dspec_probe.specs.Kinds.{next_words};
ghost use Rattle.dspec_ctf.specs.InMemory.Naming.{AreEvents, HasNoEvents, HasNoTexts, kind_number, kinds_in, texts_in};

use crate::{Kind, ProbeNames, TextFault};
use dspec_probe::next_words;
use dspec_record::Enablings;
use std::alloc::Global;
use std::str;

/// These bytes as texts.
pub(crate) fn texts_of<'a>(alloc: Global, names: &[&'a [u8]]) -> Result<Vec<&'a str>, TextFault>
    ensures texts { IfOk result (λ texts. map (λ text. text.now) texts.items ≡ map (λ name. name.now) names.now) }
    ensures fault { IfErr result (HasNoTexts (map (λ name. name.now) names.now)) }
{
    let mut texts = Vec::new(alloc);
    for name in names {
        let Ok(text) = str::from_utf8(name) else {
            return Err(TextFault::NotText);
        };
        texts.push(text)?;
    }
    Ok(texts)
}

/// What numbers mean, by what that is called at the door.
fn kind_of(number: u8) -> Option<Kind>
    ensures { MatchOption result (4 < number) (λ kind. kind_number kind ≡ number) }
{
    match number {
        0 => Some(Kind::Unsigned),
        1 => Some(Kind::Signed),
        2 => Some(Kind::Float),
        3 => Some(Kind::Text),
        4 => Some(Kind::TextNext),
        _ => None,
    }
}

/// What the numbers of these fields mean, the first of eight.
fn kinds_of(numbers: &[u8]) -> Result<[Kind; 8], TextFault>
    requires { length numbers.now ≤ 8 }
    ensures kinds { IfOk result (λ kinds. map kind_number (take (length numbers.now) kinds) ≡ numbers.now) }
    ensures fault { IfErr result (HasNoEvents numbers.now) }
{
    let mut kinds = [Kind::Unsigned; 8];
    for place in 0..numbers.len() {
        let Some(kind) = kind_of(numbers[place]) else {
            return Err(TextFault::BadKind);
        };
        kinds[place] = kind;
    }
    Ok(kinds)
}

/// The first event of these names, which has so many fields, and what their numbers mean. The next words of a text have no name.
fn event_of<'a>(
    texts: &'a [&'a str],
    numbers: &[u8],
    count: usize,
) -> Result<ProbeNames<'a>, TextFault>
    requires { count ≤ 8 }
    ensures count { IfOk result (λ event. length event.fields.now + next_words event.kinds ≡ count) }
    ensures within { IfOk result (λ event. (length event.fields.now < length texts.now) × (count ≤ length numbers.now)) }
    ensures texts { IfOk result (λ event. texts_in event ≡ take (1 + length event.fields.now) (map (λ text. text.now) texts.now)) }
    ensures kinds { IfOk result (λ event. kinds_in event ≡ take count numbers.now) }
    ensures bare { IfOk result (λ event. event.labels ≡ None) }
    ensures fault { IfErr result (HasNoEvents numbers.now) }
{
    if numbers.len() < count {
        return Err(TextFault::Count);
    }
    let kinds = match kinds_of(&numbers[..count]) {
        Ok(kinds) => kinds,
        Err(fault) => return Err(fault),
    };
    let Some(named) = count.checked_sub(next_words(&kinds)) else {
        return Err(TextFault::Count);
    };
    if texts.len() <= named {
        return Err(TextFault::Count);
    }
    Ok(ProbeNames {
        event: texts[0],
        fields: &texts[1..1 + named],
        kinds,
        labels: None,
    })
}

/// How many fields the records of an EPID have.
fn field_count(enablings: &Enablings, epid: u32) -> usize
    ensures { result ≤ 8 }
{
    match enablings.fields(epid) {
        Some(fields) if fields.len() <= 8 => fields.len(),
        _ => 0,
    }
}

/// The events of these enablings by their names and kinds, one event's after another's.
pub(crate) fn events_of<'a>(
    alloc: Global,
    enablings: &Enablings,
    texts: &'a [&'a str],
    numbers: &[u8],
) -> Result<Vec<ProbeNames<'a>>, TextFault>
    ensures events { IfOk result (λ events. AreEvents (map (λ text. text.now) texts.now) numbers.now events.items) }
    ensures fault { IfErr result (HasNoEvents numbers.now) }
{
    let mut events = Vec::new(alloc);
    let mut text = 0;
    let mut number = 0;
    for place in 0..enablings.count() {
        let count = field_count(enablings, place + 1);
        let event = match event_of(&texts[text..], &numbers[number..], count) {
            Ok(event) => event,
            Err(fault) => return Err(fault),
        };
        let named = event.fields.len();
        events.push(event)?;
        text += 1 + named;
        number += count;
    }
    if text != texts.len() || number != numbers.len() {
        return Err(TextFault::Count);
    }
    Ok(events)
}
