ghost use Rattle.std.specs.{List.list_all, List.list_any, List.range_with_len, Prelude.◌≡◌, Prelude.◌+◌, Prelude.◌<◌, Prelude.◌≤◌, Prelude.◌^◌, Prelude.length, Prelude.map, Prelude.IfOk};
ghost use Rattle.std.specs.{Prelude.IfSome, Prelude.◌==◌, Prelude.slice_index_or, Str.bytes_eq};
ghost use Rattle.dspec_record.specs.{Layout.width, declared.field.Field.TheVariants.One};
ghost use Rattle.dspec_ctf.specs.Names.{is_letter, is_word_byte, begins_well, is_identifier, reserved_words, unfit, bad_name, bad_at, first_bad, first_found, is_label_byte, is_label, labels_at};
ghost use Rattle.dspec_ctf.specs.Names.{bad_label_at, first_bad_label, label_fault_at, labels_fault, fields_fault, is_text, is_text_before, text_fault_at, texts_fault, fault_at, events_fault};
ghost use Rattle.dspec_ctf.specs.Names.{names_fault, has_stamp};

use crate::printing::fields_at;
use crate::{Form, NameFault, NameKind, Names, ProbeNames};
use dspec_probe::{Kind, next_words};
use dspec_record::{Enablings, Field, Header};
use std::alloc::{AllocError, Global};

/// The most bytes of a name.
const MAX_NAME: usize = 255;

/// The words that the metadata's language keeps for itself.
const RESERVED: [&str; 28] = [
    "align",
    "callsite",
    "const",
    "char",
    "clock",
    "double",
    "enum",
    "env",
    "event",
    "floating_point",
    "float",
    "integer",
    "int",
    "long",
    "short",
    "signed",
    "stream",
    "string",
    "struct",
    "trace",
    "typealias",
    "typedef",
    "unsigned",
    "variant",
    "void",
    "_Bool",
    "_Complex",
    "_Imaginary",
];

/// Whether this is an English letter or an underscore.
#[tactic(auto, unfolding(crate::specs::Names::is_letter))]
fn is_letter(byte: u8) -> bool
    ensures { result ≡ is_letter byte }
{
    (b'A'..=b'Z').contains(&byte) || (b'a'..=b'z').contains(&byte) || byte == b'_'
}

/// Whether this is one of these or a digit.
#[tactic(auto, unfolding(crate::specs::Names::is_word_byte))]
fn is_word_byte(byte: u8) -> bool
    ensures { result ≡ is_word_byte byte }
{
    is_letter(byte) || (b'0'..=b'9').contains(&byte)
}

/// Whether these bytes begin with a letter or an underscore.
#[tactic(auto, unfolding(crate::specs::Names::begins_well))]
fn begins_well(name: &[u8]) -> bool
    ensures { result ≡ begins_well name.now }
{
    match name.first() {
        Some(first) => is_letter(*first),
        None => false,
    }
}

/// Whether these bytes are letters, underscores and digits.
fn are_word_bytes(name: &[u8]) -> bool
    ensures { result ≡ list_all is_word_byte name.now }
{
    name.iter().all(|byte| is_word_byte(*byte))
}

/// Whether these bytes are an identifier.
fn is_identifier(name: &[u8]) -> bool
    ensures { result ≡ is_identifier name.now }
{
    begins_well(name) && are_word_bytes(name)
}

/// Whether a name is one of these.
fn is_among(names: &[&str], name: &str) -> bool
    ensures { result ≡ list_any (λ other. bytes_eq name.now other.now) names.now }
{
    names.iter().any(|other| name == *other)
}

/// Whether the metadata's language keeps this word for itself.
#[tactic(auto, unfolding(crate::specs::Names::reserved_words))]
fn is_reserved(name: &str) -> bool
    ensures { result ≡ list_any (bytes_eq name.now) reserved_words }
{
    is_among(&RESERVED, name)
}

/// Why a word is no name.
#[tactic(auto, unfolding(crate::specs::Names::unfit))]
fn unfit(name: &str) -> Option<NameKind>
    ensures { result ≡ unfit name.now }
{
    if name.len() > MAX_NAME {
        return Some(NameKind::TooLong);
    }
    if !is_identifier(name.as_bytes()) {
        return Some(NameKind::NotAnIdentifier);
    }
    if is_reserved(name) {
        return Some(NameKind::Reserved);
    }
    None
}

/// Why a name can't stand after these. `stamp` may be taken.
#[tactic(auto, using(crate::proofs::Lines::list_any_map), unfolding(crate::specs::Names::bad_name))]
fn bad_name(stamped: bool, before: &[&str], name: &str) -> Option<NameKind>
    ensures { result ≡ bad_name stamped (map (λ other. other.now) before.now) name.now }
{
    if let Some(kind) = unfit(name) {
        return Some(kind);
    }
    if (stamped && name == "stamp") || is_among(before, name) {
        return Some(NameKind::Repeated);
    }
    None
}

/// What is wrong with the name at a place.
#[tactic(auto, using(crate::proofs::Lines::now_at, crate::proofs::Lines::now_before), unfolding(crate::specs::Names::bad_at))]
fn bad_at(stamped: bool, names: &[&str], place: usize) -> Option<(usize, NameKind)>
    requires { place < length names.now }
    ensures bad { result ≡ bad_at stamped (map (λ name. name.now) names.now) place }
    ensures place { IfSome result (λ bad. bad.0 ≡ place) }
{
    match bad_name(stamped, &names[..place], names[place]) {
        Some(kind) => Some((place, kind)),
        None => None,
    }
}

/// The first place with a bad name.
#[tactic(auto, unfolding(crate::specs::Names::first_bad))]
fn first_bad(stamped: bool, names: &[&str]) -> Option<(usize, NameKind)>
    ensures first { result ≡ first_bad stamped (map (λ name. name.now) names.now) }
    ensures within { IfSome result (λ bad. bad.0 < length names.now) }
{
    for place in 0..names.len() {
        let found = bad_at(stamped, names, place);
        if found.is_some() {
            return found;
        }
    }
    None
}

/// What is wrong with the names of the fields of an event, of which so many are next words of a text.
#[tactic(auto, unfolding(crate::specs::Names::fields_fault))]
fn fields_fault(
    stamped: bool,
    epid: u32,
    names: &[&str],
    next: usize,
    fields: &[Field],
) -> Option<NameFault>
    ensures { result ≡ fields_fault stamped epid (map (λ name. name.now) names.now) next fields.now }
{
    if names.len().checked_add(next) != Some(fields.len()) {
        return Some(NameFault::FieldCount { epid });
    }
    match first_bad(stamped, names) {
        Some((place, kind)) => Some(NameFault::Field { epid, place, kind }),
        None => None,
    }
}

/// Whether this byte can stand in a label.
#[tactic(auto, unfolding(crate::specs::Names::is_label_byte))]
fn is_label_byte(byte: u8) -> bool
    ensures { result ≡ is_label_byte byte }
{
    (32..=126).contains(&byte) && !(byte == b'"' || byte == b'\\')
}

/// Whether these bytes can.
fn are_label_bytes(label: &[u8]) -> bool
    ensures { result ≡ list_all is_label_byte label.now }
{
    label.iter().all(|byte| is_label_byte(*byte))
}

/// Whether a label can be shown.
#[tactic(auto, unfolding(crate::specs::Names::is_label))]
pub(crate) fn is_label(label: &str) -> bool
    ensures { result ≡ is_label label.now }
{
    (1 <= label.len() && label.len() <= MAX_NAME) && are_label_bytes(label.as_bytes())
}

/// What the values of the field at a place are called, 0 first.
pub(crate) fn labels_at<'a>(event: &ProbeNames<'a>, place: usize) -> &'a [&'a str]
    ensures { map (λ label. label.now) result.now ≡ labels_at event.now place }
{
    let Some(all) = event.labels else {
        return &[];
    };
    let Some(labels) = all.get(place) else {
        return &[];
    };
    labels
}

/// The label with this number, if it can't be shown.
#[tactic(auto, using(crate::proofs::Lines::now_at), unfolding(crate::specs::Names::bad_label_at))]
fn bad_label_at(labels: &[&str], number: usize) -> Option<usize>
    requires { number < length labels.now }
    ensures { result ≡ bad_label_at (map (λ label. label.now) labels.now) number }
{
    if is_label(labels[number]) {
        return None;
    }
    Some(number)
}

/// The first label that can't be shown.
#[tactic(auto, unfolding(crate::specs::Names::first_bad_label))]
fn first_bad_label(labels: &[&str]) -> Option<usize>
    ensures { result ≡ first_bad_label (map (λ label. label.now) labels.now) }
{
    for number in 0..labels.len() {
        let found = bad_label_at(labels, number);
        if found.is_some() {
            return found;
        }
    }
    None
}

/// What is wrong with the labels of the field at a place.
#[tactic(auto, unfolding(crate::specs::Names::label_fault_at))]
fn label_fault_at(epid: u32, event: &ProbeNames<'_>, place: usize) -> Option<NameFault>
    ensures { result ≡ label_fault_at epid event.now place }
{
    match first_bad_label(labels_at(event, place)) {
        Some(value) => Some(NameFault::Label { epid, place, value }),
        None => None,
    }
}

/// Whether this is a word of a text.
fn is_text(kind: Kind) -> bool
    ensures { result ≡ is_text kind }
{
    matches!(kind, Kind::Text | Kind::TextNext)
}

/// Whether the field in front of this place is a word of a text.
fn is_text_before(kinds: &[Kind], place: usize) -> bool
    requires { place < length kinds.now }
    ensures { result ≡ is_text_before kinds.now place }
{
    match place.checked_sub(1) {
        Some(before) => is_text(kinds[before]),
        None => false,
    }
}

/// Whether the field at a place has eight bytes.
fn is_eight(fields: &[Field], place: usize) -> bool
    ensures { result ≡ (width (slice_index_or fields.now place One) == 8) }
{
    matches!(fields.get(place), Some(Field::Eight))
}

/// The word of a text at a place, if it can't be one.
#[tactic(auto, unfolding(crate::specs::Names::text_fault_at))]
fn text_fault_at(epid: u32, kinds: &[Kind], fields: &[Field], place: usize) -> Option<NameFault>
    requires { place < length kinds.now }
    ensures { result ≡ text_fault_at epid kinds.now fields.now place }
{
    let fit = match kinds[place] {
        Kind::Text => is_eight(fields, place),
        Kind::TextNext => is_eight(fields, place) && is_text_before(kinds, place),
        Kind::Unsigned | Kind::Signed | Kind::Float => true,
    };
    if fit {
        return None;
    }
    Some(NameFault::Word { epid, place })
}

/// The first word of a text that can't be one.
#[tactic(auto, unfolding(crate::specs::Names::texts_fault))]
fn texts_fault(epid: u32, kinds: &[Kind], fields: &[Field]) -> Option<NameFault>
    ensures { result ≡ texts_fault epid kinds.now fields.now }
{
    for place in 0..kinds.len() {
        let found = text_fault_at(epid, kinds, fields, place);
        if found.is_some() {
            return found;
        }
    }
    None
}

/// What is wrong with the labels of an event's fields.
#[tactic(auto, unfolding(crate::specs::Names::labels_fault))]
fn labels_fault(epid: u32, event: &ProbeNames<'_>) -> Option<NameFault>
    ensures { result ≡ labels_fault epid event.now }
{
    for place in 0..event.fields.len() {
        let found = label_fault_at(epid, event, place);
        if found.is_some() {
            return found;
        }
    }
    None
}

/// The same of names and labels of the event at a place.
#[tactic(auto, unfolding(crate::specs::Names::fault_at))]
fn fault_at(
    stamped: bool,
    enablings: &Enablings,
    given: &[ProbeNames<'_>],
    place: u32,
) -> Option<NameFault>
    requires { place < 2 ^ 31 }
    ensures { result ≡ fault_at stamped enablings.now given.now place }
{
    let epid = place + 1;
    let Some(event) = given.get(place as usize) else {
        return None;
    };
    let fields = fields_at(enablings, epid);
    let next = next_words(&event.kinds);
    let fault = fields_fault(stamped, epid, event.fields, next, fields);
    if fault.is_some() {
        return fault;
    }
    let fault = texts_fault(epid, &event.kinds, fields);
    if fault.is_some() {
        return fault;
    }
    labels_fault(epid, event)
}

/// The same of the first event of which there is something wrong.
fn all_fields_fault(
    stamped: bool,
    enablings: &Enablings,
    given: &[ProbeNames<'_>],
) -> Option<NameFault>
    ensures { result ≡ first_found (fault_at stamped enablings.now given.now) (range_with_len 0 (length enablings.now.rows)) }
{
    for place in 0..enablings.count() {
        let found = fault_at(stamped, enablings, given, place);
        if found.is_some() {
            return found;
        }
    }
    None
}

/// What is wrong with the names of events.
#[tactic(auto, unfolding(crate::specs::Names::events_fault))]
fn events_fault(names: &[&str]) -> Option<NameFault>
    requires { length names.now ≤ 64 }
    ensures { result ≡ events_fault (map (λ name. name.now) names.now) }
{
    match first_bad(false, names) {
        Some((place, kind)) => Some(NameFault::Event {
            epid: place as u32 + 1,
            kind,
        }),
        None => None,
    }
}

/// The names of the events alone.
fn event_names<'a>(alloc: Global, given: &[ProbeNames<'a>]) -> Result<Vec<&'a str>, AllocError>
    ensures { IfOk result (λ names. map (λ name. name.now) names.items ≡ map (λ event. event.event.now) given.now) }
{
    let mut names = Vec::new(alloc);
    for event in given {
        names.push(event.event)?;
    }
    Ok(names)
}

/// The first thing that is wrong with names for these enablings.
#[tactic(auto, unfolding(crate::specs::Names::names_fault))]
pub(crate) fn names_fault(
    alloc: Global,
    form: Form,
    enablings: &Enablings,
    names: &Names<'_>,
) -> Result<Option<NameFault>, AllocError>
    ensures { IfOk result (λ fault. fault ≡ names_fault form enablings.now names.now) }
{
    let Names::Given(given) = *names else {
        return Ok(None);
    };
    if given.len() != enablings.count() as usize {
        return Ok(Some(NameFault::EventCount));
    }
    let events = event_names(alloc, given)?;
    let found = events_fault(&events);
    if found.is_some() {
        return Ok(found);
    }
    let stamped = has_stamp(form, enablings.header());
    Ok(all_fields_fault(stamped, enablings, given))
}

/// Whether each event has a field of its stamp.
fn has_stamp(form: Form, header: Header) -> bool
    ensures { result ≡ has_stamp form header }
{
    matches!((form, header), (Form::AsTaken, Header::Two))
}
