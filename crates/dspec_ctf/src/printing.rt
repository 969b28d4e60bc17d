ghost use Rattle.std.specs.List.{flat_map, range_with_len};
ghost use Rattle.std.specs.Prelude.{◌≡◌, ◌<◌, ◌≤◌, ◌+◌, ◌*◌, ◌^◌, ◌++◌, drop, length, map, slice_index_or, OnOk, string_bytes};
ghost use Rattle.dspec_probe.specs.{Kinds.name_place, declared.kind.Kind.TheVariants.Unsigned};
ghost use Rattle.dspec_ctf.specs.Metadata.{type_name, kind_type, label_items, labelled_type, numbered_lines, typed_line, text_type, text_line, kind_line, next_in_front, words_at, given_line};
ghost use Rattle.dspec_ctf.specs.Metadata.{given_lines, stamp_line, event_name, field_lines, event_number, event_front, event_text};
ghost use Rattle.dspec_ctf.specs.Packets.{event_fields};

use crate::checking::labels_at;
use crate::{Form, Names, ProbeNames};
use dspec_probe::{Kind, next_words};
use dspec_record::{Enablings, Field, Header};
use std::alloc::AllocError;

/// The types of a field's values.
fn type_of(field: Field) -> &'static str
    ensures { result.now ≡ type_name field }
{
    match field {
        Field::One => "uint8_t",
        Field::Two => "uint16_t",
        Field::Four => "uint32_t",
        Field::Eight => "uint64_t",
    }
}

/// The lines of fields that are numbered.
fn print_numbered(text: &mut String, fields: &[Field]) -> Result<(), AllocError>
    ensures { OnOk result (string_bytes text.new ≡ string_bytes text.old ++ numbered_lines fields.now) }
{
    for (place, field) in fields.iter().enumerate() {
        let kind = type_of(*field);
        writeln!(text, "\t\t{kind} arg_{place};")?;
    }
    Ok(())
}

/// The type of numbers by what they mean.
fn type_by_kind(kind: Kind, field: Field) -> &'static str
    ensures { result.now ≡ kind_type kind field }
{
    match (kind, field) {
        (Kind::Signed, Field::One) => "integer { size = 8; align = 8; signed = true; }",
        (Kind::Signed, Field::Two) => "integer { size = 16; align = 8; signed = true; }",
        (Kind::Signed, Field::Four) => "integer { size = 32; align = 8; signed = true; }",
        (Kind::Signed, Field::Eight) => "integer { size = 64; align = 8; signed = true; }",
        (Kind::Float, Field::Four) => "floating_point { exp_dig = 8; mant_dig = 24; align = 8; }",
        (Kind::Float, Field::Eight) => "floating_point { exp_dig = 11; mant_dig = 53; align = 8; }",
        _ => type_of(field),
    }
}

/// What the numbers from 0 on are called.
#[tactic(auto, unfolding(crate::specs::Metadata::label_items))]
fn print_labels(text: &mut String, labels: &[&str]) -> Result<(), AllocError>
    ensures { OnOk result (string_bytes text.new ≡ string_bytes text.old ++ label_items (map (λ label. label.now) labels.now)) }
{
    for (number, label) in labels.iter().enumerate() {
        write!(text, "\"{label}\" = {number}, ")?;
    }
    Ok(())
}

/// The type of numbers of which some are called so.
#[tactic(auto, unfolding(crate::specs::Metadata::labelled_type))]
fn print_type(
    text: &mut String,
    kind: Kind,
    labels: &[&str],
    field: Field,
) -> Result<(), AllocError>
    ensures { OnOk result (string_bytes text.new ≡ string_bytes text.old ++ labelled_type kind (map (λ label. label.now) labels.now) field) }
{
    let numbers = type_by_kind(kind, field);
    if kind == Kind::Float || labels.is_empty() {
        return text.push_str(numbers);
    }
    write!(text, "enum : {numbers} {{ ")?;
    print_labels(text, labels)?;
    text.push_str("}")
}

/// What the number of the field at a place means.
fn kind_at(event: &ProbeNames<'_>, place: usize) -> Kind
    ensures { result ≡ slice_index_or event.now.kinds place Unsigned }
{
    match event.kinds.get(place) {
        Some(kind) => *kind,
        None => Kind::Unsigned,
    }
}

/// The line of a field whose numbers mean this, and are called so.
fn print_typed_line(
    text: &mut String,
    kind: Kind,
    labels: &[&str],
    field: Field,
    name: &str,
) -> Result<(), AllocError>
    ensures { OnOk result (string_bytes text.new ≡ string_bytes text.old ++ typed_line (labelled_type kind (map (λ label. label.now) labels.now) field) name.now) }
{
    text.push_str("\t\t")?;
    print_type(text, kind, labels, field)?;
    writeln!(text, " {name};")
}

/// The type of a text's characters.
#[tactic(auto, unfolding(crate::specs::Metadata::text_type))]
fn text_type() -> &'static str
    ensures { result.now ≡ text_type }
{
    "\t\tinteger { size = 8; align = 8; signed = false; encoding = UTF8; } "
}

/// The line of a text of so many bytes.
fn print_text_line(text: &mut String, size: usize, name: &str) -> Result<(), AllocError>
    ensures { OnOk result (string_bytes text.new ≡ string_bytes text.old ++ text_line size name.now) }
{
    text.push_str(text_type())?;
    writeln!(text, "{name}[{size}];")
}

/// How many next words of a text stand in front of other kinds.
fn next_in_front(kinds: &[Kind]) -> usize
    ensures next { result ≡ next_in_front kinds.now }
    ensures few { result ≤ length kinds.now }
{
    let mut next = 0;
    for kind in kinds {
        if *kind != Kind::TextNext {
            return next;
        }
        next += 1;
    }
    next
}

/// How many of them stand after a place, in front of other kinds.
fn next_after(kinds: &[Kind], place: usize) -> usize
    ensures next { result ≡ next_in_front (drop (place + 1) kinds.now) }
    ensures few { result ≤ length kinds.now }
{
    if place >= kinds.len() {
        return 0;
    }
    next_in_front(&kinds[place + 1..])
}

/// How many words the text has whose first is at this place.
fn words_at(event: &ProbeNames<'_>, place: usize) -> usize
    ensures words { result ≡ words_at event.now place }
    ensures few { result ≤ 9 }
{
    1 + next_after(&event.kinds, place)
}

/// The place of a field's name among the names.
fn name_place(kinds: &[Kind; 8], place: usize) -> usize
    ensures { result ≡ name_place kinds.now place }
{
    if place >= kinds.len() {
        return place.saturating_sub(next_words(kinds));
    }
    place.saturating_sub(next_words(&kinds[..=place]))
}

/// The line of a field with this name, by what it means.
fn print_kind_line(
    text: &mut String,
    event: &ProbeNames<'_>,
    place: usize,
    field: Field,
    name: &str,
) -> Result<(), AllocError>
    ensures { OnOk result (string_bytes text.new ≡ string_bytes text.old ++ kind_line event.now place field (slice_index_or event.now.kinds place Unsigned) name.now) }
{
    match kind_at(event, place) {
        Kind::TextNext => Ok(()),
        Kind::Text => print_text_line(text, 8 * words_at(event, place), name),
        kind => {
            let labels = labels_at(event, name_place(&event.kinds, place));
            print_typed_line(text, kind, labels, field, name)
        }
    }
}

/// The line of a field that has a name by its place.
#[tactic(auto, unfolding(crate::specs::Metadata::given_line))]
fn print_given_line(
    text: &mut String,
    event: &ProbeNames<'_>,
    place: usize,
    field: Field,
) -> Result<(), AllocError>
    ensures { OnOk result (string_bytes text.new ≡ string_bytes text.old ++ given_line event.now place field) }
{
    let Some(name) = event.fields.get(name_place(&event.kinds, place)) else {
        return Ok(());
    };
    print_kind_line(text, event, place, field, name)
}

/// The lines of an event's fields, with their names.
fn print_given(
    text: &mut String,
    event: &ProbeNames<'_>,
    fields: &[Field],
) -> Result<(), AllocError>
    ensures { OnOk result (string_bytes text.new ≡ string_bytes text.old ++ given_lines event.now fields.now) }
{
    for (place, field) in fields.iter().enumerate() {
        print_given_line(text, event, place, *field)?;
    }
    Ok(())
}

/// The stamp as a field, where it is one.
fn stamp_part(form: Form, header: Header) -> &'static str
    ensures { result.now ≡ stamp_line form header }
{
    match (form, header) {
        (Form::AsTaken, Header::Two) => "\t\tuint64_t stamp;\n",
        _ => "",
    }
}

/// The name of the event at a place.
#[tactic(auto, unfolding(crate::specs::Metadata::event_name))]
fn print_event_name(text: &mut String, names: &Names<'_>, place: u32) -> Result<(), AllocError>
    requires { place < 2 ^ 31 }
    ensures { OnOk result (string_bytes text.new ≡ string_bytes text.old ++ event_name names.now place) }
{
    let Names::Given(given) = *names else {
        let epid = place + 1;
        return write!(text, "epid_{epid}");
    };
    match given.get(place as usize) {
        Some(event) => text.push_str(event.event),
        None => Ok(()),
    }
}

/// The lines of the fields of the event at a place.
#[tactic(auto, unfolding(crate::specs::Metadata::field_lines))]
fn print_fields(
    text: &mut String,
    names: &Names<'_>,
    place: u32,
    fields: &[Field],
) -> Result<(), AllocError>
    ensures { OnOk result (string_bytes text.new ≡ string_bytes text.old ++ field_lines names.now place fields.now) }
{
    let Names::Given(given) = *names else {
        return print_numbered(text, fields);
    };
    match given.get(place as usize) {
        Some(event) => print_given(text, event, fields),
        None => Ok(()),
    }
}

/// An event up to its name.
#[tactic(auto, unfolding(crate::specs::Metadata::event_number))]
fn print_number(text: &mut String, epid: u32) -> Result<(), AllocError>
    ensures { OnOk result (string_bytes text.new ≡ string_bytes text.old ++ event_number epid) }
{
    write!(text, "\nevent {{\n\tid = {epid};\n\tname = \"")
}

/// An event up to its fields.
#[tactic(auto, unfolding(crate::specs::Metadata::event_front))]
fn print_front(text: &mut String, names: &Names<'_>, place: u32) -> Result<(), AllocError>
    requires { place < 2 ^ 31 }
    ensures { OnOk result (string_bytes text.new ≡ string_bytes text.old ++ event_front names.now place) }
{
    print_number(text, place + 1)?;
    print_event_name(text, names, place)?;
    text.push_str("\";\n\tstream_id = 0;\n\tfields := struct {\n")
}

/// The fields of the records with this EPID; none where it isn't enabled.
pub(crate) fn fields_at(enablings: &Enablings, epid: u32) -> &[Field]
    ensures { result.now ≡ event_fields enablings.now epid }
{
    match enablings.fields(epid) {
        Some(fields) => fields,
        None => &[],
    }
}

/// The event at a place, from 0 on.
#[tactic(auto, unfolding(crate::specs::Metadata::event_text))]
fn print_event(
    text: &mut String,
    form: Form,
    enablings: &Enablings,
    names: &Names<'_>,
    place: u32,
) -> Result<(), AllocError>
    requires { place < 2 ^ 31 }
    ensures { OnOk result (string_bytes text.new ≡ string_bytes text.old ++ event_text form enablings.now names.now place) }
{
    print_front(text, names, place)?;
    text.push_str(stamp_part(form, enablings.header()))?;
    print_fields(text, names, place, fields_at(enablings, place + 1))?;
    text.push_str("\t};\n};\n")
}

/// All events.
pub(crate) fn print_events(
    text: &mut String,
    form: Form,
    enablings: &Enablings,
    names: &Names<'_>,
) -> Result<(), AllocError>
    ensures { OnOk result (string_bytes text.new ≡ string_bytes text.old
        ++ flat_map (event_text form enablings.now names.now) (range_with_len 0 (length enablings.now.rows))) }
{
    for place in 0..enablings.count() {
        print_event(text, form, enablings, names, place)?;
    }
    Ok(())
}
