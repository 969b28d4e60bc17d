//! The metadata of traces, and names that can't be used.
use crate::same::{UUID, same, three_enablings};
use dspec_ctf::{Form, Kind, MetadataFault, NameFault, NameKind, Names, ProbeNames, metadata};
use dspec_ctf_reading::read_metadata;
use dspec_record::{Enablings, Field};
use std::process::Abort;
use std::test::Fail;

/// The last lines of the metadata of three enablings that are numbered, without a stamp.
const NUMBERED: &str =
    "\nevent {\n\tid = 3;\n\tname = \"epid_3\";\n\tstream_id = 0;\n\tfields := struct {\n\t\tuint8_t arg_0;\n\t\tuint16_t arg_1;\n\t};\n};\n";

/// The same of named ones that have a stamp, as taken.
const NAMED: &str =
    "\nevent {\n\tid = 3;\n\tname = \"two\";\n\tstream_id = 0;\n\tfields := struct {\n\t\tuint64_t stamp;\n\t\tuint8_t small;\n\t\tuint16_t _large;\n\t};\n};\n";

/// The metadata of these enablings in this form, by these names.
fn text_of(
    rt: &impl AllocGlobal,
    form: Form,
    enablings: &Enablings,
    names: &Names<'_>,
) -> Result<String, MetadataFault> {
    metadata(rt.alloc(), &UUID, form, enablings, names)
}

/// Names of the three.
fn named<'a>(first: &'a str, fields: &'a [&'a str]) -> [ProbeNames<'a>; 3] {
    [
        ProbeNames::of(first, &[]),
        ProbeNames::of("one", &["all"]),
        ProbeNames::of("two", fields),
    ]
}

#[test]
fn whole_texts(rt: HostRuntime) -> Result<(), Fail> {
    let enablings = three_enablings()?;
    let text = text_of(&rt, Form::AsTaken, &enablings, &Names::Numbered)?;
    let first = "/* CTF 1.8 */\n\ntypealias integer { size = 8;";
    same(&rt, text.as_str().starts_with(first), true);
    let uuid = "\tuuid = \"00112233-4455-6677-8899-aabbccddeeff\";\n";
    same(&rt, text.as_str().contains(uuid), true);
    same(&rt, text.as_str().ends_with(NUMBERED), true);
    let given = named("none", &["small", "_large"]);
    let names = Names::Given(&given);
    let text = text_of(&rt, Form::AsTaken, &enablings.stamped(), &names)?;
    same(&rt, text.as_str().ends_with(NAMED), true);
    Ok(())
}

/// What is refused of these names, as taken with a stamp.
fn refused(
    rt: &(impl Abort + AllocGlobal),
    given: &[ProbeNames<'_>],
    wanted: NameFault,
) -> Result<(), Fail> {
    let enablings = three_enablings()?.stamped();
    let found = text_of(rt, Form::AsTaken, &enablings, &Names::Given(given));
    same(rt, found.err(), Some(MetadataFault::Name(wanted)));
    Ok(())
}

/// The same of the name of the first event.
fn refused_first(
    rt: &(impl Abort + AllocGlobal),
    name: &str,
    epid: u32,
    kind: NameKind,
) -> Result<(), Fail> {
    let fault = NameFault::Event { epid, kind };
    refused(rt, &named(name, &["a", "b"]), fault)
}

#[test]
fn refused_names(rt: HostRuntime) -> Result<(), Fail> {
    for (name, epid, kind) in [
        ("", 1, NameKind::NotAnIdentifier),
        ("9a", 1, NameKind::NotAnIdentifier),
        ("a-b", 1, NameKind::NotAnIdentifier),
        ("_Imaginary", 1, NameKind::Reserved),
        ("two", 3, NameKind::Repeated),
    ] {
        refused_first(&rt, name, epid, kind)?;
    }
    let count = NameFault::FieldCount { epid: 3 };
    refused(&rt, &named("none", &["a"]), count)?;
    let stamp = NameFault::Field {
        epid: 3,
        place: 1,
        kind: NameKind::Repeated,
    };
    refused(&rt, &named("stamp", &["a", "stamp"]), stamp)?;
    refused(&rt, &[], NameFault::EventCount)
}

#[test]
fn names_at_their_limits(rt: HostRuntime) -> Result<(), Fail> {
    let mut longest = String::new(rt.alloc());
    for _ in 0..255 {
        longest.push('z')?;
    }
    let enablings = three_enablings()?;
    let given = named(longest.as_str(), &["A_9", "_"]);
    let text = text_of(&rt, Form::AsTaken, &enablings, &Names::Given(&given))?;
    same(&rt, text.as_str().contains(longest.as_str()), true);
    longest.push('z')?;
    refused_first(&rt, longest.as_str(), 1, NameKind::TooLong)
}

#[test]
fn refused_forms(rt: HostRuntime) -> Result<(), Fail> {
    let enablings = three_enablings()?;
    let found = text_of(&rt, Form::ByTime(1), &enablings, &Names::Numbered);
    same(&rt, found.err(), Some(MetadataFault::NoStamp));
    let stamped = enablings.stamped();
    let found = text_of(&rt, Form::ByTime(0), &stamped, &Names::Numbered);
    same(&rt, found.err(), Some(MetadataFault::NoFrequency));
    let text = text_of(&rt, Form::ByTime(1000), &stamped, &Names::Numbered)?;
    same(&rt, text.as_str().contains("\tfreq = 1000;\n"), true);
    Ok(())
}

/// One event of five fields, of which the first two have labels.
fn of_each_kind(labels: &'static [&'static [&'static str]]) -> [ProbeNames<'static>; 1] {
    let (plain, signed, float) = (Kind::Unsigned, Kind::Signed, Kind::Float);
    [ProbeNames {
        event: "each",
        fields: &["status", "level", "delta", "load", "ratio"],
        kinds: [plain, signed, signed, float, float, plain, plain, plain],
        labels: Some(labels),
    }]
}

/// Its text.
const OF_EACH_KIND: &str =
    "\nevent {\n\tid = 1;\n\tname = \"each\";\n\tstream_id = 0;\n\tfields := struct {\n\t\tenum : uint8_t { \"ok\" = 0, \"it failed\" = 1, } status;\n\t\tenum : integer { size = 8; align = 8; signed = true; } { \"low\" = 0, } level;\n\t\tinteger { size = 16; align = 8; signed = true; } delta;\n\t\tfloating_point { exp_dig = 8; mant_dig = 24; align = 8; } load;\n\t\tfloating_point { exp_dig = 11; mant_dig = 53; align = 8; } ratio;\n\t};\n};\n";

/// Metadata of that event, or what is refused.
fn metadata_of_each_kind(
    rt: &impl AllocGlobal,
    labels: &'static [&'static [&'static str]],
) -> Result<String, MetadataFault> {
    let mut enablings = Enablings::new();
    let all = [
        Field::One,
        Field::One,
        Field::Two,
        Field::Four,
        Field::Eight,
    ];
    if enablings.enable(&all).is_err() {
        return Err(MetadataFault::Memory);
    }
    let names = of_each_kind(labels);
    text_of(rt, Form::AsTaken, &enablings, &Names::Given(&names))
}

#[test]
fn kinds_and_labels(rt: HostRuntime) -> Result<(), Fail> {
    let labels: &[&[&str]] = &[&["ok", "it failed"], &["low"]];
    // a float has none
    let more: &[&[&str]] = &[&["ok", "it failed"], &["low"], &[], &["none"]];
    for labels in [labels, more] {
        let text = metadata_of_each_kind(&rt, labels)?;
        same(&rt, text.as_str().ends_with(OF_EACH_KIND), true);
    }
    Ok(())
}

/// What is refused of these labels.
fn refused_label(
    rt: &(impl Abort + AllocGlobal),
    labels: &'static [&'static [&'static str]],
    place: usize,
    value: usize,
) {
    let found = metadata_of_each_kind(rt, labels).err();
    let epid = 1;
    let wanted = NameFault::Label { epid, place, value };
    same(rt, found, Some(MetadataFault::Name(wanted)));
}

#[test]
fn refused_labels(rt: HostRuntime) {
    refused_label(&rt, &[&["ok", "a \"quote\""]], 0, 1);
    refused_label(&rt, &[&["ok"], &["back\\slash"]], 1, 0);
    refused_label(&rt, &[&[], &[], &["ok", "", "\n"]], 2, 1);
    refused_label(&rt, &[&["two\nlines"]], 0, 0);
}

/// The lines of an event of a number, a text of two words and another number.
const OF_A_TEXT: &str =
    "\t\tuint64_t request;\n\t\tinteger { size = 8; align = 8; signed = false; encoding = UTF8; } sql[16];\n\t\tuint64_t code;\n\t};\n};\n";

/// An event with a text, whose words mean this.
fn metadata_of_a_text(
    rt: &impl AllocGlobal,
    first: Kind,
    width: Field,
) -> Result<String, MetadataFault> {
    let mut enablings = Enablings::new();
    let fields = [Field::Eight, Field::Eight, width, Field::Eight];
    if enablings.enable(&fields).is_err() {
        return Err(MetadataFault::Memory);
    }
    let mut kinds = [Kind::Unsigned; 8];
    kinds[1] = first;
    kinds[2] = Kind::TextNext;
    let names = [ProbeNames {
        event: "query",
        fields: &["request", "sql", "code"],
        kinds,
        labels: None,
    }];
    text_of(rt, Form::AsTaken, &enablings, &Names::Given(&names))
}

/// A text has one line, and is read as its words.
#[test]
fn line_of_a_text(rt: HostRuntime) -> Result<(), Fail> {
    let text = metadata_of_a_text(&rt, Kind::Text, Field::Eight)?;
    same(&rt, text.as_str().ends_with(OF_A_TEXT), true);
    let told = read_metadata(rt.alloc(), text.as_str().as_bytes())?;
    let Some(event) = told.events.get(0) else {
        return Err(Fail::from("one event"));
    };
    let mut kinds = Vec::new(rt.alloc());
    for field in &event.fields {
        kinds.push((field.name, field.width, field.kind))?;
    }
    let wanted = [
        ("request", Field::Eight, Kind::Unsigned),
        ("sql", Field::Eight, Kind::Text),
        ("sql", Field::Eight, Kind::TextNext),
        ("code", Field::Eight, Kind::Unsigned),
    ];
    same(&rt, kinds.as_slice() == wanted.as_slice(), true);
    Ok(())
}

/// A next word with no text in front of it, and one that isn't of eight bytes.
#[test]
fn words_refused(rt: HostRuntime) {
    let wrong = MetadataFault::Name(NameFault::Word { epid: 1, place: 2 });
    let alone = metadata_of_a_text(&rt, Kind::Unsigned, Field::Eight).err();
    same(&rt, alone, Some(wrong));
    let narrow = metadata_of_a_text(&rt, Kind::Text, Field::Four).err();
    same(&rt, narrow, Some(wrong));
}
