//! Texts of metadata, by the format's description, and texts that are none.
use crate::same::same;
use dspec_ctf_reading::{
    ClockText, Expected, Field, FieldText, Kind, Label, Metadata, MetadataReadFault, ToldProcess,
    read_metadata,
};
use std::alloc::AllocError;
use std::process::Abort;
use std::test::Fail;

/// The text of a trace with a clock, whose process and clock are told, with two events.
pub const TIMED: &str =
    "/* CTF 1.8 */\n\ntypealias integer { size = 8; align = 8; signed = false; } := uint8_t;\ntypealias integer { size = 16; align = 8; signed = false; } := uint16_t;\ntypealias integer { size = 32; align = 8; signed = false; } := uint32_t;\ntypealias integer { size = 64; align = 8; signed = false; } := uint64_t;\n\ntrace {\n\tmajor = 1;\n\tminor = 8;\n\tuuid = \"00112233-4455-6677-8899-aabbccddeeff\";\n\tbyte_order = le;\n\tpacket.header := struct {\n\t\tuint32_t magic;\n\t\tuint8_t uuid[16];\n\t\tuint32_t stream_id;\n\t};\n};\n\nenv {\n\thostname = \"alder\";\n\tprocname = \"watch\";\n\tvpid = 4711;\n\ttracer_name = \"sidingyarrow\";\n};\n\nclock {\n\tname = stamp;\n\tfreq = 1000000000;\n\tuuid = \"ffeeddcc-bbaa-9988-7766-554433221100\";\n\toffset_s = 1700000000;\n\toffset = 25;\n\tabsolute = true;\n};\n\ntypealias integer { size = 64; align = 8; signed = false; map = clock.stamp.value; } := stamp_t;\n\nstream {\n\tid = 0;\n\tpacket.context := struct {\n\t\tstamp_t timestamp_begin;\n\t\tstamp_t timestamp_end;\n\t\tuint64_t content_size;\n\t\tuint64_t packet_size;\n\t\tuint64_t events_discarded;\n\t\tuint32_t cpu_id;\n\t};\n\tevent.header := struct {\n\t\tuint32_t id;\n\t\tstamp_t timestamp;\n\t};\n};\n\nevent {\n\tid = 1;\n\tname = \"open\";\n\tstream_id = 0;\n\tfields := struct {\n\t\tenum : uint8_t { \"ok\" = 0, \"failed\" = 1, } status;\n\t\tinteger { size = 32; align = 8; signed = true; } delta;\n\t\tfloating_point { exp_dig = 11; mant_dig = 53; align = 8; } load;\n\t};\n};\n\nevent {\n\tid = 2;\n\tname = \"epid_2\";\n\tstream_id = 0;\n\tfields := struct {\n\t};\n};\n";

/// The text of a trace without a clock, of which nothing more is told, with one event.
const TAKEN: &str =
    "/* CTF 1.8 */\n\ntypealias integer { size = 8; align = 8; signed = false; } := uint8_t;\ntypealias integer { size = 16; align = 8; signed = false; } := uint16_t;\ntypealias integer { size = 32; align = 8; signed = false; } := uint32_t;\ntypealias integer { size = 64; align = 8; signed = false; } := uint64_t;\n\ntrace {\n\tmajor = 1;\n\tminor = 8;\n\tuuid = \"00112233-4455-6677-8899-aabbccddeeff\";\n\tbyte_order = le;\n\tpacket.header := struct {\n\t\tuint32_t magic;\n\t\tuint8_t uuid[16];\n\t\tuint32_t stream_id;\n\t};\n};\n\nenv {\n\ttracer_name = \"sidingyarrow\";\n};\n\nstream {\n\tid = 0;\n\tpacket.context := struct {\n\t\tuint64_t content_size;\n\t\tuint64_t packet_size;\n\t\tuint64_t events_discarded;\n\t\tuint32_t cpu_id;\n\t};\n\tevent.header := struct {\n\t\tuint32_t id;\n\t};\n};\n\nevent {\n\tid = 1;\n\tname = \"state\";\n\tstream_id = 0;\n\tfields := struct {\n\t\tuint64_t stamp;\n\t\tuint8_t arg_0;\n\t\tuint16_t arg_1;\n\t};\n};\n";

/// One field of the first event.
fn field<'m, 't>(metadata: &'m Metadata<'t>, place: usize) -> Result<&'m FieldText<'t>, Fail> {
    let Some(event) = metadata.events.get(0) else {
        return Err(Fail::from(AllocError));
    };
    match event.fields.get(place) {
        Some(field) => Ok(field),
        None => Err(Fail::from(AllocError)),
    }
}

/// Compares a field of the first event with its name, its width, its kind and the number of its labels.
fn same_field(
    rt: &impl Abort,
    metadata: &Metadata<'_>,
    place: usize,
    wanted: (&str, Field, Kind, usize),
) -> Result<(), Fail> {
    let found = field(metadata, place)?;
    same(rt, found.name == wanted.0, true);
    same(rt, found.width, wanted.1);
    same(rt, found.kind, wanted.2);
    same(rt, found.labels.len(), wanted.3);
    Ok(())
}

#[test]
fn timed_text(rt: HostRuntime) -> Result<(), Fail> {
    let metadata = read_metadata(rt.alloc(), TIMED.as_bytes())?;
    same(&rt, metadata.uuid, "00112233-4455-6677-8899-aabbccddeeff");
    let process = ToldProcess {
        host: "alder",
        name: "watch",
        pid: 4711,
    };
    same(&rt, metadata.process, Some(process));
    let clock = ClockText {
        frequency: 1_000_000_000,
        uuid: Some("ffeeddcc-bbaa-9988-7766-554433221100"),
        start: Some((1_700_000_000, 25)),
    };
    same(&rt, metadata.clock, Some(clock));
    same(&rt, metadata.events.len(), 2);
    same_field(&rt, &metadata, 0, ("status", Field::One, Kind::Unsigned, 2))?;
    same_field(&rt, &metadata, 1, ("delta", Field::Four, Kind::Signed, 0))?;
    same_field(&rt, &metadata, 2, ("load", Field::Eight, Kind::Float, 0))
}

#[test]
fn events_and_labels(rt: HostRuntime) -> Result<(), Fail> {
    let metadata = read_metadata(rt.alloc(), TIMED.as_bytes())?;
    let labels = &field(&metadata, 0)?.labels;
    let failed = Label {
        text: "failed",
        number: 1,
    };
    same(&rt, labels.get(1).copied(), Some(failed));
    let Some(event) = metadata.events.get(1) else {
        return Err(Fail::from(AllocError));
    };
    same(&rt, event.id, 2);
    same(&rt, event.name, "epid_2");
    same(&rt, event.fields.len(), 0);
    Ok(())
}

#[test]
fn taken_text(rt: HostRuntime) -> Result<(), Fail> {
    let metadata = read_metadata(rt.alloc(), TAKEN.as_bytes())?;
    same(&rt, metadata.process, None);
    same(&rt, metadata.clock, None);
    same(&rt, metadata.events.len(), 1);
    let stamp = ("stamp", Field::Eight, Kind::Unsigned, 0);
    same_field(&rt, &metadata, 0, stamp)?;
    same_field(&rt, &metadata, 1, ("arg_0", Field::One, Kind::Unsigned, 0))?;
    same_field(&rt, &metadata, 2, ("arg_1", Field::Two, Kind::Unsigned, 0))
}

/// The text of a trace with a clock where this stands in place of that, once.
fn changed(rt: &impl AllocGlobal, old: &str, new: &str) -> Result<String, Fail> {
    let Some((front, back)) = TIMED.split_once(old) else {
        return Err(Fail::from(AllocError));
    };
    let text = format!(in rt.alloc(); "{front}{new}{back}")?;
    Ok(text)
}

/// What is refused of that text.
fn refused(
    rt: &(impl Abort + AllocGlobal),
    old: &str,
    new: &str,
    wanted: MetadataReadFault,
) -> Result<(), Fail> {
    let text = changed(rt, old, new)?;
    let found = read_metadata(rt.alloc(), text.as_bytes()).err();
    same(rt, found, Some(wanted));
    Ok(())
}

/// The same of a line in which something else is expected.
fn misread(
    rt: &(impl Abort + AllocGlobal),
    old: &str,
    new: &str,
    line: u64,
    expected: Expected,
) -> Result<(), Fail> {
    refused(rt, old, new, MetadataReadFault::Line { line, expected })
}

/// The same of each row.
fn all_misread(
    rt: &(impl Abort + AllocGlobal),
    rows: &[(&str, &str, u64, Expected)],
) -> Result<(), Fail> {
    for (old, new, line, expected) in rows {
        misread(rt, *old, *new, *line, *expected)?;
    }
    Ok(())
}

#[test]
fn other_headings(rt: HostRuntime) -> Result<(), Fail> {
    let trace = Expected::Text("\ntrace {\n\tmajor = 1;\n\tminor = 8;\n\tuuid = \"");
    let name = Expected::Text("\";\n\tprocname = \"");
    let rows = [
        ("size = 16;", "size = 17;", 4, Expected::Types),
        ("major = 1", "major = 2", 9, trace),
        (
            "00112233-4455-6677-8899-aabbccddeeff",
            "",
            11,
            Expected::Quoted,
        ),
        ("byte_order = le", "byte_order = be", 12, Expected::Header),
        ("procname", "program", 22, name),
        ("vpid = 4711", "vpid = none", 23, Expected::Number),
    ];
    all_misread(&rt, &rows)
}

#[test]
fn other_clocks(rt: HostRuntime) -> Result<(), Fail> {
    let tracer = Expected::Text("\ttracer_name = \"sidingyarrow\";\n};\n");
    let rows = [
        ("sidingyarrow", "another", 24, tracer),
        ("freq = 1000000000", "freq = ", 29, Expected::Number),
        ("offset = 25", "offset = ", 32, Expected::Number),
        (
            "stamp_t timestamp_b",
            "uint64_t timestamp_b",
            41,
            Expected::Stream,
        ),
    ];
    all_misread(&rt, &rows)
}

#[test]
fn other_types(rt: HostRuntime) -> Result<(), Fail> {
    let rows = [
        ("\"ok\" = 0", "\"\" = 0", 59, Expected::Quoted),
        ("\"ok\" = 0", "\"ok\" = no", 59, Expected::Number),
        (
            "32; align = 8; signed = true",
            "24; align = 8; signed = true",
            60,
            Expected::Type,
        ),
        ("enum : uint8_t", "enum : float", 59, Expected::Type),
    ];
    all_misread(&rt, &rows)
}

#[test]
fn other_names(rt: HostRuntime) -> Result<(), Fail> {
    let after_name = Expected::Text("\";\n\tstream_id = 0;\n\tfields := struct {\n");
    let rows = [
        (" delta", " -delta", 60, Expected::Name),
        (" delta", " del-ta", 60, Expected::Text(";\n")),
        ("\tid = 2", "\tid = two", 66, Expected::Number),
        ("epid_2", "epid\\2", 67, after_name),
        ("epid_2", "", 67, Expected::Quoted),
    ];
    all_misread(&rt, &rows)
}

#[test]
fn ends_of_texts(rt: HostRuntime) -> Result<(), Fail> {
    let end = "\tname = \"epid_2\";\n\tstream_id = 0;\n\tfields := struct {\n\t};\n};\n";
    let after_end = format!(in rt.alloc(); "{end}x")?;
    let event = Expected::Text("\nevent {\n\tid = ");
    misread(&rt, end, after_end.as_str(), 72, event)?;
    let cut = "\tname = \"epid_2\";\n\tstream_id = 0;\n\tfields := struct {\n\t};\n};";
    misread(&rt, end, cut, 70, Expected::Text("\t\t"))?;
    let found = read_metadata(rt.alloc(), b"").err();
    let (line, expected) = (1, Expected::Types);
    same(&rt, found, Some(MetadataReadFault::Line { line, expected }));
    Ok(())
}

#[test]
fn numbers_of_64_bits(rt: HostRuntime) -> Result<(), Fail> {
    let text = changed(&rt, "vpid = 4711", "vpid = 18446744073709551615")?;
    let metadata = read_metadata(rt.alloc(), text.as_bytes())?;
    let process = ToldProcess {
        host: "alder",
        name: "watch",
        pid: u64::MAX,
    };
    same(&rt, metadata.process, Some(process));
    let wanted = MetadataReadFault::TooLarge { line: 23 };
    refused(&rt, "vpid = 4711", "vpid = 18446744073709551616", wanted)?;
    let wanted = MetadataReadFault::TooLarge { line: 59 };
    let large = "\"failed\" = 99999999999999999999";
    refused(&rt, "\"failed\" = 1", large, wanted)
}

#[test]
fn faults_as_text(rt: HostRuntime) -> Result<(), Fail> {
    let (line, expected) = (60, Expected::Text(";\n"));
    let fault = MetadataReadFault::Line { line, expected };
    let text = format!(in rt.alloc(); "{fault}")?;
    same(&rt, text.as_str(), "line 60: expected \";\\n\"");
    let text = format!(in rt.alloc(); "{}", MetadataReadFault::TooLarge { line: 59 })?;
    same(&rt, text.as_str(), "line 59: a number of more than 64 bits");
    Ok(())
}
