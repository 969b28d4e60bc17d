//! Texts as fields of records.
use crate::same::same;
use dspec_probe::{Fields, Kind, Probe, ProbeFault, Probes, Text, next_words, text_bytes};
use dspec_record::Field;
use std::alloc::{AllocError, Global};
use std::process::Abort;
use std::test::Fail;

/// The bytes of these as a text of two words.
fn kept(alloc: Global, bytes: &[u8]) -> Result<(Vec<u8>, bool), AllocError> {
    let text: Text<2> = Text::of_bytes(bytes);
    Ok((text.bytes(alloc)?, text.whole()))
}

/// Whether two words keep these bytes so, and say so of the cut.
fn keeps(
    rt: &impl Abort,
    alloc: Global,
    bytes: &[u8],
    wanted: (&[u8], bool),
) -> Result<(), AllocError> {
    let (found, whole) = kept(alloc, bytes)?;
    same(rt, found.as_slice() == wanted.0, true);
    same(rt, whole, wanted.1);
    Ok(())
}

#[test]
fn texts_that_have_room(rt: HostRuntime) -> Result<(), Fail> {
    for (bytes, wanted, is_whole) in [
        (b"".as_slice(), b"".as_slice(), true),
        (b"select \"a\"\n", b"select \"a\"\n", true),
        (b"fifteen bytes..", b"fifteen bytes..", true),
        (b"sixteen bytes...", b"sixteen bytes...", false),
        (b"up to\0the zero", b"up to", true),
    ] {
        keeps(&rt, rt.alloc(), bytes, (wanted, is_whole))?;
    }
    Ok(())
}

/// Characters of three bytes, the last of which is cut in its middle; bytes that are no UTF-8.
#[test]
fn texts_that_are_cut(rt: HostRuntime) -> Result<(), Fail> {
    let alloc = rt.alloc();
    let wanted = (b"seventeen bytes.".as_slice(), false);
    keeps(&rt, alloc, b"seventeen bytes..", wanted)?;
    let euros = "1234567\u{20ac}\u{20ac}\u{20ac}\u{20ac}";
    let wanted = "1234567\u{20ac}\u{20ac}\u{20ac}";
    keeps(&rt, alloc, euros.as_bytes(), (wanted.as_bytes(), false))?;
    let later = "12345678\u{20ac}\u{20ac}\u{20ac}";
    let wanted = "12345678\u{20ac}\u{20ac}..";
    keeps(&rt, alloc, later.as_bytes(), (wanted.as_bytes(), false))?;
    keeps(&rt, alloc, &[0x80; 20], (&[0x80; 16], false))?;
    assert!(rt; Text::<2>::of(later) == Text::of_bytes(later.as_bytes()));
    Ok(())
}

#[test]
fn words_of_a_text(rt: HostRuntime) -> Result<(), Fail> {
    let text: Text<2> = Text::of("abcdefghi");
    let wanted = [0x6867_6665_6463_6261, 0x69];
    same(&rt, text.words(), wanted.as_slice());
    let bytes = text_bytes(rt.alloc(), &wanted)?;
    same(&rt, bytes.as_slice() == b"abcdefghi".as_slice(), true);
    Ok(())
}

/// A record with a text between two numbers, and back.
#[test]
fn record_with_a_text(rt: HostRuntime) -> Result<(), Fail> {
    let mut probes = Probes::new(rt.alloc());
    let query: Probe<(u64, Text<2>, u8)> = probes.probe("query", &["request", "sql", "code"])?;
    let values = (7, Text::of("select"), 3);
    let rec = query.rec(5, values);
    let wanted = [7, 0x7463_656c_6573, 0, 3];
    same(&rt, rec.values(), wanted.as_slice());
    same(&rt, query.read(&rec) == Some(values), true);
    let fields = <(u64, Text<2>, u8)>::fields();
    let wanted = [Field::Eight, Field::Eight, Field::Eight, Field::One];
    same(&rt, fields.as_slice(), wanted.as_slice());
    let [names] = probes.names() else {
        return Err(Fail::from("one probe"));
    };
    same(&rt, names.fields.len(), 3);
    same(&rt, names.kinds[1], Kind::Text);
    same(&rt, names.kinds[2], Kind::TextNext);
    same(&rt, next_words(&names.kinds), 1);
    Ok(())
}

/// A text has one name.
#[test]
fn names_of_a_text(rt: HostRuntime) -> Result<(), Fail> {
    let mut probes = Probes::new(rt.alloc());
    let many = probes.probe::<(Text<2>,)>("query", &["sql", "more"]).err();
    same(&rt, many, Some(ProbeFault::FieldCount));
    let _: Probe<(Text<6>, Text<2>)> = probes.probe("query", &["sql", "table"])?;
    Ok(())
}
