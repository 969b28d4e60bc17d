//! What happened, by time, in words and in Chrome's Trace Event form.
use super::samples::{FILE, field, metadata};
use crate::same::same;
use dspec_ctf_reading::folder::{
    Base, Track, What, chrome_event, chrome_missed, chrome_name, event_text, marks_of, missed_text,
    sort_by_time,
};
use dspec_ctf_reading::{EventText, Field, Kind};
use std::test::Fail;

/// The row of all events here.
const TRACK: Track = Track {
    process: 1,
    number: 2,
};

#[test]
fn merged(rt: HostRuntime) -> Result<(), Fail> {
    let alloc = rt.alloc();
    let metadata = metadata(alloc)?;
    let mut marks = Vec::new(alloc);
    let first = marks_of(alloc, &metadata, Base::Clock, 0, &FILE[83..], &mut marks)?;
    let second = marks_of(alloc, &metadata, Base::Clock, 1, &FILE[..84], &mut marks)?;
    let faults = (first.is_none(), second.map(|fault| fault.at));
    same(&rt, faults, (true, Some(83)));
    sort_by_time(&mut marks)?;
    let mut told = Vec::new(alloc);
    for mark in &marks {
        told.push((mark.time, mark.file, matches!(&mark.what, What::Missed(4))))?;
    }
    let wanted = [
        (5u128, 0usize, false),
        (5, 1, false),
        (9, 0, false),
        (9, 0, true),
    ];
    same(&rt, told.as_slice() == wanted.as_slice(), true);
    Ok(())
}

#[test]
fn lines(rt: HostRuntime) -> Result<(), Fail> {
    let alloc = rt.alloc();
    let metadata = metadata(alloc)?;
    let event = metadata.events.first().expect(&rt, "the event");
    for (values, wanted) in [
        ([1, 65_534], "step status=\"not found\"(1) delta=-2"),
        ([2, 7], "step status=2 delta=7"),
    ] {
        same(&rt, event_text(alloc, event, &values)?.as_str(), wanted);
    }
    same(&rt, missed_text(alloc, 4)?.as_str(), "(4 missed)");
    Ok(())
}

/// A text of two words between two numbers: quotes, a line's end, a character of two bytes, and one byte that is no UTF-8.
#[test]
fn texts(rt: HostRuntime) -> Result<(), Fail> {
    let alloc = rt.alloc();
    let mut fields = Vec::new(alloc);
    for (name, kind) in [
        ("request", Kind::Unsigned),
        ("sql", Kind::Text),
        ("sql", Kind::TextNext),
        ("code", Kind::Signed),
    ] {
        fields.push(field(alloc, name, Field::Eight, kind))?;
    }
    let step = EventText {
        id: 1,
        name: "step",
        fields,
    };
    let low = u64::from_le_bytes(*b"say \"a\"\n");
    let high = u64::from_le_bytes(*b"\xc3\xa9\xff\\\0\0\0\0");
    let values = [7, low, high, 3];
    let wanted = "step request=7 sql=\"say \\\"a\\\"\\x0a\u{e9}\\xff\\\\\" code=3";
    same(&rt, event_text(alloc, &step, &values)?.as_str(), wanted);
    let event = chrome_event(alloc, TRACK, &step, 7, &values)?;
    let wanted =
        "{\"ph\":\"i\",\"s\":\"t\",\"pid\":1,\"tid\":2,\"ts\":0.007,\"name\":\"step\",\"args\":{\"request\":7,\"sql\":\"say \\\"a\\\"\\n\u{e9}\\\\xff\\\\\",\"code\":3}}";
    same(&rt, event.as_str(), wanted);
    Ok(())
}

#[test]
fn chrome(rt: HostRuntime) -> Result<(), Fail> {
    let alloc = rt.alloc();
    let metadata = metadata(alloc)?;
    let step = metadata.events.first().expect(&rt, "the event");
    let event = chrome_event(alloc, TRACK, step, 1_002_003, &[1, 65_534])?;
    let wanted =
        "{\"ph\":\"i\",\"s\":\"t\",\"pid\":1,\"tid\":2,\"ts\":1002.003,\"name\":\"step\",\"args\":{\"status\":\"not found\",\"delta\":-2}}";
    same(&rt, event.as_str(), wanted);
    let wanted =
        "{\"ph\":\"i\",\"s\":\"t\",\"pid\":1,\"tid\":2,\"ts\":0.007,\"name\":\"events missed\",\"args\":{\"missed\":\"9007199254740992\"}}";
    let text = chrome_missed(alloc, TRACK, 7, 1 << 53)?;
    same(&rt, text.as_str(), wanted);
    let wanted =
        "{\"ph\":\"M\",\"pid\":1,\"tid\":2,\"name\":\"process_name\",\"args\":{\"name\":\"a\\\"b\\\\c\\n\"}}";
    let text = chrome_name(alloc, TRACK, "process_name", "a\"b\\c\n")?;
    same(&rt, text.as_str(), wanted);
    Ok(())
}

/// Infinite floats, of eight bytes and of four, below and above.
#[test]
fn chrome_infinities(rt: HostRuntime) -> Result<(), Fail> {
    let alloc = rt.alloc();
    let mut fields = Vec::new(alloc);
    for (name, width) in [
        ("a", Field::Eight),
        ("b", Field::Eight),
        ("c", Field::Four),
        ("d", Field::Four),
    ] {
        fields.push(field(alloc, name, width, Kind::Float))?;
    }
    let step = EventText {
        id: 1,
        name: "step",
        fields,
    };
    let values = [
        0xFFF0_0000_0000_0000,
        0x7FF0_0000_0000_0000,
        0xFF80_0000,
        0x7F80_0000,
    ];
    let event = chrome_event(alloc, TRACK, &step, 7, &values)?;
    let wanted =
        "{\"ph\":\"i\",\"s\":\"t\",\"pid\":1,\"tid\":2,\"ts\":0.007,\"name\":\"step\",\"args\":{\"a\":\"-inf\",\"b\":\"inf\",\"c\":\"-inf\",\"d\":\"inf\"}}";
    same(&rt, event.as_str(), wanted);
    Ok(())
}
