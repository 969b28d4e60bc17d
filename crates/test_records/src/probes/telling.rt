//! Records as text, by the declarations of their probes.
use crate::same::same;
use dspec_probe::{Meaning, Probe, Probes, Text};
use dspec_record::Rec;
use std::test::Fail;

#[test]
fn record_is_told(rt: HostRuntime) -> Result<(), Fail> {
    let alloc = rt.alloc();
    let mut probes = Probes::new(alloc);
    let begin: Probe<(u32, u8)> = probes.probe("begin", &["request", "number"])?;
    let end: Probe<(u32, bool, u64)> = probes.probe("end", &["request", "done", "micros"])?;
    let rec = end.rec(1500, (0, false, 11857));
    let Some(told) = probes.tell(&rec) else {
        return Err("a record of no probe".into());
    };
    let text = told.to_string(alloc)?;
    same(&rt, text.as_str(), "end request=0 done=false micros=11857");
    same(&rt, told.count(), 3);
    let done = told.field(1);
    assert!(rt; matches!(done.meaning, Meaning::Truth(false)));
    let done = done.to_string(alloc)?;
    same(&rt, done.as_str(), " done=false");
    let Some(told) = probes.tell(&begin.rec(1500, (7, 1))) else {
        return Err("a record of no probe".into());
    };
    let text = told.to_string(alloc)?;
    same(&rt, text.as_str(), "begin request=7 number=1");
    Ok(())
}

#[test]
fn values_are_told_by_their_kinds(rt: HostRuntime) -> Result<(), Fail> {
    let alloc = rt.alloc();
    let mut probes = Probes::unstamped(alloc);
    let names = &["small", "signed", "wide", "is", "short", "long"];
    let all: Probe<(i8, i16, i64, bool, f32, f64)> = probes.probe("all", names)?;
    let labels: &[&[&str]] = &[&["get", "put"], &[], &["no", "yes"]];
    let named: Probe<(u8, i32, bool)> = probes.probe_labelled(
        "named",
        &["operation", "by", "is"],
        labels,
    )?;
    let rec = all.rec(0, (-1, -300, i64::MIN, true, 0.5, -2.0));
    let Some(told) = probes.tell(&rec) else {
        return Err("a record of no probe".into());
    };
    let wanted = "all small=-1 signed=-300 wide=-9223372036854775808 is=true short=0.5 long=-2";
    same(&rt, told.to_string(alloc)?.as_str(), wanted);
    for (values, line) in [
        ((1, -3, true), "named operation=put by=-3 is=yes"),
        ((2, 3, false), "named operation=2 by=3 is=no"),
    ] {
        let Some(told) = probes.tell(&named.rec(0, values)) else {
            return Err("a record of no probe".into());
        };
        same(&rt, told.to_string(alloc)?.as_str(), line);
    }
    Ok(())
}

#[test]
fn texts_are_told_between_quotes(rt: HostRuntime) -> Result<(), Fail> {
    let alloc = rt.alloc();
    let mut probes = Probes::unstamped(alloc);
    let query: Probe<(u64, Text<4>, u8)> = probes.probe("query", &["request", "sql", "by"])?;
    let texts: [(Text<4>, &str); 6] = [
        (Text::of("select 1"), "select 1"),
        (Text::of(""), ""),
        (Text::of("a \"b\" \\"), "a \\\"b\\\" \\\\"),
        (Text::of("a\nb"), "a\\x0ab"),
        (Text::of("gr\u{fc}n \u{20ac}"), "gr\u{fc}n \u{20ac}"),
        (Text::of_bytes(&[b'a', 0xff, 0xc3]), "a\\xff\\xc3"),
    ];
    for (text, shown) in texts {
        let Some(told) = probes.tell(&query.rec(0, (7, text, 3))) else {
            return Err("a record of no probe".into());
        };
        let line = format!(in alloc; "query request=7 sql=\"{shown}\" by=3")?;
        same(&rt, told.to_string(alloc)?.as_str(), line.as_str());
    }
    Ok(())
}

#[test]
fn record_of_no_probe_is_not_told(rt: HostRuntime) -> Result<(), Fail> {
    let mut probes = Probes::unstamped(rt.alloc());
    let _: Probe<(u8,)> = probes.probe("one", &["value"])?;
    for (epid, values) in [(0, [7].as_slice()), (2, [7].as_slice()), (1, [].as_slice())] {
        let Some(rec) = Rec::new(epid, values) else {
            return Err("no record".into());
        };
        assert!(rt; probes.tell(&rec).is_none());
    }
    Ok(())
}
