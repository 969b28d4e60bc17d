//! What values and faults print.
use crate::buffers::buffer;
use crate::same::same;
use dspec_buffer::{ByteBuffer, ListBuffer, ReadFault, TraceBuffer, UpgradeFault, read_all};
use dspec_deeds::Report;
use dspec_record::{Enablings, ReadKind, Rec, SchemaFault, StampedAction};
use dspec_samples::four_enablings;
use dspec_word::SpecId;
use std::collections::HashSet;
use std::fmt::Display;
use std::process::Abort;
use std::test::Fail;

/// Whether the value prints this text.
fn prints<T: Display + Drop>(
    rt: &(impl Abort + AllocGlobal),
    value: T,
    wanted: &str,
) -> Result<bool, Fail> {
    let text = format!(in rt.alloc(); "{value}")?;
    Ok(text.as_str() == wanted)
}

#[test]
fn printed_records(rt: HostRuntime) -> Result<(), Fail> {
    let bare = Rec::new(7, &[]).ok_or("no value")?;
    assert!(rt; prints(&rt, bare, "7")?);
    let valued = Rec::new(3, &[171, 4660]).ok_or("two values")?;
    assert!(rt; prints(&rt, valued, "3(171,4660)")?);
    let stamped = Rec::stamped(4, 9, &[5]).ok_or("one value")?;
    assert!(rt; prints(&rt, stamped, "4@9(5)")?);
    assert!(rt; prints(&rt, SpecId::from_raw(65), "65")?);
    Ok(())
}

#[test]
fn printed_report(rt: HostRuntime) -> Result<(), Fail> {
    let report = Report {
        offered: 1,
        accepted: 2,
        dropped: 3,
        specdropped: 4,
        lost: 5,
        discarded: 6,
        void: 7,
        held: 8,
        drops: 9,
        unavailable: 10,
        busy: 11,
        stopped: 12,
        worn: 13,
    };
    let wanted =
        "offered 1 accepted 2 dropped 3 specdropped 4 lost 5 discarded 6 void 7 held 8 drops 9 unavailable 10 busy 11 stopped 12 worn 13";
    assert!(rt; prints(&rt, report, wanted)?);
    Ok(())
}

#[test]
fn printed_faults(rt: HostRuntime) -> Result<(), Fail> {
    let fault = ReadFault {
        kind: ReadKind::GapNotZero,
        at: 8,
    };
    assert!(rt; prints(&rt, fault, "gap not zero at byte 8")?);
    assert!(rt; prints(&rt, UpgradeFault::Read(fault), "gap not zero at byte 8")?);
    assert!(rt; prints(&rt, UpgradeFault::Full(2), "no room for record 2")?);
    assert!(rt; prints(&rt, SchemaFault::TooManyFields, "too many fields")?);
    assert!(rt; prints(&rt, SchemaFault::TooManyEnablings, "too many enablings")?);
    let kinds = [
        (ReadKind::Truncated, "truncated"),
        (ReadKind::UnknownEpid, "unknown EPID"),
        (ReadKind::Misaligned, "misaligned"),
        (ReadKind::Padding, "padding in place of a record"),
    ];
    for (kind, wanted) in kinds {
        assert!(rt; prints(&rt, kind, wanted)?);
    }
    Ok(())
}

#[test]
fn shown_buffers(rt: HostRuntime) -> Result<(), Fail> {
    let rec = Rec::new(7, &[]).ok_or("no value")?;
    let mut bytes: ByteBuffer = buffer(&rt, &StampedAction, 24)?;
    assert!(rt; bytes.push(&StampedAction, &Rec::stamped(7, 1, &[]).ok_or("no value")?));
    let text = format!(in rt.alloc(); "{bytes:?}")?;
    let wanted = "ByteBuffer { count: 1, offset: 12, size: 24 }";
    same(&rt, text.as_str(), wanted);
    let list: ListBuffer = buffer(&rt, &StampedAction, 24)?;
    let text = format!(in rt.alloc(); "{list:?}")?;
    let wanted = "ListBuffer { count: 0, offset: 0, size: 24 }";
    same(&rt, text.as_str(), wanted);
    let Ok(records) = read_all(&StampedAction, bytes.bytes()) else {
        return Err("a text".into());
    };
    let text = format!(in rt.alloc(); "{records:?}")?;
    same(&rt, text.as_str(), "Records { place: 0, length: 12 }");
    let mut seen = HashSet::new(rt.alloc());
    assert!(rt; seen.insert(rec)? && !seen.insert(rec)?);
    Ok(())
}

#[test]
fn compared_enablings(rt: HostRuntime) -> Result<(), Fail> {
    let four = four_enablings()?;
    assert!(rt; four == four_enablings()? && four != four.stamped());
    assert!(rt; Enablings::default() == Enablings::new() && four != Enablings::default());
    Ok(())
}
