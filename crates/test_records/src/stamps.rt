//! Records with a stamp, by all three schemas, and texts that are upgraded to them.
use crate::buffers::{buffer, walks};
use crate::records::{put_whole, read};
use crate::same::same;
use dspec_buffer::{ByteBuffer, ListBuffer, ReadFault, TraceBuffer, UpgradeFault, upgrade};
use dspec_record::{
    BorrowedRec, DefaultAction, Enablings, Field, Header, ReadKind, Rec, Recorded, Schema, Shape,
    StampedAction, laws,
};
use dspec_samples::{PADDED_TEXT, fault, fault_of, four_enablings, is_read};
use std::process::Abort;
use std::test::Fail;

fn stamped(rt: &impl Abort, epid: u32, stamp: u64, values: &[u64]) -> Rec {
    Rec::stamped(epid, stamp, values).expect(rt, "at most eight values")
}

fn shape(size: u32, align: u32) -> Option<Shape> {
    Some(Shape { size, align })
}

#[test]
fn stamped_shapes(rt: HostRuntime) -> Result<(), Fail> {
    let enablings = four_enablings()?.stamped();
    let shapes = [shape(12, 4), shape(24, 8), shape(16, 4), shape(16, 4)];
    for (epid, wanted) in (1..5).zip(shapes) {
        same(&rt, enablings.shape(epid), wanted);
    }
    same(&rt, enablings.shape(5), None);
    let mut widest = Enablings::new();
    let epid = widest.enable(&[Field::Eight; 8])?;
    same(&rt, widest.stamped().shape(epid), shape(80, 8));
    same(&rt, StampedAction.shape(7), shape(12, 4));
    same(&rt, StampedAction.shape(0), None);
    Ok(())
}

const LONG: u64 = 0x0102_0304_0506_0708;

/// The text of 3(171, 4660) with that stamp.
const LONG_TEXT: [u8; 16] = [3, 0, 0, 0, 8, 7, 6, 5, 4, 3, 2, 1, 0xAB, 0, 0x34, 0x12];

#[test]
fn stamped_bytes(rt: HostRuntime) -> Result<(), Fail> {
    let plain = four_enablings()?;
    let enablings = plain.stamped();
    let headers = (plain.header(), enablings.header());
    same(&rt, headers, (Header::One, Header::Two));
    let rec = stamped(&rt, 3, LONG, &[171, 4660]);
    same(&rt, (rec.epid(), rec.stamp()), (3, LONG));
    let mut out = [0xFF; 16];
    assert!(rt; put_whole(&enablings, &rec, &mut out));
    same(&rt, out, LONG_TEXT);
    same(&rt, read(&enablings, &out), Ok((rec, 16)));
    let bare = stamped(&rt, 0x0D0C_0B0A, LONG, &[]);
    let mut out = [0xFF; 12];
    assert!(rt; put_whole(&StampedAction, &bare, &mut out));
    same(&rt, out, [10, 11, 12, 13, 8, 7, 6, 5, 4, 3, 2, 1]);
    same(&rt, read(&StampedAction, &out), Ok((bare, 12)));
    Ok(())
}

/// A record whose values stand elsewhere has the bytes of the one that holds them.
#[test]
fn borrowed_bytes(rt: HostRuntime) -> Result<(), Fail> {
    let enablings = four_enablings()?.stamped();
    let values = [171, 4660];
    let rec = BorrowedRec::of(3, LONG, &values).ok_or("two values")?;
    same(&rt, (rec.epid(), rec.stamp()), (3, LONG));
    same(&rt, rec.values(), Some(values.as_slice()));
    same(&rt, rec.to_rec(), stamped(&rt, 3, LONG, &[171, 4660]));
    let mut out = [0xFF; 16];
    assert!(rt; put_whole(&enablings, rec, &mut out));
    same(&rt, out, LONG_TEXT);
    // a schema that says nothing of such records has them copied
    let bare = BorrowedRec::of(3, LONG, &[]).ok_or("no value")?;
    let mut short = [0xFF; 12];
    assert!(rt; put_whole(&StampedAction, bare, &mut short));
    same(&rt, short, [3, 0, 0, 0, 8, 7, 6, 5, 4, 3, 2, 1]);
    assert!(rt; !DefaultAction.accepts_recorded(bare));
    // by its values, a record is one of the schema's or is none
    let known = enablings.borrowed(3, LONG, &values).ok_or("a known one")?;
    same(&rt, known.to_rec(), stamped(&rt, 3, LONG, &[171, 4660]));
    assert!(rt; enablings.borrowed(3, LONG, &[256, 4660]).is_none());
    assert!(rt; enablings.borrowed(3, LONG, &[171]).is_none());
    assert!(rt; StampedAction.borrowed(3, LONG, &[]).is_some());
    assert!(rt; StampedAction.borrowed(3, LONG, &[1]).is_none());
    assert!(rt; BorrowedRec::of(3, LONG, &[1; 8]).is_some());
    assert!(rt; BorrowedRec::of(3, LONG, &[1; 9]).is_none());
    Ok(())
}

/// Without a stamp in the header only stamp 0 is accepted; with one, any.
#[test]
fn stamps_accepted(rt: HostRuntime) -> Result<(), Fail> {
    let plain = four_enablings()?;
    let enablings = plain.stamped();
    let unstamped = Rec::new(4, &[5]).ok_or("one value")?;
    let late = stamped(&rt, 4, u64::MAX, &[5]);
    assert!(rt; plain.accepts(&unstamped) && !plain.accepts(&late));
    assert!(rt; enablings.accepts(&unstamped) && enablings.accepts(&late));
    assert!(rt; !enablings.accepts(&stamped(&rt, 4, 1, &[1 << 32])));
    assert!(rt; DefaultAction.accepts(&stamped(&rt, 9, 0, &[])));
    assert!(rt; !DefaultAction.accepts(&stamped(&rt, 9, 1, &[])));
    assert!(rt; StampedAction.accepts(&stamped(&rt, 9, 1, &[])));
    assert!(rt; !StampedAction.accepts(&stamped(&rt, 0, 1, &[])));
    assert!(rt; !StampedAction.accepts(&stamped(&rt, 9, 1, &[1])));
    same(&rt, Rec::stamped(1, 1, &[0; 9]), None);
    Ok(())
}

#[test]
fn stamped_get_faults(rt: HostRuntime) -> Result<(), Fail> {
    let enablings = four_enablings()?.stamped();
    let whole = [3, 0, 0, 0, 1, 2, 3, 4, 5, 6, 7, 8, 0xAB, 0, 0x34, 0x12];
    for length in 0..whole.len() {
        let cut = &whole[..length];
        same(&rt, read(&enablings, cut), Err(ReadKind::Truncated));
        if length < 12 {
            same(&rt, read(&StampedAction, cut), Err(ReadKind::Truncated));
        }
    }
    let mut gap = whole;
    gap[13] = 1;
    same(&rt, read(&enablings, &gap), Err(ReadKind::GapNotZero));
    let unknown = [9, 0, 0, 0, 1, 0, 0, 0];
    same(&rt, read(&enablings, &unknown), Err(ReadKind::UnknownEpid));
    let padding = [0, 0, 0, 0, 1, 0, 0, 0];
    same(&rt, read(&enablings, &padding), Err(ReadKind::Padding));
    same(&rt, read(&StampedAction, &padding), Err(ReadKind::Padding));
    let found = fault_of(&StampedAction, &[9, 0, 0, 0, 1, 0, 0, 0]);
    same(&rt, found, fault(ReadKind::Truncated, 0));
    Ok(())
}

const STAMPED_TEXT: [u8; 24] = [
    1, 0, 0, 0, 7, 0, 0, 0, 0, 0, 0, 0, 2, 0, 0, 0, 8, 0, 0, 0, 0, 0, 0, 0,
];

/// Two stamped records, and a third that doesn't fit.
fn trace_stamped<B: TraceBuffer<StampedAction>>(
    rt: &(impl Abort + AllocGlobal),
) -> Result<B, Fail> {
    let schema = StampedAction;
    let mut buffer: B = buffer(rt, &schema, 24)?;
    let kept = [stamped(rt, 1, 7, &[]), stamped(rt, 2, 8, &[])];
    for (rec, is_kept) in [
        (kept[0], true),
        (kept[1], true),
        (stamped(rt, 3, 0, &[]), false),
    ] {
        assert!(rt; schema.accepts(&rec));
        same(rt, buffer.push(&schema, &rec), is_kept);
    }
    same(rt, (buffer.offset(), buffer.count()), (24, 2));
    assert!(rt; walks(&schema, &buffer, &kept));
    Ok(buffer)
}

#[test]
fn stamped_traces(rt: HostRuntime) -> Result<(), Fail> {
    let bytes: ByteBuffer = trace_stamped(&rt)?;
    same(&rt, bytes.bytes(), STAMPED_TEXT.as_slice());
    let kept = [stamped(&rt, 1, 7, &[]), stamped(&rt, 2, 8, &[])];
    assert!(rt; is_read(&StampedAction, bytes.bytes(), &kept));
    let _list: ListBuffer = trace_stamped(&rt)?;
    Ok(())
}

/// What upgrading this text with stamp 5 into an empty buffer of this size answers, and the buffer.
fn upgraded(
    rt: &(impl Abort + AllocGlobal),
    text: &[u8],
    size: u32,
) -> Result<(Result<u32, UpgradeFault>, ByteBuffer), Fail> {
    let old = four_enablings()?;
    assert!(rt; old.header() == Header::One);
    assert!(rt; size % 8 == 0 && size >= 8 && size <= 1_048_576);
    let mut to = <ByteBuffer as TraceBuffer<Enablings>>::make(rt.alloc(), size)?;
    let answer = upgrade(&old, text, 5, &mut to);
    Ok((answer, to))
}

const UPGRADED_TEXT: [u8; 56] = [
    1, 0, 0, 0, 5, 0, 0, 0, 0, 0, 0, 0, 0, 0, 0, 0, 2, 0, 0, 0, 5, 0, 0, 0, 0, 0, 0, 0, 0, 0, 0, 0,
    7, 0, 0, 0, 0, 0, 0, 0, 4, 0, 0, 0, 5, 0, 0, 0, 0, 0, 0, 0, 9, 0, 0, 0,
];

#[test]
fn upgraded_texts(rt: HostRuntime) -> Result<(), Fail> {
    let (answer, to) = upgraded(&rt, &PADDED_TEXT, 56)?;
    same(&rt, answer, Ok(3));
    same(&rt, (to.offset(), to.count()), (56, 3));
    same(&rt, to.bytes(), UPGRADED_TEXT.as_slice());
    let wanted = [
        stamped(&rt, 1, 5, &[]),
        stamped(&rt, 2, 5, &[7]),
        stamped(&rt, 4, 5, &[9]),
    ];
    assert!(rt; is_read(&four_enablings()?.stamped(), to.bytes(), &wanted));
    for (size, number) in [(48, 2), (32, 1), (8, 0)] {
        let (answer, to) = upgraded(&rt, &PADDED_TEXT, size)?;
        same(&rt, answer, Err(UpgradeFault::Full(number)));
        same(&rt, (to.offset(), to.count()), (0, 0));
        assert!(rt; to.is_empty());
    }
    let (answer, to) = upgraded(&rt, &[], 8)?;
    same(&rt, (answer, to.offset()), (Ok(0), 0));
    Ok(())
}

/// What can't be read is told, also where a record before it would not fit.
#[test]
fn upgrade_read_faults(rt: HostRuntime) -> Result<(), Fail> {
    let mut late = PADDED_TEXT;
    late[24] = 9;
    let texts = [
        ([1, 0, 0].as_slice(), ReadKind::Truncated, 0),
        (late.as_slice(), ReadKind::UnknownEpid, 24),
        (&STAMPED_TEXT, ReadKind::UnknownEpid, 4),
    ];
    for (text, kind, at) in texts {
        for size in [8, 64] {
            let (answer, to) = upgraded(&rt, text, size)?;
            let fault = ReadFault { kind, at };
            same(&rt, answer, Err(UpgradeFault::Read(fault)));
            same(&rt, (to.offset(), to.count()), (0, 0));
        }
    }
    Ok(())
}

#[test]
fn laws_of_stamped_schemas(_rt: HostRuntime) -> Result<(), Fail> {
    laws::reads_back(&four_enablings()?.stamped());
    laws::reads_back(&StampedAction);
    Ok(())
}
