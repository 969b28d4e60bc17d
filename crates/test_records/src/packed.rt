//! Records whose text their caller packed into words of eight bytes.
use crate::same::same;
use dspec_buffer::{ByteBuffer, TraceBuffer};
use dspec_record::{Enablings, Field, KnownHeader, Rec, Recorded, Schema, Stamped, Unstamped};
use std::alloc::Global;
use std::test::Fail;

/// The enabling of these fields as EPID 1, and of one byte as EPID 2.
fn enabled(fields: &[Field]) -> Result<Enablings, Fail> {
    let mut enablings = Enablings::new();
    enablings.enable(fields)?;
    enablings.enable(&[Field::One])?;
    Ok(enablings)
}

fn empty(alloc: Global) -> Result<ByteBuffer, Fail> {
    Ok(<ByteBuffer as TraceBuffer<Enablings>>::make(alloc, 128)?)
}

/// The record of these words, and a buffer that kept it; None where the claim isn't true.
fn put<H: KnownHeader>(
    alloc: Global,
    schema: &Enablings,
    claim: u64,
    stamp: u64,
    words: &[u64],
) -> Result<Option<(Rec, ByteBuffer)>, Fail> {
    let mut buffer = empty(alloc)?;
    let Some(packed) = schema.packed::<H>(claim, stamp, words) else {
        return Ok(None);
    };
    buffer.push_recorded(schema, &packed);
    let rec = &packed;
    Ok(Some((rec.to_rec(), buffer)))
}

#[test]
fn one_field(rt: HostRuntime) -> Result<(), Fail> {
    let schema = enabled(&[Field::Four])?;
    let claim = 4 << 32 | 1;
    let (rec, buffer) = put::<Unstamped>(rt.alloc(), &schema, claim, 0, &[5 << 32])?.ok_or(
        "a record",
    )?;
    same(&rt, rec, Rec::new(1, &[5]).ok_or("one value")?);
    same(&rt, buffer.bytes(), [1, 0, 0, 0, 5, 0, 0, 0].as_slice());
    let stamp = 7 << 32 | 9;
    let (rec, buffer) = put::<Stamped>(
        rt.alloc(),
        &schema.stamped(),
        claim,
        stamp,
        &[5 << 32],
    )?.ok_or("a record")?;
    same(&rt, rec, Rec::stamped(1, stamp, &[5]).ok_or("one value")?);
    let text = [1, 0, 0, 0, 9, 0, 0, 0, 7, 0, 0, 0, 5, 0, 0, 0];
    same(&rt, buffer.bytes(), text.as_slice());
    Ok(())
}

/// What stands in the EPID's place and between the fields counts for nothing.
#[test]
fn gaps(rt: HostRuntime) -> Result<(), Fail> {
    let schema = enabled(&[Field::One, Field::Four, Field::Eight])?;
    let claim = 0x841 << 32 | 1;
    let clean = [0xAB << 32, 0x0102_0304, 0x1122_3344_5566_7788];
    let full = [
        0xFFFF_FFAB_FFFF_FFFF,
        0xFFFF_FFFF_0102_0304,
        0x1122_3344_5566_7788,
    ];
    let values = [0xAB, 0x0102_0304, 0x1122_3344_5566_7788];
    let due = Rec::new(1, &values).ok_or("three values")?;
    let text = [
        1, 0, 0, 0, 0xAB, 0, 0, 0, 4, 3, 2, 1, 0, 0, 0, 0, 0x88, 0x77, 0x66, 0x55, 0x44, 0x33,
        0x22, 0x11,
    ];
    for words in [&clean, &full] {
        let (rec, buffer) = put::<Unstamped>(rt.alloc(), &schema, claim, 0, words)?.ok_or(
            "a record",
        )?;
        same(&rt, rec, due);
        same(&rt, buffer.bytes(), text.as_slice());
    }
    Ok(())
}

#[test]
fn nine_words(rt: HostRuntime) -> Result<(), Fail> {
    let schema = enabled(&[Field::Eight; 8])?;
    let words = [0, 1, 2, 3, 4, 5, 6, 7, u64::MAX];
    let claim = 0x8888_8888 << 32 | 1;
    let (rec, buffer) = put::<Unstamped>(rt.alloc(), &schema, claim, 0, &words)?.ok_or("a record")?;
    let values = [1, 2, 3, 4, 5, 6, 7, u64::MAX];
    same(&rt, rec.values(), values.as_slice());
    same(&rt, buffer.bytes().len(), 72);
    same(&rt, buffer.bytes().last(), Some(&0xFF));
    Ok(())
}

#[test]
fn refusals(rt: HostRuntime) -> Result<(), Fail> {
    let schema = enabled(&[Field::Four, Field::Four])?;
    let claim = 0x44 << 32 | 1;
    let two = [1 << 32, 2];
    assert!(rt; put::<Unstamped>(rt.alloc(), &schema, claim, 0, &two)?.is_some());
    // other fields, another EPID, none, one after the last, another word below the widths
    for other in [
        0x84 << 32 | 1,
        0x4 << 32 | 1,
        0x44 << 32 | 2,
        0x44 << 32,
        0x44 << 32 | 3,
        claim | 256,
        0,
    ] {
        assert!(rt; put::<Unstamped>(rt.alloc(), &schema, other, 0, &two)?.is_none());
    }
    assert!(rt; put::<Unstamped>(rt.alloc(), &schema, claim, 0, &[1 << 32])?.is_none());
    assert!(rt; put::<Unstamped>(rt.alloc(), &schema, claim, 0, &[1 << 32, 2, 3])?.is_none());
    assert!(rt; put::<Unstamped>(rt.alloc(), &schema, 0, 0, &[])?.is_none());
    // a stamp where records have none, and the other header
    assert!(rt; put::<Unstamped>(rt.alloc(), &schema, claim, 1, &two)?.is_none());
    assert!(rt; put::<Stamped>(rt.alloc(), &schema, claim, 1, &two)?.is_none());
    assert!(rt; put::<Unstamped>(rt.alloc(), &schema.stamped(), claim, 0, &two)?.is_none());
    Ok(())
}
