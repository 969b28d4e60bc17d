//! Records, their bytes, and what reading them answers.
use crate::same::same;
use dspec_record::{
    DefaultAction, Enablings, Field, ReadKind, Rec, Recorded, Schema, SchemaFault, Shape, laws,
};
use dspec_samples::four_enablings;
use std::test::Fail;

/// How many bytes the longest text has that a buffer can reserve.
const LONGEST: usize = 128;

/// Writes the record into a slice that fits it; whether it did.
pub fn put_whole<S: Schema, R: Recorded>(schema: &S, rec: R, out: &mut [u8]) -> bool {
    if !schema.accepts_recorded(rec) {
        return false;
    }
    let size = schema.shape_recorded(rec).size as usize;
    if size != out.len() || size > LONGEST {
        return false;
    }
    let mut room = [0xFF; LONGEST + 8];
    schema.put_recorded(rec, &mut room);
    out.copy_from_slice(&room[..size]);
    true
}

#[test]
fn record_bytes(rt: HostRuntime) -> Result<(), Fail> {
    let enablings = four_enablings()?;
    let rec = Rec::new(3, &[171, 4660]).ok_or("two values")?;
    same(&rt, rec.epid(), 3);
    same(&rt, rec.values(), [171, 4660].as_slice());
    let mut out = [0xFF; 8];
    assert!(rt; put_whole(&enablings, &rec, &mut out));
    same(&rt, out, [0x03, 0, 0, 0, 0xAB, 0, 0x34, 0x12]);
    let wide = Rec::new(3, &[300, 1]).ok_or("two values")?;
    assert!(rt; !put_whole(&enablings, &wide, &mut out));
    let mut word = [0xFF; 4];
    let bare = Rec::new(0x0102_0304, &[]).ok_or("no value")?;
    assert!(rt; put_whole(&DefaultAction, &bare, &mut word));
    same(&rt, word, [4, 3, 2, 1]);
    Ok(())
}

/// The shape of the one enabling with these fields.
fn shape_of_fields(fields: &[Field]) -> Result<Option<Shape>, SchemaFault> {
    let mut enablings = Enablings::new();
    let epid = enablings.enable(fields)?;
    Ok(enablings.shape(epid))
}

#[test]
fn shapes(rt: HostRuntime) -> Result<(), Fail> {
    let all = [Field::One, Field::Two, Field::Four, Field::Eight];
    for (fields, size, align) in [
        ([].as_slice(), 4, 4),
        (&[Field::One], 8, 4),
        (&[Field::Two, Field::One], 8, 4),
        (&[Field::Eight, Field::One], 20, 8),
        (&all, 24, 8),
        (&[Field::Eight; 8], 72, 8),
    ] {
        same(&rt, shape_of_fields(fields)?, Some(Shape { size, align }));
    }
    let four = Shape { size: 4, align: 4 };
    same(&rt, DefaultAction.shape(7), Some(four));
    same(&rt, DefaultAction.shape(0), None);
    Ok(())
}

#[test]
fn enabling_limits(rt: HostRuntime) -> Result<(), Fail> {
    let nine = [Field::One; 9];
    let mut enablings = Enablings::new();
    let (fields, more) = (SchemaFault::TooManyFields, SchemaFault::TooManyEnablings);
    same(&rt, enablings.enable(&nine), Err(fields));
    for epid in 1..65 {
        same(&rt, enablings.enable(&[Field::One]), Ok(epid));
    }
    same(&rt, enablings.enable(&nine), Err(fields));
    same(&rt, enablings.enable(&[Field::One]), Err(more));
    same(&rt, enablings.shape(64), Some(Shape { size: 8, align: 4 }));
    same(&rt, enablings.shape(65), None);
    same(&rt, Rec::new(1, &[0; 9]), None);
    Ok(())
}

/// How many enablings there are, what the fields of each are, and how wide.
#[test]
fn fields_of_enablings(rt: HostRuntime) -> Result<(), Fail> {
    let enablings = four_enablings()?;
    same(&rt, enablings.count(), 4);
    same(&rt, Enablings::new().count(), 0);
    same(&rt, enablings.fields(0), None);
    same(&rt, enablings.fields(1), Some([].as_slice()));
    let third = [Field::One, Field::Two];
    same(&rt, enablings.fields(3), Some(third.as_slice()));
    same(&rt, enablings.fields(5), None);
    let all = [Field::One, Field::Two, Field::Four, Field::Eight];
    same(&rt, all.map(Field::width), [1, 2, 4, 8]);
    Ok(())
}

/// What the schema reads at the front of the bytes.
pub fn read<S: Schema>(schema: &S, bytes: &[u8]) -> Result<(Rec, usize), ReadKind> {
    schema.get(bytes)
}

#[test]
fn get_faults(rt: HostRuntime) -> Result<(), Fail> {
    let enablings = four_enablings()?;
    let rec = Rec::new(3, &[171, 4660]).ok_or("two values")?;
    let followed = [3, 0, 0, 0, 0xAB, 0, 0x34, 0x12, 0xFF];
    same(&rt, read(&enablings, &followed), Ok((rec, 8)));
    for (bytes, kind) in [
        ([3, 0, 0, 0, 0xAB].as_slice(), ReadKind::Truncated),
        (&[0, 0, 0, 0, 1, 0, 0, 0], ReadKind::Padding),
        (&[9, 0, 0, 0], ReadKind::UnknownEpid),
        (&[3, 0, 0, 0, 0xAB, 1, 0x34, 0x12], ReadKind::GapNotZero),
    ] {
        same(&rt, read(&enablings, bytes), Err(kind));
    }
    let bare = Rec::new(7, &[]).ok_or("no value")?;
    same(&rt, read(&DefaultAction, &[7, 0, 0, 0, 1]), Ok((bare, 4)));
    same(&rt, read(&DefaultAction, &[7, 0]), Err(ReadKind::Truncated));
    Ok(())
}

#[test]
fn laws_of_both_schemas(_rt: HostRuntime) -> Result<(), Fail> {
    laws::reads_back(&four_enablings()?);
    laws::reads_back(&DefaultAction);
    Ok(())
}
