//! Records of probes: what they stand for, their bytes, and their values again.
use crate::same::same;
use dspec_probe::{Probe, Probes};
use dspec_record::{Rec, Schema};
use std::test::Fail;

type Eight = (u8, i16, u32, i64, bool, f32, f64, u16);

#[test]
fn record_of_eight_values(rt: HostRuntime) -> Result<(), Fail> {
    let names = ["a", "b", "c", "d", "e", "f", "g", "h"];
    let mut probes = Probes::new(rt.alloc());
    let probe: Probe<Eight> = probes.probe("eight", &names)?;
    let values = (1, -2, 3, -4, true, 0.5, -1.5, 8);
    let rec = probe.rec(77, values);
    let numbers = [
        1,
        0xfffe,
        3,
        0xffff_ffff_ffff_fffc,
        1,
        0x3f00_0000,
        0xbff8_0000_0000_0000,
        8,
    ];
    same(&rt, Some(rec), Rec::stamped(1, 77, &numbers));
    assert!(rt; probe.read(&rec) == Some(values));
    assert!(rt; probes.enablings().accepts(&rec));
    Ok(())
}

/// The bytes are those of the record by its numbers: each value at a multiple of its width, the stamp after the EPID.
#[test]
fn bytes_of_a_record(rt: HostRuntime) -> Result<(), Fail> {
    let mut probes = Probes::new(rt.alloc());
    let probe: Probe<(i8, u16, f32)> = probes.probe("three", &["a", "b", "c"])?;
    let schema = probes.enablings();
    assert!(rt; probe.is_of(&schema));
    let rec = probe.rec(0x0102_0304_0506_0708, (-1, 0x1234, 1.0));
    let mut out = [0xff; 20];
    if schema.accepts(&rec) {
        let size = schema.shape_recorded(&rec).size;
        same(&rt, size, 20);
        schema.put(&rec, &mut out);
    }
    let wanted = [
        1, 0, 0, 0, 8, 7, 6, 5, 4, 3, 2, 1, 0xff, 0, 0x34, 0x12, 0, 0, 0x80, 0x3f,
    ];
    same(&rt, out, wanted);
    Ok(())
}

#[test]
fn records_of_another_probe(rt: HostRuntime) -> Result<(), Fail> {
    let mut probes = Probes::new(rt.alloc());
    let first: Probe<(u64,)> = probes.probe("first", &["a"])?;
    let second: Probe<(u64,)> = probes.probe("second", &["a"])?;
    let rec = first.rec(1, (7,));
    assert!(rt; first.read(&rec) == Some((7,)));
    assert!(rt; second.read(&rec).is_none());
    Ok(())
}

/// A record that no probe made: too many values, too few, one too wide, one that is no truth value.
#[test]
fn records_that_stand_for_nothing(rt: HostRuntime) -> Result<(), Fail> {
    let mut probes = Probes::new(rt.alloc());
    let probe: Probe<(u8, bool)> = probes.probe("two", &["a", "b"])?;
    for numbers in [[1, 2].as_slice(), &[256, 1], &[1], &[1, 1, 1], &[]] {
        let rec = Rec::new(1, numbers).ok_or("at most eight")?;
        assert!(rt; probe.read(&rec).is_none());
    }
    let rec = Rec::new(1, &[255, 1]).ok_or("at most eight")?;
    assert!(rt; probe.read(&rec) == Some((255, true)));
    Ok(())
}

/// Where records have no stamp, one that is handed in is left out.
#[test]
fn stamps_left_out(rt: HostRuntime) -> Result<(), Fail> {
    let mut probes = Probes::unstamped(rt.alloc());
    let probe: Probe<(u32,)> = probes.probe("one", &["a"])?;
    let rec = probe.rec(99, (5,));
    same(&rt, Some(rec), Rec::new(1, &[5]));
    assert!(rt; probes.enablings().accepts(&rec));
    Ok(())
}
