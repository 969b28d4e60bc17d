//! Which number a record has of a value, and which values numbers stand for.
use crate::same::same;
use dspec_probe::Value;
use dspec_record::Field;
use std::fmt::Debug;
use std::process::Abort;

/// A record has this number of the value, which stands for it again.
fn stands<V: Value + PartialEq + Debug + Drop>(rt: &impl Abort, value: V, number: u64) {
    same(rt, value.number(), number);
    same(rt, V::value(number), Some(value));
}

#[test]
fn numbers_of_unsigned(rt: HostRuntime) {
    stands(&rt, 0_u8, 0);
    stands(&rt, 255_u8, 255);
    stands(&rt, 0xfffe_u16, 0xfffe);
    stands(&rt, u32::MAX, 0xffff_ffff);
    stands(&rt, 0x0102_0304_0506_0708_u64, 0x0102_0304_0506_0708);
    stands(&rt, u64::MAX, u64::MAX);
}

/// A negative number's bits, of its own width.
#[test]
fn numbers_of_signed(rt: HostRuntime) {
    stands(&rt, -1_i8, 0xff);
    stands(&rt, i8::MIN, 0x80);
    stands(&rt, 127_i8, 127);
    stands(&rt, -2_i16, 0xfffe);
    stands(&rt, i32::MIN, 0x8000_0000);
    stands(&rt, -1_i32, 0xffff_ffff);
    stands(&rt, -1_i64, u64::MAX);
    stands(&rt, i64::MIN, 0x8000_0000_0000_0000);
    stands(&rt, i64::MAX, 0x7fff_ffff_ffff_ffff);
}

#[test]
fn numbers_of_truth(rt: HostRuntime) {
    stands(&rt, false, 0);
    stands(&rt, true, 1);
    same(&rt, bool::value(2), None);
}

/// A float's bits, the sign of a zero among them.
#[test]
fn numbers_of_floats(rt: HostRuntime) {
    stands(&rt, 1.0_f64, 0x3ff0_0000_0000_0000);
    stands(&rt, -2.5_f64, 0xc004_0000_0000_0000);
    stands(&rt, f64::INFINITY, 0x7ff0_0000_0000_0000);
    stands(&rt, 5e-324_f64, 1);
    stands(&rt, -0.0_f64, 0x8000_0000_0000_0000);
    stands(&rt, 1.0_f32, 0x3f80_0000);
    stands(&rt, -0.5_f32, 0xbf00_0000);
    stands(&rt, f32::NEG_INFINITY, 0xff80_0000);
    same(&rt, f32::value(0x1_0000_0000), None);
}

/// A NaN is a NaN again, and a record has the quiet one's number of it.
#[test]
fn numbers_of_nan(rt: HostRuntime) {
    let nan = 0.0_f64 / 0.0;
    same(&rt, nan.number(), 0x7ff8_0000_0000_0000);
    assert!(rt; f64::value(0x7ff0_0000_0000_0001).is_some_and(|x| x != x));
    let nan = 0.0_f32 / 0.0;
    same(&rt, nan.number(), 0x7fc0_0000);
    assert!(rt; f32::value(0xff80_0001).is_some_and(|x| x != x));
}

/// A number above the field's limit stands for nothing.
#[test]
fn numbers_too_wide(rt: HostRuntime) {
    same(&rt, u8::value(256), None);
    same(&rt, u16::value(0x1_0000), None);
    same(&rt, u32::value(0x1_0000_0000), None);
    same(&rt, i8::value(256), None);
    same(&rt, i16::value(0x1_0000), None);
    same(&rt, i32::value(u64::MAX), None);
}

#[test]
fn fields_by_type(rt: HostRuntime) {
    let ones = [u8::field(), i8::field(), bool::field()];
    same(&rt, ones, [Field::One; 3]);
    same(&rt, [u16::field(), i16::field()], [Field::Two; 2]);
    let fours = [u32::field(), i32::field(), f32::field()];
    same(&rt, fours, [Field::Four; 3]);
    let eights = [u64::field(), i64::field(), f64::field()];
    same(&rt, eights, [Field::Eight; 3]);
}
