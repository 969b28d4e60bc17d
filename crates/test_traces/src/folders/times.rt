//! Times, dates and values.
use super::samples::CLOCK;
use crate::same::same;
use dspec_ctf_reading::folder::{Base, Moment, ShownValue, base_of, nanoseconds};
use dspec_ctf_reading::{ClockText, Field, Kind};
use std::test::Fail;

/// Dates by `date -u -d @SECONDS`.
#[test]
fn dates(rt: HostRuntime) -> Result<(), Fail> {
    for (seconds, year, month, day) in [
        (0u128, 1970u128, 1u128, 1u128),
        (951_782_400, 2000, 2, 29),
        (1_700_000_000, 2023, 11, 14),
        (4_107_542_400, 2100, 3, 1),
        (4_102_444_799, 2099, 12, 31),
    ] {
        let at = Moment::of(seconds * 1_000_000_000 + 7);
        let found = (at.year, at.month, at.day, at.nanosecond);
        same(&rt, found, (year, month, day, 7));
    }
    let at = Moment::of(1_700_000_000_000_000_000);
    same(&rt, (at.hour, at.minute, at.second), (22, 13, 20));
    Ok(())
}

#[test]
fn times_of_stamps(rt: HostRuntime) -> Result<(), Fail> {
    let thirds = ClockText {
        frequency: 3,
        uuid: Some("one"),
        start: None,
    };
    let none = ClockText {
        frequency: 0,
        uuid: None,
        start: None,
    };
    let found = nanoseconds(&CLOCK, Base::Epoch, 10);
    same(&rt, found, Some(1_700_000_000_000_000_035));
    same(&rt, nanoseconds(&CLOCK, Base::Clock, 10), Some(10));
    same(&rt, nanoseconds(&thirds, Base::Epoch, 1), Some(333_333_333));
    same(&rt, nanoseconds(&none, Base::Clock, 1), None);
    same(&rt, base_of(&[CLOCK, CLOCK]), Some(Base::Epoch));
    same(&rt, base_of(&[thirds, thirds]), Some(Base::Clock));
    let halves = ClockText {
        frequency: 2,
        ..thirds
    };
    same(&rt, base_of(&[thirds, halves]), None);
    same(&rt, base_of(&[thirds, CLOCK]), None);
    same(&rt, base_of(&[none]), Some(Base::Clock));
    same(&rt, base_of(&[none, none]), None);
    Ok(())
}

#[test]
fn values(rt: HostRuntime) -> Result<(), Fail> {
    for (field, kind, number, wanted) in [
        (Field::One, Kind::Unsigned, 255, ShownValue::Unsigned(255)),
        (Field::One, Kind::Signed, 255, ShownValue::Signed(-1)),
        (
            Field::Two,
            Kind::Signed,
            32_768,
            ShownValue::Signed(-32_768),
        ),
        (
            Field::Four,
            Kind::Float,
            0xBFC0_0000,
            ShownValue::Single(-1.5),
        ),
        (
            Field::Eight,
            Kind::Float,
            0x3FD0_0000_0000_0000,
            ShownValue::Double(0.25),
        ),
    ] {
        same(&rt, ShownValue::of(field, kind, number), Some(wanted));
    }
    same(&rt, ShownValue::of(Field::One, Kind::Float, 1), None);
    Ok(())
}
