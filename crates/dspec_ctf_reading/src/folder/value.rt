//! What the numbers of fields stand for.

ghost use Rattle.std.specs.Prelude.{◌≡◌};
ghost use Rattle.dspec_ctf_reading.specs.Folders.Values.{stands_for, signed_by};

use crate::{Field, Kind};
use dspec_probe::Value;

/// What a number of a field stands for.
#[derive(Debug, Clone, Copy, PartialEq)]
pub enum ShownValue {
    /// The number itself.
    Unsigned(u64),
    /// A number that may be negative.
    Signed(i64),
    /// A float of 32 bits.
    Single(f32),
    /// A float of 64 bits.
    Double(f64),
}

/// A number of this width in two's complement.
fn signed(width: Field, number: u64) -> Option<i64>
    ensures { result ≡ signed_by width number }
{
    match width {
        Field::One => Some(i64::from(i8::value(number)?)),
        Field::Two => Some(i64::from(i16::value(number)?)),
        Field::Four => Some(i64::from(i32::value(number)?)),
        Field::Eight => i64::value(number),
    }
}

impl ShownValue {
    /// What a number of a field of this width and kind stands for; a word of a text for itself. None of a number that is wider than the field, and of a float of
    /// less than four bytes.
    pub fn of(width: Field, kind: Kind, number: u64) -> Option<ShownValue>
        ensures { result ≡ stands_for width kind number }
    {
        match (kind, width) {
            (Kind::Unsigned | Kind::Text | Kind::TextNext, _) => Some(ShownValue::Unsigned(number)),
            (Kind::Signed, _) => Some(ShownValue::Signed(signed(width, number)?)),
            (Kind::Float, Field::Four) => Some(ShownValue::Single(f32::value(number)?)),
            (Kind::Float, Field::Eight) => Some(ShownValue::Double(f64::value(number)?)),
            (Kind::Float, _) => None,
        }
    }
}
