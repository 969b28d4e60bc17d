ghost use Rattle.std.specs.Prelude.{◌≡◌, ◌<◌, ◌^◌, ℕ, Option, Some};
ghost use Rattle.dspec_record.specs.{Layout.width, declared.field.Field.Field};
ghost use Rattle.dspec_probe.specs.declared.kind.Kind.{Kind};

use crate::Kind;
use dspec_record::Field;
use std::num::{
    f32_from_bits_with_nan, f32_to_bits_with_nan, f64_from_bits_with_nan, f64_to_bits_with_nan,
};

/// What can stand in a field of a record: a number, a truth value or a float. A record has it as a number that isn't negative, bit
/// by bit: of a NaN, whose bits say nothing in Rattle, those of the quiet one.
pub trait Value: Copy {
    /// The field that it takes.
    ghost field_is: { Field };

    /// The number that a record has of it.
    ghost number_of: { Self → ℕ };

    /// What a number in a record stands for, if for anything.
    ghost value_of: { ℕ → Option Self };

    /// What that number means.
    ghost kind_is: { Kind };

    /// The field that it takes.
    fn field() -> Field
        ensures { result ≡ field_is };

    /// What the number that a record has of it means.
    fn kind() -> Kind
        ensures { result ≡ kind_is };

    /// The number that a record has of it: it fits the field, and stands for nothing else.
    fn number(self) -> u64
        ensures number { result ≡ number_of self }
        ensures fits { result < 256 ^ width field_is }
        ensures back { value_of result ≡ Some self };

    /// What a number in a record stands for; None where no value has this number.
    fn value(number: u64) -> Option<Self>
        ensures { result ≡ value_of number };
}

impl Value for u8 {
    ghost use Rattle.dspec_probe.specs.{Values.below, declared.kind.Kind.TheVariants.Unsigned};
    ghost use Rattle.dspec_record.specs.declared.field.Field.TheVariants.{One};

    ghost field_is = { One };

    ghost number_of = { λ n. n };

    ghost value_of = { below (2 ^ 8) };

    ghost kind_is = { Unsigned };

    #[inline(always)]
    fn field() -> Field {
        Field::One
    }

    #[inline(always)]
    fn kind() -> Kind {
        Kind::Unsigned
    }

    #[inline(always)]
    fn number(self) -> u64 {
        u64::from(self)
    }

    #[inline(always)]
    fn value(number: u64) -> Option<u8> {
        if number > 0xff {
            return None;
        }
        Some(number as u8)
    }
}

impl Value for u16 {
    ghost use Rattle.dspec_probe.specs.{Values.below, declared.kind.Kind.TheVariants.Unsigned};
    ghost use Rattle.dspec_record.specs.declared.field.Field.TheVariants.{Two};

    ghost field_is = { Two };

    ghost number_of = { λ n. n };

    ghost value_of = { below (2 ^ 16) };

    ghost kind_is = { Unsigned };

    #[inline(always)]
    fn field() -> Field {
        Field::Two
    }

    #[inline(always)]
    fn kind() -> Kind {
        Kind::Unsigned
    }

    #[inline(always)]
    fn number(self) -> u64 {
        u64::from(self)
    }

    #[inline(always)]
    fn value(number: u64) -> Option<u16> {
        if number > 0xffff {
            return None;
        }
        Some(number as u16)
    }
}

impl Value for u32 {
    ghost use Rattle.dspec_probe.specs.{Values.below, declared.kind.Kind.TheVariants.Unsigned};
    ghost use Rattle.dspec_record.specs.declared.field.Field.TheVariants.{Four};

    ghost field_is = { Four };

    ghost number_of = { λ n. n };

    ghost value_of = { below (2 ^ 32) };

    ghost kind_is = { Unsigned };

    #[inline(always)]
    fn field() -> Field {
        Field::Four
    }

    #[inline(always)]
    fn kind() -> Kind {
        Kind::Unsigned
    }

    #[inline(always)]
    fn number(self) -> u64 {
        u64::from(self)
    }

    #[inline(always)]
    fn value(number: u64) -> Option<u32> {
        if number > 0xffff_ffff {
            return None;
        }
        Some(number as u32)
    }
}

impl Value for u64 {
    ghost use Rattle.dspec_probe.specs.{Values.below, declared.kind.Kind.TheVariants.Unsigned};
    ghost use Rattle.dspec_record.specs.declared.field.Field.TheVariants.{Eight};

    ghost field_is = { Eight };

    ghost number_of = { λ n. n };

    ghost value_of = { below (2 ^ 64) };

    ghost kind_is = { Unsigned };

    #[inline(always)]
    fn field() -> Field {
        Field::Eight
    }

    #[inline(always)]
    fn kind() -> Kind {
        Kind::Unsigned
    }

    #[inline(always)]
    fn number(self) -> u64 {
        self
    }

    #[inline(always)]
    fn value(number: u64) -> Option<u64> {
        Some(number)
    }
}

impl Value for i8 {
    ghost use Rattle.std.specs.Int.{cast_unsigned, w8};
    ghost use Rattle.dspec_probe.specs.{Values.signed, declared.kind.Kind.TheVariants.Signed};
    ghost use Rattle.dspec_record.specs.declared.field.Field.TheVariants.{One};

    ghost field_is = { One };

    ghost number_of = { cast_unsigned w8 };

    ghost value_of = { signed w8 };

    ghost kind_is = { Signed };

    #[inline(always)]
    fn field() -> Field {
        Field::One
    }

    #[inline(always)]
    fn kind() -> Kind {
        Kind::Signed
    }

    #[inline(always)]
    fn number(self) -> u64 {
        u64::from(self.cast_unsigned())
    }

    #[inline(always)]
    fn value(number: u64) -> Option<i8> {
        let bits = u8::value(number)?;
        Some(bits.cast_signed())
    }
}

impl Value for i16 {
    ghost use Rattle.std.specs.Int.{cast_unsigned, w16};
    ghost use Rattle.dspec_probe.specs.{Values.signed, declared.kind.Kind.TheVariants.Signed};
    ghost use Rattle.dspec_record.specs.declared.field.Field.TheVariants.{Two};

    ghost field_is = { Two };

    ghost number_of = { cast_unsigned w16 };

    ghost value_of = { signed w16 };

    ghost kind_is = { Signed };

    #[inline(always)]
    fn field() -> Field {
        Field::Two
    }

    #[inline(always)]
    fn kind() -> Kind {
        Kind::Signed
    }

    #[inline(always)]
    fn number(self) -> u64 {
        u64::from(self.cast_unsigned())
    }

    #[inline(always)]
    fn value(number: u64) -> Option<i16> {
        let bits = u16::value(number)?;
        Some(bits.cast_signed())
    }
}

impl Value for i32 {
    ghost use Rattle.std.specs.Int.{cast_unsigned, w32};
    ghost use Rattle.dspec_probe.specs.{Values.signed, declared.kind.Kind.TheVariants.Signed};
    ghost use Rattle.dspec_record.specs.declared.field.Field.TheVariants.{Four};

    ghost field_is = { Four };

    ghost number_of = { cast_unsigned w32 };

    ghost value_of = { signed w32 };

    ghost kind_is = { Signed };

    #[inline(always)]
    fn field() -> Field {
        Field::Four
    }

    #[inline(always)]
    fn kind() -> Kind {
        Kind::Signed
    }

    #[inline(always)]
    fn number(self) -> u64 {
        u64::from(self.cast_unsigned())
    }

    #[inline(always)]
    fn value(number: u64) -> Option<i32> {
        let bits = u32::value(number)?;
        Some(bits.cast_signed())
    }
}

impl Value for i64 {
    ghost use Rattle.std.specs.Int.{cast_unsigned, w64};
    ghost use Rattle.dspec_probe.specs.{Values.signed, declared.kind.Kind.TheVariants.Signed};
    ghost use Rattle.dspec_record.specs.declared.field.Field.TheVariants.{Eight};

    ghost field_is = { Eight };

    ghost number_of = { cast_unsigned w64 };

    ghost value_of = { signed w64 };

    ghost kind_is = { Signed };

    #[inline(always)]
    fn field() -> Field {
        Field::Eight
    }

    #[inline(always)]
    fn kind() -> Kind {
        Kind::Signed
    }

    #[inline(always)]
    fn number(self) -> u64 {
        self.cast_unsigned()
    }

    #[inline(always)]
    fn value(number: u64) -> Option<i64> {
        Some(number.cast_signed())
    }
}

impl Value for bool {
    ghost use Rattle.dspec_probe.specs.{Values.flag, Values.flag_of, declared.kind.Kind.TheVariants.Unsigned};
    ghost use Rattle.dspec_record.specs.declared.field.Field.TheVariants.{One};

    ghost field_is = { One };

    ghost number_of = { flag };

    ghost value_of = { flag_of };

    ghost kind_is = { Unsigned };

    #[inline(always)]
    fn field() -> Field {
        Field::One
    }

    #[inline(always)]
    fn kind() -> Kind {
        Kind::Unsigned
    }

    #[inline(always)]
    fn number(self) -> u64 {
        u64::from(self)
    }

    #[inline(always)]
    fn value(number: u64) -> Option<bool> {
        match number {
            0 => Some(false),
            1 => Some(true),
            _ => None,
        }
    }
}

impl Value for f32 {
    ghost use Rattle.std.specs.{Float.Ieee.binary32, Prelude.to_bits};
    ghost use Rattle.dspec_probe.specs.{Values.float, declared.kind.Kind.TheVariants.Float};
    ghost use Rattle.dspec_record.specs.declared.field.Field.TheVariants.{Four};

    ghost field_is = { Four };

    ghost number_of = { to_bits binary32 };

    ghost value_of = { float binary32 (2 ^ 32) };

    ghost kind_is = { Float };

    #[inline(always)]
    fn field() -> Field {
        Field::Four
    }

    #[inline(always)]
    fn kind() -> Kind {
        Kind::Float
    }

    #[inline(always)]
    fn number(self) -> u64 {
        u64::from(f32_to_bits_with_nan(self))
    }

    #[inline(always)]
    fn value(number: u64) -> Option<f32> {
        let bits = u32::value(number)?;
        Some(f32_from_bits_with_nan(bits))
    }
}

impl Value for f64 {
    ghost use Rattle.std.specs.{Float.Ieee.binary64, Prelude.to_bits};
    ghost use Rattle.dspec_probe.specs.{Values.float, declared.kind.Kind.TheVariants.Float};
    ghost use Rattle.dspec_record.specs.declared.field.Field.TheVariants.{Eight};

    ghost field_is = { Eight };

    ghost number_of = { to_bits binary64 };

    ghost value_of = { float binary64 (2 ^ 64) };

    ghost kind_is = { Float };

    #[inline(always)]
    fn field() -> Field {
        Field::Eight
    }

    #[inline(always)]
    fn kind() -> Kind {
        Kind::Float
    }

    #[inline(always)]
    fn number(self) -> u64 {
        f64_to_bits_with_nan(self)
    }

    #[inline(always)]
    fn value(number: u64) -> Option<f64> {
        Some(f64_from_bits_with_nan(number))
    }
}
