ghost use Rattle.std.specs.{Option.option_map, Prelude.◌≡◌, Prelude.◌≤◌, Prelude.None, Prelude.length, Prelude.take, Prelude.Option, Prelude.is_some, Prelude.is_none, Prelude.IfSome};
ghost use Rattle.dspec_record.specs.{LaidOut.Laid, Layout.rounded_up, Record.Record};

use crate::{Rec, Shape};

/// What can be traced as a record: a reference to a `Rec`, a record whose values stand elsewhere, or one whose text is packed.
/// What takes them is built once for each, so that none pays for another.
pub trait Recorded: Copy {
    /// The record that it is.
    ghost as_record: { Self → Record };

    /// What it says itself of its shape and its bytes, where its fields are known when a program is compiled.
    ghost laid_as: { Self → Option Laid };

    /// The enabled probe identifier.
    fn epid(&self) -> u32
        ensures { result ≡ (as_record self.now).epid };

    /// The number that the caller stamped it with; 0 where there was none.
    fn stamp(&self) -> u64
        ensures { result ≡ (as_record self.now).stamp };

    /// The values, in the order of the fields, where they stand as numbers; None where it knows its text itself.
    fn values(&self) -> Option<&[u64]>
        ensures values { IfSome result (λ v. v.now ≡ (as_record self.now).values × length v.now ≤ 8) }
        ensures due { is_some result ≡ is_none (laid_as self.now) };

    /// A copy that holds its values.
    fn to_rec(&self) -> Rec
        ensures { result ≡ as_record self.now };

    /// Its shape, where it knows that itself.
    fn laid_shape(&self) -> Option<Shape>
        ensures { result ≡ option_map (λ laid. laid.shape) (laid_as self.now) };

    /// Writes its text over the first bytes, where it knows that itself, in whole words of eight bytes: the slice has room for
    /// these. Else answers false and writes nothing.
    fn put_laid(&self, out: &mut [u8]) -> bool
        requires room { IfSome (laid_as self.now) (λ laid. rounded_up (length laid.text) 8 ≤ length out.old) }
        ensures due { result ≡ is_some (laid_as self.now) }
        ensures put { IfSome (laid_as self.now) (λ laid. take (length laid.text) out.new ≡ laid.text) }
        ensures nothing { laid_as self.now ≡ None → out.new ≡ out.old };
}

impl<'a> Recorded for &'a Rec {
    ghost as_record = { λ r. r.now };

    ghost laid_as = { λ _. None };

    #[inline(always)]
    fn epid(&self) -> u32 {
        let rec: &Rec = *self;
        rec.epid()
    }

    #[inline(always)]
    fn stamp(&self) -> u64 {
        let rec: &Rec = *self;
        rec.stamp()
    }

    #[inline(always)]
    fn values(&self) -> Option<&[u64]> {
        let rec: &Rec = *self;
        Some(rec.values())
    }

    #[inline(always)]
    fn to_rec(&self) -> Rec {
        **self
    }

    #[inline(always)]
    fn laid_shape(&self) -> Option<Shape> {
        None
    }

    #[inline(always)]
    fn put_laid(&self, _out: &mut [u8]) -> bool {
        false
    }
}
