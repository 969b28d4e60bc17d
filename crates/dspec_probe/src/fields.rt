ghost use Rattle.std.specs.Prelude.{◌≡◌, ◌≤◌, ℕ, List, Option, Some, length, IsTrue};
ghost use Rattle.dspec_record.specs.{Packing.AreFree, Packing.ArePacked, RecordText.fits, declared.field.Field.Field};
ghost use Rattle.dspec_probe.specs.declared.kind.Kind.{Kind};

use crate::{FieldList, Kind};
use dspec_record::Rec;

/// The values of a record by the types of its fields: a tuple of one to eight.
pub trait Fields: Copy {
    /// The fields that they take.
    ghost fields_are: { List Field };

    /// The numbers that a record has of them.
    ghost numbers_of: { Self → List ℕ };

    /// What the numbers of a record stand for, if for anything.
    ghost values_of: { List ℕ → Option Self };

    /// What each of these numbers means, and Unsigned after the last: eight in all.
    ghost kinds_are: { List Kind };

    /// The fields that they take.
    fn fields() -> FieldList
        ensures { result ≡ fields_are };

    /// What the number of each field means, in their order; after the last it is Unsigned.
    fn kinds() -> [Kind; 8]
        ensures { result ≡ kinds_are };

    /// The record with this EPID, this stamp and these values: they fit their fields, and its numbers stand for nothing else.
    fn rec(self, epid: u32, stamp: u64) -> Rec
        ensures holds { result ≡ record { epid = epid; stamp = stamp; values = numbers_of self } }
        ensures fits { IsTrue (fits fields_are (numbers_of self)) }
        ensures back { values_of (numbers_of self) ≡ Some self };

    /// What the numbers of a record stand for; None where no values have these numbers.
    fn values(numbers: &[u64]) -> Option<Self>
        ensures { result ≡ values_of numbers.now };

    /// Adds the values to words of eight bytes that hold nothing after the first four bytes, each at its place in a record without a
    /// stamp; answers where the last one ends.
    fn pack(self, words: &mut [u64; 9]) -> usize
        requires { AreFree 4 fields_are words.old }
        ensures packed { ArePacked 4 fields_are (numbers_of self) words.old result words.new }
        ensures fits { IsTrue (fits fields_are (numbers_of self)) };

    /// They are eight at the most.
    ghost few: { length fields_are ≤ 8 };
}
