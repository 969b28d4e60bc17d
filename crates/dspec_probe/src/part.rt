ghost use Rattle.std.specs.Prelude.{◌≡◌, ◌≤◌, ◌<◌, ◌+◌, ◌^◌, ◌++◌, ℕ, List, Option, Some, length, slice_index_or, IsTrue};
ghost use Rattle.dspec_record.specs.{Packing.number_of_words, Packing.AreFree, Packing.ArePacked, RecordText.fits, declared.field.Field.Field};
ghost use Rattle.dspec_probe.specs.declared.kind.Kind.{Kind, TheVariants.Unsigned};

use crate::number_list::NumberList;
use crate::{FieldList, Kind, Value};
use dspec_record::laid_out::pack_after;
use std::marker::PhantomData;

/// The places that a record has left, as a type: `Full`, or a `Place` and those after it.
pub trait Room {
    /// How many they are.
    ghost places: { ℕ };
}

/// No place is left.
pub struct Full;

/// A place, and others after it.
pub struct Place<R>(PhantomData<R>);

/// The eight places of a record.
pub type Eight = Place<Place<Place<Place<Place<Place<Place<Place<Full>>>>>>>>;

impl Room for Full {
    ghost places = { 0 };
}

impl<R: Room> Room for Place<R> {
    ghost places = { 1 + R.places };
}

/// A part of a record's values, in these places: a `Value`, which takes one, or a text, which takes as many as it has words.
pub trait Part<R: Room>: Copy {
    /// The places after it.
    type Left: Room;

    /// The fields that it takes.
    ghost fields_are: { List Field };

    /// The numbers that a record has of it.
    ghost numbers_of: { Self → List ℕ };

    /// What numbers stand for, if for anything.
    ghost values_of: { List ℕ → Option Self };

    /// What each of these numbers means.
    ghost kinds_are: { List Kind };

    /// How many fields it takes.
    fn count() -> usize
        requires { length fields_are ≤ 8 }
        ensures { result ≡ length fields_are };

    /// Its fields after others.
    fn fields_after(others: FieldList) -> FieldList
        requires { length others + length fields_are ≤ 8 }
        ensures { result ≡ others ++ fields_are };

    /// What the number at a place of its own means; after the last it is Unsigned.
    fn kind_at(place: usize) -> Kind
        requires { length fields_are ≤ 8 }
        ensures { result ≡ slice_index_or kinds_are place Unsigned };

    /// Its numbers after others: they fit its fields, and stand for nothing else.
    fn numbers_after(self, others: NumberList) -> NumberList
        requires { length others + length fields_are ≤ 8 }
        ensures holds { result ≡ others ++ numbers_of self }
        ensures fits { IsTrue (fits fields_are (numbers_of self)) }
        ensures back { values_of (numbers_of self) ≡ Some self };

    /// What numbers stand for; None where no values have these numbers.
    fn of_numbers(numbers: &[u64]) -> Option<Self>
        requires { length fields_are ≤ 8 }
        ensures { result ≡ values_of numbers.now };

    /// Adds it to words that hold nothing from `end` on, each number at its place; answers where the last one ends.
    fn pack_after(self, end: usize, words: &mut [u64; 9]) -> usize
        requires { AreFree end fields_are words.old }
        ensures packed { ArePacked end fields_are (numbers_of self) words.old result words.new }
        ensures fits { IsTrue (fits fields_are (numbers_of self)) }
        ensures below { number_of_words words.new < 256 ^ result };

    /// It has room.
    ghost few: { length fields_are + Self.Left.places ≤ R.places };

    /// Each number means something.
    ghost same: { length kinds_are ≡ length fields_are };
}

impl<R: Room> Part<R> for () {
    ghost use Rattle.std.specs.Prelude.{[], refl};
    ghost use Rattle.dspec_probe.specs.{Parts.nothing_of, Rooms.none-few};

    type Left = R;

    ghost fields_are = { [] };

    ghost numbers_of = { λ _. [] };

    ghost values_of = { nothing_of };

    ghost kinds_are = { [] };

    ghost few = { none-few R.places };

    ghost same = { refl };

    #[inline(always)]
    fn count() -> usize {
        0
    }

    #[inline(always)]
    fn fields_after(others: FieldList) -> FieldList {
        others
    }

    #[inline(always)]
    fn kind_at(_place: usize) -> Kind {
        Kind::Unsigned
    }

    #[inline(always)]
    fn numbers_after(self, others: NumberList) -> NumberList {
        others
    }

    #[inline(always)]
    fn of_numbers(numbers: &[u64]) -> Option<Self> {
        if !numbers.is_empty() {
            return None;
        }
        Some(())
    }

    #[inline(always)]
    fn pack_after(self, end: usize, _words: &mut [u64; 9]) -> usize {
        end
    }
}

impl<V: Value, R: Room> Part<Place<R>> for V {
    ghost use Rattle.std.specs.Prelude.{◌∷◌, [], refl};
    ghost use Rattle.dspec_probe.specs.{Parts.one_of, Rooms.le-refl};

    type Left = R;

    ghost fields_are = { V.field_is ∷ [] };

    ghost numbers_of = { λ v. V.number_of v ∷ [] };

    ghost values_of = { one_of V.value_of };

    ghost kinds_are = { V.kind_is ∷ [] };

    ghost few = { le-refl (1 + R.places) };

    ghost same = { refl };

    #[inline(always)]
    fn count() -> usize {
        1
    }

    #[inline(always)]
    fn fields_after(others: FieldList) -> FieldList {
        others.with(V::field())
    }

    #[inline(always)]
    fn kind_at(place: usize) -> Kind {
        if place > 0 {
            return Kind::Unsigned;
        }
        V::kind()
    }

    #[inline(always)]
    fn numbers_after(self, others: NumberList) -> NumberList {
        others.with(self.number())
    }

    #[inline(always)]
    fn of_numbers(numbers: &[u64]) -> Option<Self> {
        match numbers {
            [number] => V::value(*number),
            _ => None,
        }
    }

    #[inline(always)]
    fn pack_after(self, end: usize, words: &mut [u64; 9]) -> usize {
        pack_after(V::field(), self.number(), end, words)
    }
}

impl<R: Room, V: Part<R>, W: Part<V::Left>> Part<R> for (V, W) {
    ghost use Rattle.dspec_probe.specs.{Parts.both_of, Rooms.both-few, Rooms.both-same};

    type Left = W::Left;

    ghost fields_are = { V.fields_are ++ W.fields_are };

    ghost numbers_of = { λ v. V.numbers_of v.0 ++ W.numbers_of v.1 };

    ghost values_of = { both_of (length V.fields_are) V.values_of W.values_of };

    ghost kinds_are = { V.kinds_are ++ W.kinds_are };

    ghost few = { both-few V.fields_are W.fields_are V.Left.places W.Left.places R.places V.few W.few };

    ghost same = { both-same V.kinds_are W.kinds_are V.fields_are W.fields_are V.same W.same };

    #[inline(always)]
    fn count() -> usize {
        V::count() + W::count()
    }

    #[inline(always)]
    fn fields_after(others: FieldList) -> FieldList {
        W::fields_after(V::fields_after(others))
    }

    #[inline(always)]
    fn kind_at(place: usize) -> Kind {
        if place < V::count() {
            return V::kind_at(place);
        }
        W::kind_at(place - V::count())
    }

    #[inline(always)]
    fn numbers_after(self, others: NumberList) -> NumberList {
        let (first, after) = self;
        after.numbers_after(first.numbers_after(others))
    }

    #[inline(always)]
    fn of_numbers(numbers: &[u64]) -> Option<Self> {
        if numbers.len() < V::count() {
            return None;
        }
        let first = V::of_numbers(&numbers[..V::count()])?;
        let after = W::of_numbers(&numbers[V::count()..])?;
        Some((first, after))
    }

    #[inline(always)]
    fn pack_after(self, end: usize, words: &mut [u64; 9]) -> usize {
        let (first, after) = self;
        let next = first.pack_after(end, words);
        after.pack_after(next, words)
    }
}
