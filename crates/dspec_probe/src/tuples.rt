ghost use Rattle.std.specs.Prelude.{◌≡◌};

use crate::number_list::NumberList;
use crate::part::{Eight, Part};
use crate::{FieldList, Fields, Kind};
use dspec_record::Rec;

/// A tuple of one to eight parts of a record, which is these parts as pairs.
pub trait Tuple: Copy {
    /// The parts: a pair of the first and of those after it, down to `()`.
    type Parts: Part<Eight>;

    /// The parts of a tuple.
    ghost parts_of: { Self → Self.Parts };

    /// The tuple of parts.
    ghost tuple_of: { Self.Parts → Self };

    /// Its parts.
    fn parts(self) -> Self::Parts
        ensures { result ≡ parts_of self };

    /// The tuple of these parts.
    fn of(parts: Self::Parts) -> Self
        ensures { result ≡ tuple_of parts };

    /// It is the tuple of its parts.
    ghost back: { (v : Self) → tuple_of (parts_of v) ≡ v };
}

impl<T: Tuple> Fields for T {
    ghost use Rattle.std.specs.Option.{option_map};
    ghost use Rattle.dspec_probe.specs.{Kinds.eight_kinds, Rooms.within-eight};

    ghost fields_are = { T.Parts.fields_are };

    ghost numbers_of = { λ v. T.Parts.numbers_of (T.parts_of v) };

    ghost values_of = { λ numbers. option_map T.tuple_of (T.Parts.values_of numbers) };

    ghost kinds_are = { eight_kinds T.Parts.kinds_are };

    ghost few = { within-eight T.Parts.fields_are T.Parts.Left.places T.Parts.few };

    #[inline(always)]
    fn fields() -> FieldList {
        T::Parts::fields_after(FieldList::new())
    }

    fn kinds() -> [Kind; 8] {
        [
            T::Parts::kind_at(0),
            T::Parts::kind_at(1),
            T::Parts::kind_at(2),
            T::Parts::kind_at(3),
            T::Parts::kind_at(4),
            T::Parts::kind_at(5),
            T::Parts::kind_at(6),
            T::Parts::kind_at(7),
        ]
    }

    #[inline(always)]
    fn rec(self, epid: u32, stamp: u64) -> Rec {
        let numbers = self.parts().numbers_after(NumberList::new());
        Rec::stamped(epid, stamp, numbers.as_slice()).unwrap()
    }

    #[inline(always)]
    fn pack(self, words: &mut [u64; 9]) -> usize {
        self.parts().pack_after(4, words)
    }

    #[inline(always)]
    fn values(numbers: &[u64]) -> Option<Self> {
        let parts = T::Parts::of_numbers(numbers)?;
        Some(T::of(parts))
    }
}

impl<A: Part<Eight>> Tuple for (A,) {
    ghost use Rattle.std.specs.Prelude.{refl};

    type Parts = (A, ());

    ghost parts_of = { λ v. (v.0, tt) };

    ghost tuple_of = { λ p. record { 0 = p.0 } };

    ghost back = { λ v. refl };

    #[inline(always)]
    fn parts(self) -> Self::Parts {
        let (a,) = self;
        (a, ())
    }

    #[inline(always)]
    fn of(parts: Self::Parts) -> Self {
        let (a, ()) = parts;
        (a,)
    }
}

impl<A: Part<Eight>, B: Part<A::Left>> Tuple for (A, B) {
    ghost use Rattle.std.specs.Prelude.{refl};

    type Parts = (A, (B, ()));

    ghost parts_of = { λ v. (v.0, (v.1, tt)) };

    ghost tuple_of = { λ p. (p.0, p.1.0) };

    ghost back = { λ v. refl };

    #[inline(always)]
    fn parts(self) -> Self::Parts {
        let (a, b) = self;
        (a, (b, ()))
    }

    #[inline(always)]
    fn of(parts: Self::Parts) -> Self {
        let (a, (b, ())) = parts;
        (a, b)
    }
}

impl<A: Part<Eight>, B: Part<A::Left>, C: Part<B::Left>> Tuple for (A, B, C) {
    ghost use Rattle.std.specs.Prelude.{refl};

    type Parts = (A, (B, (C, ())));

    ghost parts_of = { λ v. (v.0, (v.1, (v.2, tt))) };

    ghost tuple_of = { λ p. (p.0, p.1.0, p.1.1.0) };

    ghost back = { λ v. refl };

    #[inline(always)]
    fn parts(self) -> Self::Parts {
        let (a, b, c) = self;
        (a, (b, (c, ())))
    }

    #[inline(always)]
    fn of(parts: Self::Parts) -> Self {
        let (a, (b, (c, ()))) = parts;
        (a, b, c)
    }
}

impl<A: Part<Eight>, B: Part<A::Left>, C: Part<B::Left>, D: Part<C::Left>> Tuple for (A, B, C, D) {
    ghost use Rattle.std.specs.Prelude.{refl};

    type Parts = (A, (B, (C, (D, ()))));

    ghost parts_of = { λ v. (v.0, (v.1, (v.2, (v.3, tt)))) };

    ghost tuple_of = { λ p. (p.0, p.1.0, p.1.1.0, p.1.1.1.0) };

    ghost back = { λ v. refl };

    #[inline(always)]
    fn parts(self) -> Self::Parts {
        let (a, b, c, d) = self;
        (a, (b, (c, (d, ()))))
    }

    #[inline(always)]
    fn of(parts: Self::Parts) -> Self {
        let (a, (b, (c, (d, ())))) = parts;
        (a, b, c, d)
    }
}

impl<A: Part<Eight>, B: Part<A::Left>, C: Part<B::Left>, D: Part<C::Left>, E: Part<D::Left>> Tuple
    for (A, B, C, D, E) {
    ghost use Rattle.std.specs.Prelude.{refl};

    type Parts = (A, (B, (C, (D, (E, ())))));

    ghost parts_of = { λ v. (v.0, (v.1, (v.2, (v.3, (v.4, tt))))) };

    ghost tuple_of = { λ p. (p.0, p.1.0, p.1.1.0, p.1.1.1.0, p.1.1.1.1.0) };

    ghost back = { λ v. refl };

    #[inline(always)]
    fn parts(self) -> Self::Parts {
        let (a, b, c, d, e) = self;
        (a, (b, (c, (d, (e, ())))))
    }

    #[inline(always)]
    fn of(parts: Self::Parts) -> Self {
        let (a, (b, (c, (d, (e, ()))))) = parts;
        (a, b, c, d, e)
    }
}

impl<
    A: Part<Eight>,
    B: Part<A::Left>,
    C: Part<B::Left>,
    D: Part<C::Left>,
    E: Part<D::Left>,
    F: Part<E::Left>,
> Tuple for (A, B, C, D, E, F) {
    ghost use Rattle.std.specs.Prelude.{refl};

    type Parts = (A, (B, (C, (D, (E, (F, ()))))));

    ghost parts_of = { λ v. (v.0, (v.1, (v.2, (v.3, (v.4, (v.5, tt)))))) };

    ghost tuple_of = { λ p. (p.0, p.1.0, p.1.1.0, p.1.1.1.0, p.1.1.1.1.0, p.1.1.1.1.1.0) };

    ghost back = { λ v. refl };

    #[inline(always)]
    fn parts(self) -> Self::Parts {
        let (a, b, c, d, e, f) = self;
        (a, (b, (c, (d, (e, (f, ()))))))
    }

    #[inline(always)]
    fn of(parts: Self::Parts) -> Self {
        let (a, (b, (c, (d, (e, (f, ())))))) = parts;
        (a, b, c, d, e, f)
    }
}

impl<
    A: Part<Eight>,
    B: Part<A::Left>,
    C: Part<B::Left>,
    D: Part<C::Left>,
    E: Part<D::Left>,
    F: Part<E::Left>,
    G: Part<F::Left>,
> Tuple for (A, B, C, D, E, F, G) {
    ghost use Rattle.std.specs.Prelude.{refl};

    type Parts = (A, (B, (C, (D, (E, (F, (G, ())))))));

    ghost parts_of = { λ v. (v.0, (v.1, (v.2, (v.3, (v.4, (v.5, (v.6, tt))))))) };

    ghost tuple_of = { λ p. (p.0, p.1.0, p.1.1.0, p.1.1.1.0, p.1.1.1.1.0, p.1.1.1.1.1.0, p.1.1.1.1.1.1.0) };

    ghost back = { λ v. refl };

    #[inline(always)]
    fn parts(self) -> Self::Parts {
        let (a, b, c, d, e, f, g) = self;
        (a, (b, (c, (d, (e, (f, (g, ())))))))
    }

    #[inline(always)]
    fn of(parts: Self::Parts) -> Self {
        let (a, (b, (c, (d, (e, (f, (g, ()))))))) = parts;
        (a, b, c, d, e, f, g)
    }
}

impl<
    A: Part<Eight>,
    B: Part<A::Left>,
    C: Part<B::Left>,
    D: Part<C::Left>,
    E: Part<D::Left>,
    F: Part<E::Left>,
    G: Part<F::Left>,
    H: Part<G::Left>,
> Tuple for (A, B, C, D, E, F, G, H) {
    ghost use Rattle.std.specs.Prelude.{refl};

    type Parts = (A, (B, (C, (D, (E, (F, (G, (H, ()))))))));

    ghost parts_of = { λ v. (v.0, (v.1, (v.2, (v.3, (v.4, (v.5, (v.6, (v.7, tt)))))))) };

    ghost tuple_of = { λ p. (p.0, p.1.0, p.1.1.0, p.1.1.1.0, p.1.1.1.1.0, p.1.1.1.1.1.0, p.1.1.1.1.1.1.0, p.1.1.1.1.1.1.1.0) };

    ghost back = { λ v. refl };

    #[inline(always)]
    fn parts(self) -> Self::Parts {
        let (a, b, c, d, e, f, g, h) = self;
        (a, (b, (c, (d, (e, (f, (g, (h, ()))))))))
    }

    #[inline(always)]
    fn of(parts: Self::Parts) -> Self {
        let (a, (b, (c, (d, (e, (f, (g, (h, ())))))))) = parts;
        (a, b, c, d, e, f, g, h)
    }
}
