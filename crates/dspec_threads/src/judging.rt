use crate::duty::Anything;
use crate::verdict::Verdict;
use rtrb::Protocol;
use std::marker::PhantomData;

/// Which verdicts may be said, for a program that proves why: the lanes know it of each that they settle. Others take `Anything`.
pub trait Judging {
    ghost use Rattle.std.specs.Prelude.{Bool};
    ghost use Rattle.dspec_word.specs.SpecId.{Speculation};

    // Whether of this path this may be said, true for keep. Whoever promises nothing of it leaves it out.
    ghost may: { Speculation → Bool → Type 0 } = { λ _ _. Unit {0} };
}

impl Judging for Anything {}

/// Each verdict in a ring may be said.
pub struct Said<J> {
    of: PhantomData<J>,
}

impl<J: Judging> Protocol<Verdict> for Said<J> {
    ghost allows = { λ _ v. J.may v.path.id v.keep };
}
