ghost use Rattle.std.specs.{Borrow.ftrue, Prelude.◌≡◌, Prelude.ℕ, Prelude.◌+◌};

use std::marker::Model;

/// How many moves an end of a pair of rings made. Only clauses read the count: it has no bytes, and counting takes no time.
#[derive(Drop)]
pub(crate) struct Moves {
    ghost count: { ℕ },
}

impl Model for Moves {
    ghost also_owns = { λ _. ftrue };
}

// It owns nothing.
unsafe impl Send for Moves {}

impl Moves {
    /// None was made.
    pub(crate) fn none() -> Moves
        ensures { result.count ≡ 0 }
    {
        Moves {}
    }

    /// One more was made.
    pub(crate) fn count(&mut self)
        ensures { self.new.count ≡ self.old.count + 1 }
    {}
}
