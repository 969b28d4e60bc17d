use std::marker::Model;

/// The most values that a record has.
const MAX_VALUES: usize = 8;

/// The numbers of a record in their order, eight at the most.
#[derive(Drop)]
pub struct NumberList {
    held: [u64; MAX_VALUES],
    len: usize,
}

impl Model for NumberList {
    ghost use Rattle.std.specs.Prelude.{ℕ, List};

    ghost Value = { List ℕ };

    ghost use Rattle.dspec_probe.specs.NumberLists.{listed_numbers, IsNumberList};

    ghost view = { listed_numbers };

    ghost invariant = { IsNumberList };
}

impl NumberList {
    ghost use Rattle.std.specs.Prelude.{◌≡◌, ◌≤◌, ◌<◌, ◌++◌, ◌∷◌, [], length};

    /// None yet.
    #[inline(always)]
    pub fn new() -> NumberList
        ensures { result ≡ [] }
    {
        NumberList {
            held: [0; MAX_VALUES],
            len: 0,
        }
    }

    /// One more after them.
    #[inline(always)]
    pub fn with(self, number: u64) -> NumberList
        requires { length self < 8 }
        ensures { result ≡ self ++ number ∷ [] }
    {
        let mut held = self.held;
        held[self.len] = number;
        NumberList {
            held,
            len: self.len + 1,
        }
    }

    /// The numbers, in their order.
    #[inline(always)]
    pub fn as_slice(&self) -> &[u64]
        ensures numbers { result.now ≡ self.now }
        ensures few { length result.now ≤ 8 }
    {
        &self.held[..self.len]
    }
}
