/// What the tail of a ring passed.
#[derive(Debug, Clone, Copy, PartialEq, Eq)]
pub struct PassedPlaces {
    /// How many of the oldest places.
    pub places: usize,
    /// How many blocks stood there still: they weren't kept before.
    pub blocks: usize,
}

impl PassedPlaces {
    ghost use Rattle.std.specs.Prelude.{◌≡◌, ◌+◌, ◌<◌, ◌≤◌, ◌^◌};
    ghost use Rattle.dspec_parking.specs.Passing.{none_passed, one_more};

    /// Nothing.
    pub fn none() -> PassedPlaces
        ensures { result ≡ none_passed }
    {
        PassedPlaces {
            places: 0,
            blocks: 0,
        }
    }

    /// One place more.
    pub fn one_more(self, stood: bool) -> PassedPlaces
        requires fits { self.places + 1 < 2 ^ 64 }
        requires blocks { self.blocks ≤ self.places }
        ensures { result ≡ one_more stood self }
    {
        PassedPlaces {
            places: self.places + 1,
            blocks: if stood { self.blocks + 1 } else { self.blocks },
        }
    }
}
