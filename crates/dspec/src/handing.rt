ghost use Rattle.std.specs.Prelude.{◌≡◌, ◌<◌, ℕ};
ghost use Rattle.dspec_word.specs.SpecId.{Speculation, id_number};
ghost use Rattle.dspec_deeds.specs.FateAnswers.{id_given};
ghost use Rattle.dspec.specs.Handing.{opening_of};

use crate::path::Path;
use dspec_deeds::Opening;
use dspec_word::SpecId;

/// A path that was handed on, as a word: it may go through an atomic, a queue, a channel or a file to whoever takes it up.
///
/// Nobody has to take it up. A path that nobody decides keeps its slot, and its records count as `held` in the reports of the CPUs
/// that offered them; at the close they are abandoned. One that is taken up twice is decided by whoever decides first: to the other
/// it is void, since an identifier never names another speculation.
#[derive(Clone, Copy, Debug, PartialEq, Eq)]
pub struct Handed {
    id: SpecId,
}

impl Handed {
    /// Its identifier, or NONE where no speculation was given.
    #[inline]
    pub fn id(self) -> SpecId
        ensures { result ≡ self.id }
    {
        self.id
    }

    /// The number of its identifier, `issue * 64 + slot`. 0 where no speculation was given.
    #[inline]
    pub fn raw(self) -> u64
        ensures { result ≡ id_number self.id }
    {
        self.id.raw()
    }

    /// The word with this number: every number is that of exactly one. Of a number that `raw` didn't answer the path is void,
    /// or somebody else's.
    #[inline]
    pub fn from_raw(raw: u64) -> Handed
        ensures number { id_number result.id ≡ raw }
        ensures slot { result.id.slot < 64 }
        ensures found { (id : Speculation) → id.slot < 64 → id_number id ≡ raw → result.id ≡ id }
    {
        Handed {
            id: SpecId::from_raw(raw),
        }
    }
}

impl Path {
    /// Hands the path on. From here until `Path::take` nothing makes sure that it is decided: that rests with the program, and where
    /// it wasn't, the reports tell by `held`. The word can't be left where it is: a program that wants it no more says so, by `let _ =`.
    #[must_use]
    #[inline]
    pub fn hand(self) -> Handed
        ensures { result.id ≡ id_given self.opening }
    {
        let Path { opening } = self;
        Handed { id: opening.id() }
    }

    /// Takes up a path that was handed on: it is the path of the same speculation, on whichever lane of the session it goes on. Where
    /// none was given, none is: `opening` answers Unavailable then, whatever the reason was, and all calls with the path are void.
    ///
    /// What each lane offered stays in that lane's own buffer. The lane that keeps the path copies its own part at once, every other
    /// one copies its part in its next `service`; so each lane has to go on calling that. The slot is released after the services of
    /// all lanes by the consumer's `clean`, which `trace` calls once a round.
    #[inline]
    #[tactic(auto, using(crate::proofs::TakenUp::none_of_zero))]
    pub fn take(handed: Handed) -> Path
        ensures speculation { id_given result.opening ≡ handed.id }
        ensures opening { result.opening ≡ opening_of handed.id }
    {
        let Handed { id } = handed;
        if id.raw() == 0 {
            return Path {
                opening: Opening::Unavailable,
            };
        }
        Path {
            opening: Opening::Id(id),
        }
    }
}
