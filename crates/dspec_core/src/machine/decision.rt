ghost use Rattle.std.specs.Prelude.{◌≡◌};
ghost use Rattle.dspec_word.specs.Word.{CanBeReleased};
ghost use Rattle.dspec_core.specs.Decisions.{decided_left, decides, deed_of, word_left};

use dspec_deeds::{DecideFate, Deed};
use dspec_word::{Act, Code, SpecId, Word, commit_at};

/// Which of the two calls decides a speculation.
#[derive(Clone, Copy)]
pub enum Decision {
    Commit,
    Discard,
}

impl Decision {
    /// The deed that the call enters.
    pub fn deed(self, cpu: u32, id: SpecId, fate: DecideFate) -> Deed
        ensures { result ≡ deed_of self cpu id fate }
    {
        match self {
            Decision::Commit => Deed::Commit(cpu, id, fate),
            Decision::Discard => Deed::Discard(cpu, id, fate),
        }
    }

    /// Whether that fate decides.
    pub fn decides(self, fate: DecideFate) -> bool
        ensures { result ≡ decides self fate }
    {
        match self {
            Decision::Commit => matches!(fate, DecideFate::Copied(_) | DecideFate::Lost(_)),
            Decision::Discard => matches!(fate, DecideFate::Thrown(_)),
        }
    }

    /// The word after a call that decides, and releases nothing.
    pub fn leaves(self, word: Word, id: SpecId, mine: bool) -> Word
        requires { CanBeReleased word }
        ensures { result ≡ decided_left self word id mine }
    {
        match self {
            Decision::Commit => word_left(word, commit_at(word, id, mine)),
            Decision::Discard => Word::of(word.issue(), Code::Discarding),
        }
    }
}

/// The word after a table's act: the one that it attempts, or the one that stands.
pub fn word_left(word: Word, act: Act) -> Word
    ensures { result ≡ word_left word act }
{
    match act {
        Act::Attempt(to) => to,
        _ => word,
    }
}
