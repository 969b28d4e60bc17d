ghost use Rattle.std.specs.Prelude.{◌≡◌, ◌/◌, ◌%◌, ◌^◌, ◌<◌, ◌≤◌, ◌↔◌, ◌⊎◌, IsNone, IfSome, Some, true};
ghost use Rattle.dspec_word.specs.{Code.is_decided, Word.SlotState, Word.word_number, Word.released};

use crate::Code;
use std::fmt;
use std::marker::Model;

// The issue at which a slot is never given out again. Eight times it, and a code, fit 64 bits.
const LAST_ISSUE: u64 = 1 << 57;

/// The shared word of a slot: how often the slot was released, at most 2^57 times, and where its
/// present speculation stands. Its number is `issue * 8 + code`; words compare as their numbers.
#[derive(Clone, Copy, PartialEq, Eq, PartialOrd, Ord, Hash)]
pub struct Word {
    raw: u64,
}

impl Model for Word {
    ghost use Rattle.dspec_word.specs.Word.{SlotState};

    ghost Value = { SlotState };

    ghost use Rattle.dspec_word.specs.{Laws.Words.inside_of-state_of, WordFields.state_of_raw, WordFields.IsNumber, WordFields.inside_of_word};

    ghost view = { state_of_raw };

    ghost invariant = { IsNumber };

    ghost inverse = { inside_of_word };

    ghost inverse_ok = { inside_of-state_of };
}

impl Word {
    /// The word of an issue and a code.
    #[inline]
    pub fn of(issue: u64, code: Code) -> Word
        requires { issue ≤ 2 ^ 57 }
        ensures { result ≡ record { issue = issue; code = code } }
    {
        Word {
            raw: 8 * issue + code.number(),
        }
    }

    /// The word of a number. None where the code would be 7, or the issue above 2^57.
    #[inline]
    pub fn from_raw(raw: u64) -> Option<Word>
        ensures refused { IsNone result ↔ ((raw % 8 ≡ 7) ⊎ (2 ^ 57 < raw / 8)) }
        ensures number { IfSome result (λ w. word_number w ≡ raw) }
        ensures found { (w : SlotState) → w.issue ≤ 2 ^ 57 → word_number w ≡ raw → result ≡ Some w }
    {
        if raw / 8 > LAST_ISSUE || raw % 8 == 7 {
            return None;
        }
        Some(Word { raw })
    }

    /// The word of a number that is known to be one.
    #[inline]
    pub fn of_number(raw: u64) -> Word
        requires { (raw % 8 < 7) × (raw / 8 ≤ 2 ^ 57) }
        ensures { word_number result ≡ raw }
    {
        Word { raw }
    }

    /// The number of the word.
    #[inline]
    pub fn raw(self) -> u64
        ensures { result ≡ word_number self }
    {
        self.raw
    }

    /// How often the slot was released.
    #[inline]
    pub fn issue(self) -> u64
        ensures value { result ≡ self.issue }
        ensures small { result ≤ 2 ^ 57 }
    {
        self.raw / 8
    }

    /// Where the present speculation stands.
    #[inline]
    pub fn code(self) -> Code
        ensures { result ≡ self.code }
    {
        Code::of_number(self.raw % 8)
    }

    /// Whether it is the word of this issue and code: one comparison.
    #[inline(always)]
    pub fn is_at(self, issue: u64, code: Code) -> bool
        requires { issue < 2 ^ 58 }
        ensures { (result ≡ true) ↔ (self ≡ record { issue = issue; code = code }) }
    {
        self.raw == 8 * issue + code.number()
    }

    /// Whether the speculation was committed or discarded, and the slot isn't released yet: one test.
    #[inline(always)]
    pub fn is_decided(self) -> bool
        ensures { result ≡ is_decided self.code }
    {
        self.raw % 8 >= 4
    }

    pub(crate) fn with_code(self, code: Code) -> Word
        ensures { result ≡ record { issue = self.issue; code = code } }
    {
        Word::of(self.issue(), code)
    }

    pub(crate) fn released(self) -> Word
        requires { self.issue < 2 ^ 57 }
        ensures { result ≡ released self.issue }
    {
        Word::of(self.issue() + 1, Code::Inactive)
    }
}

/// The issue and the code.
impl fmt::Debug for Word {
    fn fmt<W: fmt::Write>(&self, f: &mut fmt::Formatter<W>) -> fmt::Result {
        let (issue, code) = (self.issue(), self.code());
        write!(f, "Word {{ issue: {issue}, code: {code:?} }}")
    }
}
