use crate::Word;

/// What a call does at the word that it was shown.
#[derive(Clone, Copy, Debug, PartialEq, Eq)]
pub enum Act {
    /// Nothing: the speculation isn't open, or the slot isn't free.
    Void,
    /// What was asked for, with no exchange of the word.
    Granted,
    /// An exchange of the word shown for this one.
    Attempt(Word),
    /// Nothing: no settling and no release is due.
    Idle,
}
