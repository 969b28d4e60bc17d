ghost use Rattle.std.specs.Prelude.{◌≡◌};
ghost use Rattle.dspec_word.specs.{Tables.speculate_at, Word.CanBeReleased};

use crate::{Act, Code, SpecId, Word};

/// What `speculate` does at the word of the identifier's slot. `mine`: the CPU is a caller of this
/// speculation. The second caller makes it one of several CPUs, which no later call takes back.
#[inline]
pub fn speculate_at(word: Word, id: SpecId, mine: bool) -> Act
    requires { CanBeReleased word }
    ensures { result ≡ speculate_at word id mine }
{
    // a caller's own speculation, which is most often, is told by one comparison
    if mine && word.is_at(id.issue(), Code::ActiveOne) {
        return Act::Granted;
    }
    if word.issue() != id.issue() {
        return Act::Void;
    }
    match word.code() {
        Code::Active => Act::Attempt(word.with_code(Code::ActiveOne)),
        Code::ActiveOne if mine => Act::Granted,
        Code::ActiveOne => Act::Attempt(word.with_code(Code::ActiveMany)),
        Code::ActiveMany => Act::Granted,
        Code::Inactive | Code::Committing | Code::CommittingMany | Code::Discarding => Act::Void,
    }
}
