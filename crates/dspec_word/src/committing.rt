ghost use Rattle.std.specs.Prelude.{◌≡◌};
ghost use Rattle.dspec_word.specs.{Tables.commit_at, Word.CanBeReleased};

use crate::{Act, Code, SpecId, Word};

/// What `commit` does at the word of the identifier's slot. `mine`: the CPU is a caller of this
/// speculation. Where no other CPU can hold records, the slot goes the short way over Committing.
pub fn commit_at(word: Word, id: SpecId, mine: bool) -> Act
    requires { CanBeReleased word }
    ensures { result ≡ commit_at word id mine }
{
    // a caller's own speculation, which is most often, is told by one comparison
    if mine && word.is_at(id.issue(), Code::ActiveOne) {
        return Act::Attempt(word.with_code(Code::Committing));
    }
    if word.issue() != id.issue() {
        return Act::Void;
    }
    match word.code() {
        Code::Active => Act::Attempt(word.with_code(Code::Committing)),
        Code::ActiveOne if mine => Act::Attempt(word.with_code(Code::Committing)),
        Code::ActiveOne => Act::Attempt(word.with_code(Code::CommittingMany)),
        Code::ActiveMany => Act::Attempt(word.with_code(Code::CommittingMany)),
        Code::Inactive | Code::Committing | Code::CommittingMany | Code::Discarding => Act::Void,
    }
}
