ghost use Rattle.std.specs.Prelude.{◌≡◌};
ghost use Rattle.dspec_word.specs.{Tables.discard_at, Word.CanBeReleased};

use crate::{Act, Code, SpecId, Word};

/// What `discard` does at the word of the identifier's slot. `mine`: the CPU is a caller of this
/// speculation. Only its one caller releases the slot at once; any other discard needs cleaning.
pub fn discard_at(word: Word, id: SpecId, mine: bool) -> Act
    requires { CanBeReleased word }
    ensures { result ≡ discard_at word id mine }
{
    // a caller's own speculation, which is most often, is told by one comparison
    if mine && word.is_at(id.issue(), Code::ActiveOne) {
        return Act::Attempt(word.released());
    }
    if word.issue() != id.issue() {
        return Act::Void;
    }
    match word.code() {
        Code::Active => Act::Attempt(word.with_code(Code::Discarding)),
        Code::ActiveOne if mine => Act::Attempt(word.released()),
        Code::ActiveOne => Act::Attempt(word.with_code(Code::Discarding)),
        Code::ActiveMany => Act::Attempt(word.with_code(Code::Discarding)),
        Code::Inactive | Code::Committing | Code::CommittingMany | Code::Discarding => Act::Void,
    }
}
