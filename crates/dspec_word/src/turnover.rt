ghost use Rattle.std.specs.Prelude.{◌≡◌};
ghost use Rattle.dspec_word.specs.{Tables.open_at, Tables.settle_at, Tables.reap_at, Word.CanBeReleased};

use crate::{Act, Code, Word};

/// What `speculation` does at a slot's word: it opens an inactive slot. One that was released
/// `max_issues` times is retired.
pub fn open_at(word: Word, max_issues: u64) -> Act
    requires { CanBeReleased word }
    ensures { result ≡ open_at word max_issues }
{
    match word.code() {
        Code::Inactive if word.issue() < max_issues => Act::Attempt(word.with_code(Code::Active)),
        _ => Act::Void,
    }
}

/// What `service` does at a slot's word. `acked` is the CPU's acknowledgement of that slot: one
/// more than the issue that it settled last, or 0.
pub fn settle_at(word: Word, acked: u64) -> Act
    requires { CanBeReleased word }
    ensures { result ≡ settle_at word acked }
{
    match word.code() {
        Code::CommittingMany | Code::Discarding if acked <= word.issue() => Act::Granted,
        _ => Act::Idle,
    }
}

/// What `clean` does at a slot's word. `all_acked`: every CPU acknowledged the word's issue.
pub fn reap_at(word: Word, all_acked: bool) -> Act
    requires { CanBeReleased word }
    ensures { result ≡ reap_at word all_acked }
{
    match word.code() {
        Code::CommittingMany | Code::Discarding if all_acked => Act::Attempt(word.released()),
        _ => Act::Idle,
    }
}
