//! Decisions of the first slot: a commit that waits for no other CPU, and two CPUs that both decide, of which one misses.
ghost use Rattle.std.specs.Prelude.{◌≡◌, ◌≤◌, IfSome};
ghost use Rattle.dspec_table.specs.{Conditions.MayLoad, Seats.known, Seats.IsAt, Seats.set_up, Seats.cpu_of};
ghost use Rattle.test_words.specs.Calls.{MayBegin, Next, Unused};
ghost use Rattle.dspec_word.specs.Word.{CanBeReleased};

use super::*;
use crate::calls::{begun, committed};
use crate::steps::{load_word, try_word};
use dspec_word::{Act, SpecId, commit_at, discard_at};

/// A call's load of the slot's word.
pub(super) fn shown(words: &Words, seat: &mut CpuSeat, call: &Doing) -> Word
    requires seat { IsAt words.now seat.old }
    requires slots { 1 ≤ (set_up words.now).nspec }
    requires may { MayLoad (set_up words.now) (known seat.old) (cpu_of seat.old) call.now 1 call.now.op }
    ensures seat { IsAt words.now seat.new × (cpu_of seat.new ≡ cpu_of seat.old) }
    ensures next { Next (set_up words.now) (known seat.old) (known seat.new) (cpu_of seat.old) call.now result }
    ensures limit { CanBeReleased result }
{
    load_word(seat, words, call)
}

/// A commit and a discard by two CPUs that are no callers, both shown the word before either decides. The discard is first, so the
/// commit's exchange fails, and shows the word that it is answered.
pub(super) fn both_decided(
    words: &Words,
    first: &mut CpuSeat,
    second: &mut CpuSeat,
    id: SpecId,
    commit: &Doing,
    discard: &Doing,
) -> Option<Word>
    requires first { MayBegin words.now first.old commit.now }
    requires second { MayBegin words.now second.old discard.now }
    requires slots { 1 ≤ (set_up words.now).nspec }
    requires commit { commit.now.op ≡ CpuOp.Commit id }
    requires discard { discard.now.op ≡ CpuOp.Discard id }
    ensures first { IsAt words.now first.new × (cpu_of first.new ≡ cpu_of first.old) }
    ensures second { IsAt words.now second.new × (cpu_of second.new ≡ cpu_of second.old) }
    ensures rests { IfSome result (λ _. Unused (set_up words.now) (cpu_of first.old) (known first.new).own × Unused (set_up words.now) (cpu_of second.old) (known second.new).own) }
{
    let ours = shown(words, first, commit);
    let theirs = shown(words, second, discard);
    let Act::Attempt(to) = commit_at(ours, id, commit.mine) else {
        return None;
    };
    let Act::Attempt(thrown) = discard_at(theirs, id, discard.mine) else {
        return None;
    };
    let Ok(()) = try_word(second, words, theirs, thrown, discard) else {
        return None;
    };
    let Err(word) = try_word(first, words, ours, to, commit) else {
        return None;
    };
    Some(word)
}

#[test]
fn a_commit_of_its_own(rt: HostRuntime) -> Result<(), Fail> {
    let Ok((words, first, mut second, consumer)) = started(rt.alloc()) else {
        return Err(AllocError.into());
    };
    let (first, given) = threads::tried(&words, first);
    let id = SpecId::of(0, 1);
    let call = doing(CpuOp::Commit(id));
    let running = begun(&words, &mut second, id, &call);
    let released = running && committed(&words, &mut second, id, &call);
    assert!(rt; given && released);
    let last = ended(rt.alloc(), words, first, second, consumer)?;
    assert!(rt; last.word(1) == Word::of(1, Code::Inactive));
    Ok(())
}
