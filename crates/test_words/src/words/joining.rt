//! Two CPUs that call speculate on one speculation of the first slot, of which one misses and tries again.
ghost use Rattle.std.specs.Prelude.{◌≡◌, ◌≤◌, true, false};
ghost use Rattle.dspec_record.specs.Record.{Record};
ghost use Rattle.dspec_deeds.specs.declared.calls.CpuOp.TheVariants as op;
ghost use Rattle.dspec_table.specs.{Conditions.MayLoad, Seats.known, Seats.IsAt, Seats.set_up, Seats.cpu_of};

use super::deciding::shown;
use super::*;
use crate::calls::begun;
use crate::steps::try_word;
use dspec_record::Rec;
use dspec_word::{Act, SpecId, speculate_at};

/// Both are shown the word before either joins. The first joins; the second's exchange fails, shows the word with one caller, and
/// its next one joins too.
fn both_joined(
    words: &Words,
    first: &mut CpuSeat,
    second: &mut CpuSeat,
    id: SpecId,
    rec: Rec,
    call: &Doing,
) -> Option<Word>
    requires first { IsAt words.now first.old × MayLoad (set_up words.now) (known first.old) (cpu_of first.old) call.now 1 call.now.op }
    requires second { IsAt words.now second.old × MayLoad (set_up words.now) (known second.old) (cpu_of second.old) call.now 1 call.now.op }
    requires slots { 1 ≤ (set_up words.now).nspec }
    requires op { call.now.op ≡ op.Speculate id rec }
    ensures first { IsAt words.now first.new × (cpu_of first.new ≡ cpu_of first.old) }
    ensures second { IsAt words.now second.new × (cpu_of second.new ≡ cpu_of second.old) }
{
    let ours = shown(words, first, call);
    let theirs = shown(words, second, call);
    let Act::Attempt(first_to) = speculate_at(ours, id, call.mine) else {
        return None;
    };
    let Act::Attempt(second_to) = speculate_at(theirs, id, call.mine) else {
        return None;
    };
    let Ok(()) = try_word(first, words, ours, first_to, call) else {
        return None;
    };
    let Err(word) = try_word(second, words, theirs, second_to, call) else {
        return None;
    };
    let Act::Attempt(again) = speculate_at(word, id, call.mine) else {
        return None;
    };
    let Ok(()) = try_word(second, words, word, again, call) else {
        return None;
    };
    Some(word)
}

#[test]
fn two_callers(rt: HostRuntime) -> Result<(), Fail> {
    let Ok((words, first, mut second, consumer)) = started(rt.alloc()) else {
        return Err(AllocError.into());
    };
    let (mut first, given) = threads::tried(&words, first);
    let id = SpecId::of(0, 1);
    let Some(rec) = Rec::new(1, &[]) else {
        return Err("a record".into());
    };
    let call = doing(CpuOp::Speculate(id, rec));
    let mut missed = None;
    if given && begun(&words, &mut first, id, &call) && begun(&words, &mut second, id, &call) {
        missed = both_joined(&words, &mut first, &mut second, id, rec, &call);
    }
    assert!(rt; given && missed == Some(Word::of(0, Code::ActiveOne)));
    let last = ended(rt.alloc(), words, first, second, consumer)?;
    assert!(rt; last.word(1) == Word::of(0, Code::ActiveMany));
    Ok(())
}
