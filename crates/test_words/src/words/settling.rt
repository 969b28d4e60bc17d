//! A decision that waits for every CPU: a meeting shows it, both CPUs settle it, and the consumer releases the slot.
ghost use Rattle.std.specs.Prelude.{◌≡◌, ◌≤◌};
ghost use Rattle.dspec_deeds.specs.declared.calls.CpuOp.TheVariants as op;
ghost use Rattle.dspec_table.specs.Seats.{known, IsAt, IsConsumerAt, set_up, cpu_of};
ghost use Rattle.test_words.specs.Calls.{Unused};

use super::deciding::both_decided;
use super::*;
use crate::calls::begun;
use crate::steps::load_word;
use dspec_word::{Act, SpecId, reap_at, settle_at};

/// A service's visit of the first slot, by a CPU that has settled nothing of it: whether there was something to settle.
fn settled(words: &Words, seat: &mut CpuSeat, call: &Doing) -> bool
    requires seat { IsAt words.now seat.old }
    requires slots { 1 ≤ (set_up words.now).nspec }
    requires op { call.now.op ≡ op.Service }
    requires unused { Unused (set_up words.now) (cpu_of seat.old) (known seat.old).own }
    ensures seat { IsAt words.now seat.new × (cpu_of seat.new ≡ cpu_of seat.old) }
{
    let word = load_word(seat, words, call);
    let Act::Granted = settle_at(word, 0) else {
        return false;
    };
    seat.store_ack(words, 1, word.issue(), call);
    true
}

/// The consumer's visit of the first slot: whether it was released.
fn cleaned(words: &Words, consumer: &mut ConsumerSeat) -> bool
    requires consumer { IsConsumerAt words.now consumer.old }
    requires sizes { ((set_up words.now).cpus ≡ 2) × ((set_up words.now).nspec ≡ 1) }
    ensures consumer { IsConsumerAt words.now consumer.new }
{
    let word = consumer.load_word(words, 1);
    let first = consumer.load_ack(words, 0, 1);
    let second = consumer.load_ack(words, 1, 1);
    if first <= word.issue() {
        return false;
    }
    if second <= word.issue() {
        return false;
    }
    let Act::Attempt(_free) = reap_at(word, true) else {
        return false;
    };
    consumer.reap_word(words, 1, word).is_ok()
}

#[test]
fn a_decision_is_settled(rt: HostRuntime) -> Result<(), Fail> {
    let Ok((words, first, mut second, mut consumer)) = started(rt.alloc()) else {
        return Err(AllocError.into());
    };
    let (mut first, given) = threads::tried(&words, first);
    let id = SpecId::of(0, 1);
    let commit = doing(CpuOp::Commit(id));
    let discard = doing(CpuOp::Discard(id));
    let mut missed = None;
    let mut early = true;
    let mut done = (false, false, false);
    let mut met = Word::of(0, Code::Inactive);
    if given && begun(&words, &mut first, id, &commit) && begun(&words, &mut second, id, &discard) {
        missed = both_decided(&words, &mut first, &mut second, id, &commit, &discard);
    }
    if missed.is_some() {
        let service = doing(CpuOp::Service);
        let one = settled(&words, &mut second, &service);
        second.meet(&words, &mut consumer);
        met = consumer.load_word(&words, 1);
        early = cleaned(&words, &mut consumer);
        let other = settled(&words, &mut first, &service);
        done = (one, other, cleaned(&words, &mut consumer));
    }
    assert!(rt; given && missed == Some(Word::of(0, Code::Discarding)));
    assert!(rt; met == Word::of(0, Code::Discarding) && !early && done == (true, true, true));
    let last = ended(rt.alloc(), words, first, second, consumer)?;
    assert!(rt;
        last.word(1) == Word::of(1, Code::Inactive) && last.ack(0, 1) == 1 && last.ack(1, 1) == 1
    );
    Ok(())
}
