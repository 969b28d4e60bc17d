//! Seats in turn on one thread.
ghost use Rattle.std.specs.Prelude.{◌≡◌, ◌≤◌, IfOk, IfSome, true, [], ◌∷◌};
ghost use Rattle.dspec_deeds.specs.declared.deed.Deed.TheVariants.{Scan};
ghost use Rattle.dspec_table.specs.{Conditions.MayOpen, Conditions.as_active, Last.last_set_up, Seats.known, Seats.known_there, Seats.IsAt, Seats.IsConsumerAt, Seats.set_up, Seats.cpu_of};
ghost use Rattle.test_words.specs.Calls.{Unused};

use crate::calls::doing;
use crate::steps::{load_activity, load_word};
use dspec_deeds::{Config, CpuOp, StartFault};
use dspec_samples::sized;
use dspec_table::{ConsumerSeat, CpuSeat, Doing, LastWords, Words};
use dspec_word::{Code, Word};
use std::alloc::{AllocError, Global};
use std::process::Abort;
use std::test::Fail;

mod deciding;
mod growths;
mod joining;
mod meetings;
mod refusals;
mod settling;
mod threads;

/// Two CPUs and one slot, with eight issues and a hundred calls of a CPU.
fn small() -> Config
    ensures sizes { (result.cpus ≡ 2) × (result.nspec ≡ 1) }
    ensures issues { result.max_issues ≡ 8 }
{
    sized(2, 1, 64, 64)
}

/// The words of a small session, and its three seats.
fn started(alloc: Global) -> Result<(Words, CpuSeat, CpuSeat, ConsumerSeat), StartFault>
    ensures first { IfOk result (λ r. IsAt r.0 r.1 × (cpu_of r.1 ≡ 0) × ((known r.1).own ≡ [])) }
    ensures second { IfOk result (λ r. IsAt r.0 r.2 × (cpu_of r.2 ≡ 1) × ((known r.2).own ≡ [])) }
    ensures consumer { IfOk result (λ r. IsConsumerAt r.0 r.3 × ((known_there r.3).asks ≡ []) × ((known_there r.3).own ≡ [])) }
    ensures unused { IfOk result (λ r. Unused (set_up r.0) 0 (known r.1).own × Unused (set_up r.0) 1 (known r.2).own) }
    ensures sizes { IfOk result (λ r. ((set_up r.0).cpus ≡ 2) × ((set_up r.0).nspec ≡ 1) × ((set_up r.0).max_issues ≡ 8)) }
{
    let (words, mut seats, consumer) = Words::start(alloc, &small())?;
    let second = seats.pop().unwrap();
    let first = seats.pop().unwrap();
    Ok((words, first, second, consumer))
}

/// The words once the three seats are back.
fn ended(
    alloc: Global,
    words: Words,
    first: CpuSeat,
    second: CpuSeat,
    consumer: ConsumerSeat,
) -> Result<LastWords, AllocError>
    requires first { IsAt words first × (cpu_of first ≡ 0) }
    requires second { IsAt words second × (cpu_of second ≡ 1) }
    requires consumer { IsConsumerAt words consumer }
    requires sizes { ((set_up words).cpus ≡ 2) × ((set_up words).nspec ≡ 1) }
    ensures sizes { IfOk result (λ last. ((last_set_up last).cpus ≡ 2) × ((last_set_up last).nspec ≡ 1)) }
{
    let mut seats = Vec::new(alloc);
    seats.push(first)?;
    seats.push(second)?;
    Ok(words.gather(seats, consumer))
}

/// The first steps of a speculation by a CPU that has done nothing, where they show the first slot free.
fn shown_free(words: &Words, seat: &mut CpuSeat, call: &Doing) -> Option<Word>
    requires seat { IsAt words.now seat.old }
    requires unused { (known seat.old).own ≡ [] }
    requires op { call.now.op ≡ CpuOp.Speculation }
    requires slot { 1 ≤ (set_up words.now).nspec }
    requires issues { (set_up words.now).max_issues ≡ 8 }
    ensures seat { IsAt words.now seat.new × (cpu_of seat.new ≡ cpu_of seat.old) }
    ensures began { IfSome result (λ _. (known seat.new).own ≡ Scan (cpu_of seat.old) true ∷ []) }
    ensures free { IfSome result (λ from. MayOpen (set_up words.now) (known seat.new) (cpu_of seat.new) 1 from (as_active from)) }
{
    if !load_activity(seat, words, call) {
        return None;
    }
    let word = load_word(seat, words, call);
    if word.code() != Code::Inactive || word.issue() >= 8 {
        return None;
    }
    Some(word)
}

#[test]
fn one_speculation_is_given_out(rt: HostRuntime) -> Result<(), Fail> {
    let Ok((words, mut first, mut second, consumer)) = started(rt.alloc()) else {
        return Err(AllocError.into());
    };
    let call = doing(CpuOp::Speculation);
    let ours = shown_free(&words, &mut first, &call);
    let theirs = shown_free(&words, &mut second, &call);
    let (Some(ours), Some(theirs)) = (ours, theirs) else {
        return Err("free twice".into());
    };
    let given = first.open_word(&words, 1, ours, &call);
    let missed = second.open_word(&words, 1, theirs, &call);
    assert!(rt; given == Ok(()) && missed == Err(Word::of(0, Code::Active)));
    let last = ended(rt.alloc(), words, first, second, consumer)?;
    assert!(rt; last.word(1) == Word::of(0, Code::Active) && last.ack(0, 1) == 0);
    Ok(())
}
