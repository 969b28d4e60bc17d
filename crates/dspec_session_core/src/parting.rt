ghost use Rattle.std.specs.Prelude.{◌≡◌, ◌<◌, ◌≤◌, ◌+◌, ◌∷◌, ◌++◌, ℕ, List, length, map, reverse, vec_len, vec_capacity};
ghost use Rattle.dspec_deeds.specs.declared.deed.Deed.{Deed};
ghost use Rattle.dspec_table.specs.{Last.Ended, Last.last_words, Last.last_set_up, Seats.IsConsumerAt, Seats.known_there, Seats.set_up};
ghost use Rattle.dspec_cpu.specs.{KeptRests.rest_with, Lists.seat_of, Rests.AreItsWords, Rests.config_of_rest, Rests.held_back_of_rest, Rests.number_of_rest, Rests.schema_of_rest};
ghost use Rattle.dspec_cpu.specs.{Rests.worn_of_rest, Sealed.waiting, declared.cpu.Cpu.Cpu};
ghost use Rattle.dspec_session_core.specs.Leaving.{AllSteady, AreLeft, AreParting, CanLeave, HasParted, LeavesRest};

use crate::counted::CountedEnd;
use crate::left::Left;
use crate::parted::Parted;
use dspec_cpu::{Cpu, CpuRest, KeptRest, Rested};
use dspec_record::Schema;
use dspec_ring::{CpuEnd, drain_beside};
use dspec_table::{ConsumerSeat, CpuSeat, LastWords, Words};

// What is left of one CPU, once the words are closed.
fn leave<S: Schema>(rest: CpuRest<S>, end: CpuEnd, other: CountedEnd, last: &LastWords) -> Left
    requires pair { other.pair ≡ end.pair }
    requires few { length (waiting (held_back_of_rest rest) ++ reverse end.handed) ≤ 1 + length end.spares }
    requires words { AreItsWords last.now (config_of_rest rest) (number_of_rest rest) }
    requires some { CanLeave (S.shape_of (schema_of_rest rest)) (⟦<CpuRest<S> as Rested>⟧.has_list rest end.handed) (last_words last.now) rest }
    ensures { LeavesRest S.shape_of S.accepted S.text (⟦<CpuRest<S> as Rested>⟧.has_list rest end.handed) (last_words last.now) other.taken result rest }
{
    let mut rest = rest;
    rest.settle(last);
    let report = rest.report();
    let (held_back, active) = rest.batches();
    let mut drained = drain_beside(end, other.into_end());
    let waiting = drained.next();
    Left {
        rest: waiting.or(held_back),
        last: active,
        report,
    }
}

// The same of a CPU whose schema this is. It is a call of its own, so that the room for the schema is free again between two CPUs.
#[inline(never)]
fn leave_kept<S: Schema>(
    rest: KeptRest,
    end: CpuEnd,
    other: CountedEnd,
    schema: &S,
    last: &LastWords,
) -> Left
    requires pair { other.pair ≡ end.pair }
    requires few { length (waiting (held_back_of_rest (rest_with schema.now rest)) ++ reverse end.handed) ≤ 1 + length end.spares }
    requires words { AreItsWords last.now (config_of_rest (rest_with schema.now rest)) (number_of_rest (rest_with schema.now rest)) }
    requires some { CanLeave (S.shape_of schema.now) (⟦<CpuRest<S> as Rested>⟧.has_list (rest_with schema.now rest) end.handed) (last_words last.now) (rest_with schema.now rest) }
    ensures { LeavesRest S.shape_of S.accepted S.text (⟦<CpuRest<S> as Rested>⟧.has_list (rest_with schema.now rest) end.handed) (last_words last.now) other.taken result (rest_with schema.now rest) }
{
    leave(rest.with_schema(*schema), end, other, last)
}

/// Tells what holds of each CPU, as of every one between two of its calls.
pub(crate) fn all_stand<S: Schema>(cpus: &Vec<Cpu<S>>)
    ensures { AllSteady S.shape_of S.accepted S.text cpus.now.items }
{
    for cpu in cpus {
        cpu.invariant();
    }
}

// The first CPU parts from its seat.
#[inline(never)]
fn part_first<S: Schema>(cpus: &mut Vec<Cpu<S>>) -> (CpuSeat, Parted)
    requires { 0 < vec_len cpus.old }
    ensures parted { (cpu : Cpu S) × (cpu ∷ cpus.new.items ≡ cpus.old.items) × (result.0 ≡ seat_of cpu) × HasParted S.shape_of S.accepted S.text cpu result.1 }
    ensures len { vec_len cpus.new + 1 ≡ vec_len cpus.old }
{
    let (seat, end, rest) = cpus.remove(0).part();
    let rest = rest.without_schema();
    (seat, Parted { end, rest })
}

/// Parts the CPUs from their seats, the first number first, closes the words once all seats are there, and tells what is left of
/// each CPU, the last number first. All that it needs room for has room.
pub(crate) fn part_all<S: Schema>(
    words: Words,
    cpus: Vec<Cpu<S>>,
    ends: Vec<CountedEnd>,
    seats: Vec<CpuSeat>,
    parted: Vec<Parted>,
    consumer: ConsumerSeat,
    left: Vec<Left>,
) -> (LastWords, Vec<Left>)
    requires consumer { IsConsumerAt words consumer }
    requires parting { (schema : S) × (p : ℕ → List Deed) × AreParting S.shape_of S.accepted S.text schema words p seats.items cpus.items ends.items }
    requires room { ((set_up words).cpus ≤ vec_capacity seats) × ((set_up words).cpus ≤ vec_capacity left) × (vec_len left ≡ 0) }
    requires parted { (vec_len parted ≡ 0) × (vec_len cpus ≤ vec_capacity parted) }
    ensures config { last_set_up result.0 ≡ set_up words }
    ensures ended { Ended (set_up words) (last_words result.0) (seats.items ++ map (λ (cpu : Cpu S). seat_of cpu) cpus.items) (known_there consumer) }
    ensures left { AreLeft S.shape_of S.accepted S.text (set_up words) (last_words result.0) (length seats.items) cpus.items ends.items (reverse result.1.items) }
    ensures count { vec_len result.1 ≡ vec_len cpus }
{
    if cpus.is_empty() {
        return (words.gather(seats, consumer), left);
    }
    let schema = *cpus[0].schema();
    let (mut cpus, mut ends) = (cpus, ends);
    let (mut seats, mut parted, mut left) = (seats, parted, left);
    while !cpus.is_empty() {
        let (seat, one) = part_first(&mut cpus);
        seats.push(seat).unwrap();
        parted.push(one).unwrap();
    }
    let last = words.gather(seats, consumer);
    while let Some(one) = parted.pop() {
        let other = ends.pop().unwrap();
        let Parted { end, rest } = one;
        let gone = leave_kept(rest, end, other, &schema, &last);
        left.push(gone).unwrap();
    }
    (last, left)
}
