ghost use Rattle.std.specs.Prelude.{◌≡◌, ◌≤◌, ◌+◌, ◌==◌, true};
ghost use Rattle.dspec_deeds.specs.{History.in_range, History.scan, Marks.mark};
ghost use Rattle.dspec_table.specs.{Conditions.IsInFlight, Conditions.IsOn, Seats.known, Seats.IsAt, Seats.set_up, Seats.cpu_of};
ghost use Rattle.dspec_cpu.specs.{Reached.Reached, Reaching.act_reached, Reaching.EndsAtWord, Reaching.OwnsCommit, Reaching.TakesTurn};

use dspec_table::{CpuSeat, Doing, HasDoing, Words};
use dspec_word::{Act, SpecId, Word, commit_at, discard_at, speculate_at};

/// How far a call on an identifier came: to a stop, to a word that made it void, to one that grants, or to an exchange that
/// succeeded, with the word that it left.
pub(crate) enum Reach {
    Stopped,
    Void,
    Granted,
    Done(Word),
}

/// Which call on an identifier it is.
#[derive(Clone, Copy)]
pub(crate) enum SlotTurn {
    Speculate,
    Commit,
    Discard,
}

// The steps on the word of the identifier's slot: a load, then exchanges, up to a word that the table doesn't attempt or to
// an exchange that succeeds. One that failed showed a later word.
#[inline(always)]
fn work<J: HasDoing>(
    seat: &mut CpuSeat,
    words: &Words,
    slot: u32,
    id: SpecId,
    turn: SlotTurn,
    mine: bool,
) -> Act
    requires seat { IsAt words.now seat.old }
    requires slot { (1 ≤ slot) × (slot ≤ (set_up words.now).nspec) }
    requires on { IsOn id J.doing.op }
    requires turn { TakesTurn turn id mine J.doing }
    requires call { IsInFlight (set_up words.now) (known seat.old) (cpu_of seat.old) J.doing id slot }
    ensures seat { IsAt words.now seat.new × (cpu_of seat.new ≡ cpu_of seat.old) }
    ensures ended { EndsAtWord (set_up words.now) (cpu_of seat.old) J.doing id slot (known seat.old) result (known seat.new) }
    ensures release { OwnsCommit (set_up words.now) (cpu_of seat.new) slot (known seat.new) result }
{
    let mut word = seat.load_word::<J>(words, slot);
    loop {
        let act = match turn {
            SlotTurn::Speculate => speculate_at(word, id, mine),
            SlotTurn::Commit => commit_at(word, id, mine),
            SlotTurn::Discard => discard_at(word, id, mine),
        };
        let Act::Attempt(to) = act else {
            return act;
        };
        match seat.try_word::<J>(words, slot, word, to) {
            Ok(()) => return act,
            Err(shown) => word = shown,
        }
    }
}

/// All steps of a call on an identifier but the release of its own commit: a load of activity, and where the session runs and
/// the slot is one of it, the steps on its word.
#[inline(always)]
pub(crate) fn go_on<J: HasDoing>(
    seat: &mut CpuSeat,
    words: &Words,
    id: SpecId,
    inside: bool,
    turn: SlotTurn,
    mine: bool,
) -> Reach
    requires seat { IsAt words.now seat.old }
    requires idle { scan (set_up words.now) (cpu_of seat.old) (known seat.old).own ≡ 0 }
    requires on { IsOn id J.doing.op }
    requires turn { TakesTurn turn id mine J.doing }
    requires inside { inside ≡ in_range (set_up words.now) id }
    requires mine { inside ≡ true → J.doing.mine ≡ (mark (cpu_of seat.old) id.slot (known seat.old).own == id.issue + 1) }
    ensures seat { IsAt words.now seat.new × (cpu_of seat.new ≡ cpu_of seat.old) }
    ensures reached { Reached (set_up words.now) (cpu_of seat.old) J.doing id (known seat.old) result (known seat.new) }
    ensures release { OwnsCommit (set_up words.now) (cpu_of seat.new) id.slot (known seat.new) (act_reached result) }
{
    if !seat.load_activity::<J>(words) {
        return Reach::Stopped;
    }
    if !inside {
        return Reach::Void;
    }
    match work::<J>(seat, words, id.slot(), id, turn, mine) {
        Act::Attempt(to) => Reach::Done(to),
        Act::Granted => Reach::Granted,
        Act::Void => Reach::Void,
        Act::Idle => unreachable!(),
    }
}

/// The same of a call that is known as it runs.
#[inline(always)]
pub(crate) fn go_on_as<J: HasDoing>(
    seat: &mut CpuSeat,
    words: &Words,
    id: SpecId,
    inside: bool,
    turn: SlotTurn,
    doing: &Doing,
) -> Reach
    requires seat { IsAt words.now seat.old }
    requires idle { scan (set_up words.now) (cpu_of seat.old) (known seat.old).own ≡ 0 }
    requires on { IsOn id J.doing.op }
    requires turn { TakesTurn turn id doing.now.mine J.doing }
    requires inside { inside ≡ in_range (set_up words.now) id }
    requires mine { inside ≡ true → J.doing.mine ≡ (mark (cpu_of seat.old) id.slot (known seat.old).own == id.issue + 1) }
    ensures seat { IsAt words.now seat.new × (cpu_of seat.new ≡ cpu_of seat.old) }
    ensures reached { Reached (set_up words.now) (cpu_of seat.old) J.doing id (known seat.old) result (known seat.new) }
    ensures release { OwnsCommit (set_up words.now) (cpu_of seat.new) id.slot (known seat.new) (act_reached result) }
{
    go_on::<J>(seat, words, id, inside, turn, doing.mine)
}
