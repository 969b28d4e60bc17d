//! Steps of a call that is known as it runs: each is told the call by a marker, which is picked here.
ghost use Rattle.std.specs.Prelude.{◌≡◌, ◌≤◌, not, IfOk};
ghost use Rattle.dspec_deeds.specs.History.{scan};
ghost use Rattle.dspec_table.specs.{Conditions.IfCommitting, Conditions.MayLoad, Conditions.MayTry, Conditions.OwnCommit, Seats.known, Seats.IsAt, Seats.set_up, Seats.cpu_of, Steps.LoadedActivity};
ghost use Rattle.dspec_table.specs.{Steps.LoadedWord, Steps.TriedExchange};
ghost use Rattle.dspec_word.specs.Word.{CanBeReleased};

use dspec_table::{CpuSeat, Doing, HasDoing, Words};
use dspec_word::Word;
use std::marker::Brand;

#[inline(always)]
fn load_activity_as<J: HasDoing>(seat: &mut CpuSeat, words: &Words, _doing: &Doing) -> bool
    requires idle { scan (set_up words.now) (cpu_of seat.old) (known seat.old).own ≡ 0 }
    requires seat { IsAt words.now seat.old }
    ensures seat { IsAt words.now seat.new × (cpu_of seat.new ≡ cpu_of seat.old) }
    ensures step { LoadedActivity J.doing (known seat.old) (not result) (known seat.new) }
{
    seat.load_activity::<J>(words)
}

/// The load of activity.
#[inline(always)]
pub fn load_activity(seat: &mut CpuSeat, words: &Words, doing: &Doing) -> bool
    requires seat { IsAt words.now seat.old }
    requires idle { scan (set_up words.now) (cpu_of seat.old) (known seat.old).own ≡ 0 }
    ensures seat { IsAt words.now seat.new × (cpu_of seat.new ≡ cpu_of seat.old) }
    ensures step { LoadedActivity doing.now (known seat.old) (not result) (known seat.new) }
{
    load_activity_as::<Brand>(seat, words, doing)
}

#[inline(always)]
fn load_word_as<J: HasDoing>(seat: &mut CpuSeat, words: &Words, _doing: &Doing) -> Word
    requires seat { IsAt words.now seat.old }
    requires slots { 1 ≤ (set_up words.now).nspec }
    requires call { MayLoad (set_up words.now) (known seat.old) (cpu_of seat.old) J.doing 1 J.doing.op }
    ensures seat { IsAt words.now seat.new × (cpu_of seat.new ≡ cpu_of seat.old) }
    ensures step { LoadedWord J.doing 1 (known seat.old) result (known seat.new) }
    ensures limit { CanBeReleased result }
{
    seat.load_word::<J>(words, 1)
}

/// The load of the first slot's word.
#[inline(always)]
pub fn load_word(seat: &mut CpuSeat, words: &Words, doing: &Doing) -> Word
    requires seat { IsAt words.now seat.old }
    requires slots { 1 ≤ (set_up words.now).nspec }
    requires call { MayLoad (set_up words.now) (known seat.old) (cpu_of seat.old) doing.now 1 doing.now.op }
    ensures seat { IsAt words.now seat.new × (cpu_of seat.new ≡ cpu_of seat.old) }
    ensures step { LoadedWord doing.now 1 (known seat.old) result (known seat.new) }
    ensures limit { CanBeReleased result }
{
    load_word_as::<Brand>(seat, words, doing)
}

#[inline(always)]
fn try_word_as<J: HasDoing>(
    seat: &mut CpuSeat,
    words: &Words,
    from: Word,
    to: Word,
    _doing: &Doing,
) -> Result<(), Word>
    requires seat { IsAt words.now seat.old }
    requires slots { 1 ≤ (set_up words.now).nspec }
    requires call { MayTry (set_up words.now) (known seat.old) (cpu_of seat.old) J.doing 1 from to }
    ensures tried { TriedExchange words.now J.doing 1 from to seat.old seat.new result }
    ensures release { IfOk result (λ _. IfCommitting to.code (OwnCommit (set_up words.now) (known seat.new) (cpu_of seat.new) record { issue = to.issue; slot = 1 })) }
{
    seat.try_word::<J>(words, 1, from, to)
}

/// The exchange of the first slot's word.
#[inline(always)]
pub fn try_word(
    seat: &mut CpuSeat,
    words: &Words,
    from: Word,
    to: Word,
    doing: &Doing,
) -> Result<(), Word>
    requires seat { IsAt words.now seat.old }
    requires slots { 1 ≤ (set_up words.now).nspec }
    requires call { MayTry (set_up words.now) (known seat.old) (cpu_of seat.old) doing.now 1 from to }
    ensures tried { TriedExchange words.now doing.now 1 from to seat.old seat.new result }
    ensures release { IfOk result (λ _. IfCommitting to.code (OwnCommit (set_up words.now) (known seat.new) (cpu_of seat.new) record { issue = to.issue; slot = 1 })) }
{
    try_word_as::<Brand>(seat, words, from, to, doing)
}
