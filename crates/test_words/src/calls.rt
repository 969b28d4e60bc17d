//! Steps of a call on a speculation of the first slot, by a CPU that is no caller.
ghost use Rattle.std.specs.Prelude.{◌≡◌, ◌≤◌, true, false};
ghost use Rattle.dspec_deeds.specs.declared.calls.CpuOp.TheVariants as op;
ghost use Rattle.dspec_table.specs.{Conditions.IsOn, Conditions.MayLoad, Seats.known, Seats.IsAt, Seats.set_up, Seats.cpu_of};
ghost use Rattle.test_words.specs.Calls.{Unused};

use crate::steps::{load_activity, load_word, try_word};
use dspec_deeds::CpuOp;
use dspec_table::{CpuSeat, Doing, Words};
use dspec_word::{Act, Code, SpecId, commit_at};

/// A call of this kind, with nothing to keep, by a CPU that is no caller.
pub fn doing(op: CpuOp) -> Doing
    ensures op { result.op ≡ op }
    ensures mine { result.mine ≡ false }
{
    Doing {
        op,
        fits: false,
        count: 0,
        mine: false,
    }
}

/// The first step of a call on a speculation of the first slot, by a CPU that is no caller: whether the session runs.
pub fn begun(words: &Words, seat: &mut CpuSeat, id: SpecId, call: &Doing) -> bool
    requires seat { IsAt words.now seat.old }
    requires slots { (1 ≤ (set_up words.now).nspec) × (id.slot ≡ 1) }
    requires on { IsOn id call.now.op }
    requires unused { Unused (set_up words.now) (cpu_of seat.old) (known seat.old).own }
    requires mine { call.now.mine ≡ false }
    ensures seat { IsAt words.now seat.new × (cpu_of seat.new ≡ cpu_of seat.old) }
    ensures may { result ≡ true → MayLoad (set_up words.now) (known seat.new) (cpu_of seat.old) call.now 1 call.now.op × Unused (set_up words.now) (cpu_of seat.old) (known seat.new).own }
{
    load_activity(seat, words, call)
}

/// The other steps of a commit, up to the release: whether it went by Committing, and was released.
pub fn committed(words: &Words, seat: &mut CpuSeat, id: SpecId, call: &Doing) -> bool
    requires seat { IsAt words.now seat.old }
    requires slots { (1 ≤ (set_up words.now).nspec) × (id.slot ≡ 1) }
    requires op { call.now.op ≡ op.Commit id }
    requires may { MayLoad (set_up words.now) (known seat.old) (cpu_of seat.old) call.now 1 call.now.op }
    requires unused { Unused (set_up words.now) (cpu_of seat.old) (known seat.old).own }
    ensures seat { IsAt words.now seat.new × (cpu_of seat.new ≡ cpu_of seat.old) }
    ensures unused { result ≡ true → Unused (set_up words.now) (cpu_of seat.old) (known seat.new).own }
{
    let from = load_word(seat, words, call);
    let Act::Attempt(to) = commit_at(from, id, call.mine) else {
        return false;
    };
    let Ok(()) = try_word(seat, words, from, to, call) else {
        return false;
    };
    if to.code() != Code::Committing {
        return false;
    }
    seat.release_word(words, 1, call);
    true
}
