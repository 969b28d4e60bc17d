//! Exchanges on a slot's word by another thread, one speculation after another: each is given out, committed and released.
ghost use Rattle.std.specs.Prelude.{◌≡◌, ◌<◌, ◌^◌, false, IfSome};
ghost use Rattle.dspec_deeds.specs.declared.calls.CpuOp.TheVariants as op;
ghost use Rattle.dspec_table.specs.Seats.{known, IsAt, set_up, cpu_of};
ghost use Rattle.test_words.specs.Calls.{Unused};

use dspec_deeds::CpuOp;
use dspec_table::{CpuSeat, Doing, Words};
use dspec_word::{Code, SpecId, Word};
use test_words::calls::{begun, committed};
use test_words::steps::{load_activity, load_word};

/// The most rounds that one thread makes.
const MOST_ROUNDS: u32 = 1_000_000_000;

/// A speculation of the first slot is given out, by two loads and an exchange.
fn given(words: &Words, seat: &mut CpuSeat, call: &Doing) -> Option<Word>
    requires seat { IsAt words.now seat.old }
    requires unused { Unused (set_up words.now) (cpu_of seat.old) (known seat.old).own }
    requires op { call.now.op ≡ op.Speculation }
    requires slots { (set_up words.now).nspec ≡ 1 }
    requires issues { (set_up words.now).max_issues ≡ 2 ^ 57 }
    ensures seat { IsAt words.now seat.new × (cpu_of seat.new ≡ cpu_of seat.old) }
    ensures unused { IfSome result (λ _. Unused (set_up words.now) (cpu_of seat.old) (known seat.new).own) }
    ensures issue { IfSome result (λ word. word.issue < 2 ^ 57) }
{
    if !load_activity(seat, words, call) {
        return None;
    }
    let word = load_word(seat, words, call);
    if word.code() != Code::Inactive || word.issue() >= 1 << 57 {
        return None;
    }
    let Ok(()) = seat.open_word(words, 1, word, call) else {
        return None;
    };
    Some(word)
}

/// Round after round, until the session is stopped or another CPU has the slot.
pub fn stir(words: &Words, mut seat: CpuSeat) -> CpuSeat
    requires seat { IsAt words.now seat }
    requires unused { Unused (set_up words.now) (cpu_of seat) (known seat).own }
    requires slots { (set_up words.now).nspec ≡ 1 }
    requires issues { (set_up words.now).max_issues ≡ 2 ^ 57 }
    ensures seat { IsAt words.now result × (cpu_of result ≡ cpu_of seat) }
{
    let open = Doing {
        op: CpuOp::Speculation,
        fits: false,
        count: 0,
        mine: false,
    };
    for _ in 0..MOST_ROUNDS {
        let Some(word) = given(words, &mut seat, &open) else {
            break;
        };
        let id = SpecId::of(word.issue(), 1);
        let commit = Doing {
            op: CpuOp::Commit(id),
            ..open
        };
        if !begun(words, &mut seat, id, &commit) {
            break;
        }
        if !committed(words, &mut seat, id, &commit) {
            break;
        }
    }
    seat
}
