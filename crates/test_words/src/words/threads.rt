//! Two threads, each with a CPU's seat that it takes, and gives back under a promise.
ghost use Rattle.std.specs.Prelude.{◌≡◌, ◌≤◌, true, IfOk, []};
ghost use Rattle.dspec_table.specs.Seats.{known, IsAt, set_up, cpu_of};
ghost use Rattle.test_words.specs.Calls.{Unused};

use super::*;
use std::sync::Wait;
use std::thread;
use std::thread::{Promise, Threads};

/// The seat that comes back is the same CPU's, at these words.
#[derive(Clone, Copy)]
struct SameCpu<'a> {
    words: &'a Words,
    cpu: u32,
}

impl<'a> Promise<(CpuSeat, bool)> for SameCpu<'a> {
    ghost use Rattle.std.specs.Prelude.{◌≡◌};
    ghost use Rattle.dspec_table.specs.Seats.{IsAt, cpu_of};

    ghost kept_by = { λ p r. IsAt p.words.now r.0 × (cpu_of r.0 ≡ p.cpu) };
}

/// A call of speculation on the first slot: whether it was given.
pub(super) fn tried(words: &Words, mut seat: CpuSeat) -> (CpuSeat, bool)
    requires seat { IsAt words.now seat }
    requires unused { (known seat).own ≡ [] }
    requires slot { 1 ≤ (set_up words.now).nspec }
    requires issues { (set_up words.now).max_issues ≡ 8 }
    ensures seat { IsAt words.now result.0 × (cpu_of result.0 ≡ cpu_of seat) }
    ensures unused { result.1 ≡ true → Unused (set_up words.now) (cpu_of seat) (known result.0).own }
{
    let call = doing(CpuOp::Speculation);
    let given = match shown_free(words, &mut seat, &call) {
        Some(from) => seat.open_word(words, 1, from, &call).is_ok(),
        None => false,
    };
    (seat, given)
}

/// Both CPUs call it at the same time.
fn both_tried<R: Threads + Wait>(
    rt: &R,
    words: &Words,
    first: CpuSeat,
    second: CpuSeat,
) -> Result<((CpuSeat, bool), (CpuSeat, bool)), AllocError>
    requires first { IsAt words.now first × (cpu_of first ≡ 0) × ((known first).own ≡ []) }
    requires second { IsAt words.now second × (cpu_of second ≡ 1) × ((known second).own ≡ []) }
    requires slot { 1 ≤ (set_up words.now).nspec }
    requires issues { (set_up words.now).max_issues ≡ 8 }
    ensures first { IfOk result (λ r. IsAt words.now r.0.0 × (cpu_of r.0.0 ≡ 0)) }
    ensures second { IfOk result (λ r. IsAt words.now r.1.0 × (cpu_of r.1.0 ≡ 1)) }
{
    thread::scope(
        thread::scope_env(),
        rt,
        move |scope| -> Result<((CpuSeat, bool), (CpuSeat, bool)), AllocError>
            requires first { IsAt words.now first × (cpu_of first ≡ 0) × ((known first).own ≡ []) }
            requires second { IsAt words.now second × (cpu_of second ≡ 1) × ((known second).own ≡ []) }
            requires slot { 1 ≤ (set_up words.now).nspec }
            requires issues { (set_up words.now).max_issues ≡ 8 }
            ensures first { IfOk result (λ r. IsAt words.entry.now r.0.0 × (cpu_of r.0.0 ≡ 0)) }
            ensures second { IfOk result (λ r. IsAt words.entry.now r.1.0 × (cpu_of r.1.0 ≡ 1)) }
        {
            let one = scope.spawn_with(
                SameCpu { words, cpu: 0 },
                move || -> (CpuSeat, bool)
                    requires first { IsAt words.now first × (cpu_of first ≡ 0) × ((known first).own ≡ []) }
                    requires slot { 1 ≤ (set_up words.now).nspec }
                    requires issues { (set_up words.now).max_issues ≡ 8 }
                    ensures { IsAt words.entry.now result.0 × (cpu_of result.0 ≡ 0) }
                { tried(words, first) },
            )?;
            let two = scope.spawn_with(
                SameCpu { words, cpu: 1 },
                move || -> (CpuSeat, bool)
                    requires second { IsAt words.now second × (cpu_of second ≡ 1) × ((known second).own ≡ []) }
                    requires slot { 1 ≤ (set_up words.now).nspec }
                    requires issues { (set_up words.now).max_issues ≡ 8 }
                    ensures { IsAt words.entry.now result.0 × (cpu_of result.0 ≡ 1) }
                { tried(words, second) },
            )?;
            Ok((one.join(rt), two.join(rt)))
        },
    )
}

/// Two threads call speculation at the same time on a session of two CPUs and one slot. Exactly one of them is given it, and the
/// slot's word then is of issue 0, and active.
#[test]
fn one_of_two_threads_is_given_it(rt: HostRuntime) -> Result<(), Fail> {
    let alloc = rt.alloc();
    let Ok((words, first, second, consumer)) = started(alloc) else {
        return Err(AllocError.into());
    };
    let ((first, ours), (second, theirs)) = both_tried(&rt, &words, first, second)?;
    let last = ended(alloc, words, first, second, consumer)?;
    assert!(rt; ours != theirs && last.word(1) == Word::of(0, Code::Active));
    Ok(())
}
