ghost use Rattle.std.specs.Prelude.{◌≡◌, ◌≤◌, ◌^◌, false, if◌then◌else◌, Some};
ghost use Rattle.dspec_deeds.specs.History.{scan};
ghost use Rattle.dspec_table.specs.Seats.{known, IsAt, set_up, cpu_of};
ghost use Rattle.dspec_cpu.specs.Scans.{LookedAtSlot, Scanned};

use dspec_deeds::{Config, CpuOp, Opening};
use dspec_table::{CpuSeat, Doing, Words};
use dspec_word::{Act, SpecId, open_at};
use std::marker::Brand;

/// What became of one slot: its speculation was given out, or it was missed, decided or not.
pub(crate) enum Look {
    Given(SpecId),
    Missed(bool),
}

// A call of speculation in flight.
fn opening_doing() -> Doing
    ensures { result ≡ record { op = CpuOp.Speculation; fits = false; count = 0; mine = false } }
{
    Doing {
        op: CpuOp::Speculation,
        fits: false,
        count: 0,
        mine: false,
    }
}

// One slot of a scan: its word is loaded, and where that is free an exchange gives out its speculation. An exchange that
// failed isn't tried again: the word that it showed misses the slot.
fn look_at(seat: &mut CpuSeat, words: &Words, slot: u32, max_issues: u64) -> Look
    requires seat { IsAt words.now seat.old }
    requires slot { (1 ≤ slot) × (slot ≤ (set_up words.now).nspec) × (slot ≤ 63) }
    requires most { (max_issues ≡ (set_up words.now).max_issues) × (max_issues ≤ 2 ^ 57) }
    requires came { (scan (set_up words.now) (cpu_of seat.old) (known seat.old).own ≡ slot) × ((known seat.old).flight ≡ Some CpuOp.Speculation) }
    ensures seat { IsAt words.now seat.new × (cpu_of seat.new ≡ cpu_of seat.old) }
    ensures looked { LookedAtSlot (set_up words.now) (cpu_of seat.old) slot (known seat.old) result (known seat.new) }
{
    let word = seat.load_word::<Brand>(words, slot);
    let Act::Attempt(_) = open_at(word, max_issues) else {
        return Look::Missed(word.is_decided());
    };
    match seat.open_word(words, slot, word, &opening_doing()) {
        Ok(()) => Look::Given(SpecId::of(word.issue(), slot)),
        Err(shown) => Look::Missed(shown.is_decided()),
    }
}

// The answer of a scan that missed every slot.
fn none_free(busy: bool) -> Opening
    ensures { result ≡ (if busy then Opening.Busy else Opening.Unavailable) }
{
    if busy {
        Opening::Busy
    } else {
        Opening::Unavailable
    }
}

/// All steps of a call of speculation: a load of activity, and where the session runs the slots in turn, up to one that is given
/// out. With the answer, whether a slot that was missed was decided.
pub(crate) fn scan_slots(seat: &mut CpuSeat, words: &Words, config: &Config) -> (Opening, bool)
    requires seat { IsAt words.now seat.old }
    requires config { (config.now ≡ set_up words.now) × (1 ≤ config.now.nspec) × (config.now.nspec ≤ 63) × (config.now.max_issues ≤ 2 ^ 57) }
    requires idle { scan (set_up words.now) (cpu_of seat.old) (known seat.old).own ≡ 0 }
    ensures seat { IsAt words.now seat.new × (cpu_of seat.new ≡ cpu_of seat.old) }
    ensures scanned { Scanned (set_up words.now) (cpu_of seat.old) (known seat.old) result.0 result.1 (known seat.new) }
{
    if !seat.load_activity::<Brand>(words) {
        return (Opening::Stopped, false);
    }
    let mut busy = false;
    for place in 0..config.nspec {
        match look_at(seat, words, place + 1, config.max_issues) {
            Look::Given(id) => return (Opening::Id(id), busy),
            Look::Missed(was_decided) => busy = was_decided || busy,
        }
    }
    (none_free(busy), busy)
}
