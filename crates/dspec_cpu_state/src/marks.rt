ghost use Rattle.std.specs.Prelude.{◌≡◌, ◌≤◌, ◌+◌, ◌-◌, ◌==◌, ℕ, true, length, replicate, slice_get, slice_set, Some};

use dspec_word::SpecId;
use std::marker::Model;

/// The places of marks: one for each number that an identifier's slot can be.
const PLACES: usize = 64;

/// For each slot one more than the issue last granted to the CPU, or 0. A mark stands at the place of its slot's number, and at all
/// other places stands 0, so that no identifier has to be asked first whether its slot is one of the session's.
#[derive(Drop)]
pub struct Marks {
    held: [u64; PLACES],
    count: u32,
}

impl Model for Marks {
    ghost use Rattle.std.specs.Prelude.{ℕ, List};
    ghost use Rattle.dspec_cpu_state.specs.MarkPlaces.{marks_of, AreMarks};

    ghost Value = { List ℕ };

    ghost view = { marks_of };

    ghost invariant = { AreMarks };
}

impl Marks {
    // No mark, of so many slots.
    pub(crate) fn none(count: u32) -> Marks
        requires few { count ≤ 63 }
        ensures { result ≡ replicate count 0 }
    {
        Marks {
            held: [0; PLACES],
            count,
        }
    }

    /// Whether the mark of the identifier's slot is that of its speculation; false where the slot is none of the session's.
    #[inline(always)]
    pub fn has(&self, id: SpecId) -> bool
        ensures tells { (m : ℕ) → 1 ≤ id.slot → slice_get self.now (id.slot - 1) ≡ Some m → result ≡ (m == id.issue + 1) }
        ensures marked { result ≡ true → (1 ≤ id.slot) × (slice_get self.now (id.slot - 1) ≡ Some (id.issue + 1)) }
    {
        self.held[id.slot() as usize] == id.issue() + 1
    }

    // The mark of a slot.
    #[inline]
    pub(crate) fn of_slot(&self, slot: u32) -> u64
        requires slot { (1 ≤ slot) × (slot ≤ length self.now) }
        ensures { slice_get self.now (slot - 1) ≡ Some result }
    {
        self.held[slot as usize]
    }

    // Marks the identifier's slot with its speculation.
    #[inline(always)]
    pub(crate) fn mark(&mut self, id: SpecId)
        requires slot { (1 ≤ id.slot) × (id.slot ≤ length self.old) }
        ensures { self.new ≡ slice_set self.old (id.slot - 1) (id.issue + 1) }
    {
        self.held[id.slot() as usize] = id.issue() + 1;
    }
}
