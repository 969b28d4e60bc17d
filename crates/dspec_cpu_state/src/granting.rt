ghost use Rattle.std.specs.Prelude.{◌≡◌, ◌<◌, ◌≤◌, ◌+◌, ◌-◌, ◌^◌, ◌==◌, ℕ, true, false, List, length, slice_get, slice_set, Some, IsTrue, if◌then◌else◌};
ghost use Rattle.dspec_record.specs.{LaidOut.IsLaidBy, Record.Record};
ghost use Rattle.dspec_word.specs.SpecId.{Speculation};
ghost use Rattle.dspec_deeds.specs.{CpuShown.last_called, FateKinds.spoken_granted, Own.dropped_in, Own.held, declared.config.Config.Config, declared.deed.Deed.Deed};
ghost use Rattle.dspec_deeds.specs.{declared.deed.Deed.TheVariants.Speculate};
ghost use Rattle.dspec_cpu_state.specs.{Counting.IsRoomy, Counting.with_spoken, CpuStates.ShowsList, Showing.ChangesAt, Showing.KeepsRecord, Showing.ShowsGrant, Showing.ShowsNext};
ghost use Rattle.dspec_cpu_state.specs.{Showing.TellsSlotRoom, Showing.kept_grant};

use crate::cpu_state::CpuState;
use crate::marks::Marks;
use dspec_buffer::TraceBuffer;
use dspec_deeds::SpeculateFate;
use dspec_record::{Recorded, Schema};
use dspec_word::SpecId;

// Marks the speculation as granted and keeps the record, where it fits, in its buffer. What that has and has dropped of an older
// speculation is forgotten before. False where it doesn't fit.
#[inline(always)]
fn mark_and_keep<S: Schema, B: TraceBuffer<S>, R: Recorded>(
    marks: &mut Marks,
    specdrops: &mut Vec<u64>,
    buffers: &mut Vec<B>,
    schema: &S,
    id: SpecId,
    rec: R,
    mine: bool,
) -> bool
    requires slot { (1 ≤ id.slot) × (id.slot ≤ length buffers.old.items) × (id.slot ≤ length marks.old) × (id.slot ≤ length specdrops.old.items) }
    requires marked { mine ≡ true → slice_get marks.old (id.slot - 1) ≡ Some (id.issue + 1) }
    requires accepted { IsTrue (S.accepted schema.now (R.as_record rec)) }
    requires laid { IsLaidBy (S.shape_of schema.now) (S.text schema.now) (R.as_record rec) (R.laid_as rec) }
    ensures marks { marks.new ≡ slice_set marks.old (id.slot - 1) (id.issue + 1) }
    ensures specdrops { specdrops.new.items ≡ (if mine then specdrops.old.items else slice_set specdrops.old.items (id.slot - 1) 0) }
    ensures buffer { ChangesAt B.capacity (id.slot - 1) buffers.old.items buffers.new.items
        (KeepsRecord (λ b. B.has b schema.now) B.capacity (S.shape_of schema.now) mine (R.as_record rec) result) }
{
    let place = id.slot() as usize - 1;
    if !mine {
        marks.mark(id);
        specdrops[place] = 0;
    }
    let buffer = &mut buffers[place];
    if !mine {
        buffer.clear();
    }
    buffer.push_recorded(schema, rec)
}

// Counts one drop more from the speculation's buffer. No CPU makes so many calls that the count stays at its most.
#[inline]
fn count_specdrop(specdrops: &mut Vec<u64>, id: SpecId)
    requires slot { (1 ≤ id.slot) × (id.slot ≤ length specdrops.old.items) }
    ensures { (n : ℕ) → slice_get specdrops.old.items (id.slot - 1) ≡ Some n → n + 1 < 2 ^ 64 → specdrops.new.items ≡ slice_set specdrops.old.items (id.slot - 1) (n + 1) }
{
    let place = id.slot() as usize - 1;
    specdrops[place] = specdrops[place].saturating_add(1);
}

impl<B> CpuState<B> {
    /// Whether the CPU is a caller of the speculation, by the slot's mark.
    #[inline]
    pub fn is_mine(&self, id: SpecId) -> bool
        requires slot { (1 ≤ id.slot) × (id.slot ≤ length self.now.marks) }
        ensures tells { (m : ℕ) → slice_get self.now.marks (id.slot - 1) ≡ Some m → result ≡ (m == id.issue + 1) }
        ensures marked { result ≡ true → slice_get self.now.marks (id.slot - 1) ≡ Some (id.issue + 1) }
    {
        self.marks.has(id)
    }

    /// How many records were dropped from the CPU's buffer of the speculation since the CPU became a caller of it; 0 where it is
    /// none.
    #[inline]
    pub fn dropped_in<S: Schema>(&self, id: SpecId) -> u64
    where
        B: TraceBuffer<S>,
        requires slot { (1 ≤ id.slot) × (id.slot ≤ length self.now.marks) × (id.slot ≤ length self.now.specdrops.items) }
        ensures { (s : S) (k : Config) (c : ℕ) (p : List Deed) → ShowsList (λ b. B.has b s) B.capacity k c p self.now → result ≡ dropped_in c id p }
    {
        if !self.is_mine(id) {
            return 0;
        }
        self.specdrops[id.slot() as usize - 1]
    }

    /// The mark of a slot, and how many records the CPU's buffer there has: they are of the speculation that the mark is of.
    #[inline]
    pub fn last_kept<S: Schema>(&self, slot: u32) -> (u64, u32)
    where
        B: TraceBuffer<S>,
        requires slot { (1 ≤ slot) × (slot ≤ length self.now.marks) × (slot ≤ length self.now.speculative.items) }
        ensures mark { slice_get self.now.marks (slot - 1) ≡ Some result.0 }
        ensures count { (s : S) (k : Config) (c : ℕ) (p : List Deed) → ShowsList (λ b. B.has b s) B.capacity k c p self.now → result.1 ≡ length (held c (last_called c slot p) p) }
    {
        let count = self.speculative[slot as usize - 1].count();
        (self.marks.of_slot(slot), count)
    }

    /// Offers a record to a speculation that was granted to the CPU, of which it was a caller before or not: marked as granted,
    /// it is kept, or dropped where it doesn't fit the rest of the CPU's buffer.
    #[inline(always)]
    pub fn grant<S, R>(&mut self, schema: &S, id: SpecId, rec: R, mine: bool) -> bool
    where
        S: Schema,
        R: Recorded,
        B: TraceBuffer<S>,
        requires slot { (1 ≤ id.slot) × (id.slot ≤ length self.old.speculative.items) × (id.slot ≤ length self.old.marks) × (id.slot ≤ length self.old.specdrops.items) }
        requires marked { mine ≡ true → slice_get self.old.marks (id.slot - 1) ≡ Some (id.issue + 1) }
        requires accepted { IsTrue (S.accepted schema.now (R.as_record rec)) }
        requires laid { IsLaidBy (S.shape_of schema.now) (S.text schema.now) (R.as_record rec) (R.laid_as rec) }
        requires calls { self.old.calls + 1 < 2 ^ 64 }
        requires counts { IsRoomy self.old.counts }
        ensures answer { (k : Config) (c : ℕ) (p : List Deed) → TellsSlotRoom (λ b. B.has b schema.now) B.capacity k c p
            (S.shape_of schema.now) id mine (R.as_record rec) self.old result }
        ensures shows { (k : Config) (c : ℕ) (p : List Deed) → ShowsGrant (λ b. B.has b schema.now) B.capacity k c p
            id mine (R.as_record rec) result self.old self.new }
        ensures counts { self.new.counts ≡ with_spoken (kept_grant result) self.old.counts }
        ensures rest { self.new ≡ record self.old { calls = self.old.calls + 1; marks = self.new.marks; specdrops = self.new.specdrops; speculative = self.new.speculative; counts = self.new.counts } }
    {
        self.calls += 1;
        if !mark_and_keep(
            &mut self.marks,
            &mut self.specdrops,
            &mut self.speculative,
            schema,
            id,
            rec,
            mine,
        ) {
            count_specdrop(&mut self.specdrops, id);
            self.counts.speculate(SpeculateFate::Dropped);
            return false;
        }
        self.counts.speculate(SpeculateFate::Kept);
        true
    }

    /// Counts a record that was granted nothing: the identifier isn't open, or the session was stopped.
    #[inline]
    pub fn speculate_nowhere<S: Schema>(&mut self, fate: SpeculateFate)
    where
        B: TraceBuffer<S>,
        requires nowhere { spoken_granted fate ≡ false }
        requires calls { self.old.calls + 1 < 2 ^ 64 }
        requires counts { IsRoomy self.old.counts }
        ensures shows { (s : S) (k : Config) (c : ℕ) (p : List Deed) (id : Speculation) (r : Record)
            → ShowsNext (λ b. B.has b s) B.capacity k c p (Speculate c id r fate) self.old self.new }
        ensures rest { self.new ≡ record self.old { calls = self.old.calls + 1; counts = with_spoken fate self.old.counts } }
    {
        self.calls += 1;
        self.counts.speculate(fate);
    }
}
