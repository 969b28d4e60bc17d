ghost use Rattle.std.specs.Prelude.{◌≡◌, ◌<◌, ◌≤◌, ℕ, List};
ghost use Rattle.dspec_ring.specs.declared.batch.Batch.{Batch};
ghost use Rattle.dspec_deeds.specs.declared.deed.Deed.{Deed};
ghost use Rattle.dspec_table.specs.{Last.last_words, Seats.known};
ghost use Rattle.dspec_cpu.specs.{Between.SettlesBetween, Between.SettlesBlock, Closing.CanSettleSlot, Closing.SettlesSlot, Lists.IsSameCpu, Lists.config_of, Lists.number_in, Lists.seat_of};
ghost use Rattle.dspec_cpu.specs.{Lists.worn_of, Rests.AreItsWords, Rests.IsSameRest, Rests.config_of_rest, Rests.number_of_rest, Settled.CanSettle, Settled.DueSettled, Settled.IsDueAt};
ghost use Rattle.dspec_cpu.specs.{Settled.KeepsBatches, Settled.SlotDone, Settled.serving, Settled.shown_at};

use crate::callable::Callable;
use crate::cpu::Cpu;
use crate::listed::Listed;
use crate::parts::CpuParts;
use crate::rest::CpuRest;
use crate::rested::Rested;
use dspec_buffer::ByteBuffer;
use dspec_cpu_state::{CpuState, settled_as};
use dspec_deeds::{Config, CpuOp};
use dspec_record::Schema;
use dspec_table::{Doing, LastWords, Words};
use dspec_word::{Act, SpecId, Word, settle_at};
use std::marker::Brand;

/// A call of service in flight, with a block of so many records.
pub(crate) fn serve(fits: bool, count: u32, mine: bool) -> Doing
    ensures { result ≡ serving fits count mine }
{
    Doing {
        op: CpuOp::Service,
        fits,
        count,
        mine,
    }
}

/// Settles a slot's speculation whose word was shown decided, in all that is the CPU's own: its block, which the slot's buffer
/// has exactly where the slot is marked for it, is copied whole, lost or thrown away, and counted, and the slot acknowledged.
/// The call in flight tells what was measured.
pub(crate) fn settle_block<S: Schema>(
    config: &Config,
    side: &mut CpuState<ByteBuffer>,
    word: Word,
    slot: u32,
) -> Doing
    requires slot { slot < 64 }
    requires some { (s : S) × (c : ℕ) × (batches : List Batch) × (p : List Deed)
        × CanSettle (S.shape_of s) (S.accepted s) (S.text s) config.now c side.old batches (shown_at slot word) word.code p }
    ensures op { result.op ≡ CpuOp.Service }
    ensures worn { side.new.counts.worn ≡ side.old.counts.worn }
    ensures seals { side.new.seals ≡ side.old.seals }
    ensures settled { SettlesBlock S.shape_of S.accepted S.text config.now (shown_at slot word) word.code result side.old side.new }
{
    let id = SpecId::of(word.issue(), slot);
    let mine = side.is_mine(id);
    let (fits, count) = side.measure::<S>(config, id, mine);
    side.settle::<S>(id, mine, settled_as(word.code(), fits, count));
    serve(fits, count, mine)
}

impl<S: Schema> CpuParts<S> {
    // Settles the speculation that a slot's word was shown to have, where that is due, and acknowledges its issue. It stands apart
    // from the walk over the slots: what it puts on the stack would be cleared there for each slot, and few have a settlement due.
    #[inline(never)]
    fn settle_due(&mut self, words: &Words, slot: u32, word: Word)
        requires ready { ⟦<CpuParts<S> as Callable>⟧.is_ready words.now self.old }
        requires slot { (1 ≤ slot) × (slot ≤ (config_of self.old).nspec) }
        requires due { IsDueAt (number_in self.old) slot word (known (seat_of self.old)) }
        ensures ready { ⟦<CpuParts<S> as Callable>⟧.is_ready words.now self.new }
        ensures same { IsSameCpu self.old self.new × (worn_of self.new ≡ worn_of self.old) }
        ensures leaves { KeepsBatches self.old self.new }
        ensures settled { DueSettled (number_in self.old) slot word (⟦<Cpu<S> as Listed>⟧.has_list self.old) (known (seat_of self.old)) (⟦<Cpu<S> as Listed>⟧.has_list self.new) (known (seat_of self.new)) }
    {
        // Read for its range: no count is above it.
        let _calls = self.side.calls;
        let doing = settle_block::<S>(&self.config, &mut self.side, word, slot);
        self.seat.store_ack(words, slot, word.issue(), &doing);
    }

    // One slot of a service: its word is loaded, and where it waits for this CPU too, its speculation is settled.
    fn settle_slot(&mut self, words: &Words, slot: u32) -> bool
        requires ready { ⟦<CpuParts<S> as Callable>⟧.is_ready words.now self.old }
        requires slot { (1 ≤ slot) × (slot ≤ (config_of self.old).nspec) }
        ensures ready { ⟦<CpuParts<S> as Callable>⟧.is_ready words.now self.new }
        ensures same { IsSameCpu self.old self.new × (worn_of self.new ≡ worn_of self.old) }
        ensures leaves { KeepsBatches self.old self.new }
        ensures settled { SlotDone (number_in self.old) slot result (⟦<Cpu<S> as Listed>⟧.has_list self.old) (known (seat_of self.old)) (⟦<Cpu<S> as Listed>⟧.has_list self.new) (known (seat_of self.new)) }
    {
        let word = self.seat.load_word::<Brand>(words, slot);
        // asked first by itself: where nobody waits, which is most often, the acknowledgement isn't looked at
        if !word.is_decided() {
            return false;
        }
        match settle_at(word, self.side.acks[slot as usize - 1]) {
            Act::Granted => {
                self.settle_due(words, slot, word);
                true
            }
            _ => false,
        }
    }

    /// The settlements of a service: each slot's word is loaded, upwards, and settled where it waits for this CPU too. The answer
    /// is how many were. It takes at most two steps for a slot.
    pub(crate) fn settle_slots(&mut self, words: &Words) -> u32
        requires ready { ⟦<CpuParts<S> as Callable>⟧.is_ready words.now self.old }
        ensures ready { ⟦<CpuParts<S> as Callable>⟧.is_ready words.now self.new }
        ensures same { IsSameCpu self.old self.new × (worn_of self.new ≡ worn_of self.old) }
        ensures leaves { KeepsBatches self.old self.new }
        ensures settled { SettlesBetween ⟦<Cpu<S> as Listed>⟧.has_list result self.old self.new }
    {
        let mut settled = 0;
        for slot in 1..self.config.nspec + 1 {
            if self.settle_slot(words, slot) {
                settled += 1;
            }
        }
        settled
    }
}

impl<S: Schema> CpuRest<S> {
    /// Settles what the CPU has still to settle in one slot, by the words that the session left.
    pub(crate) fn settle_slot(&mut self, last: &LastWords, slot: u32)
        requires words { AreItsWords last.now (config_of_rest self.old) (number_of_rest self.old) }
        requires slot { (1 ≤ slot) × (slot ≤ (config_of_rest self.old).nspec) }
        requires some { CanSettleSlot ⟦<CpuRest<S> as Rested>⟧.has_list S.shape_of slot (last_words last.now) self.old }
        ensures same { IsSameRest self.old self.new }
        ensures list { SettlesSlot ⟦<CpuRest<S> as Rested>⟧.has_list S.shape_of slot (last_words last.now) self.old self.new }
    {
        // Read for its range: no count is above it.
        let _calls = self.side.calls;
        let word = last.word(slot);
        let Act::Granted = settle_at(word, last.ack(self.cpu, slot)) else {
            return;
        };
        let _ = settle_block::<S>(&self.config, &mut self.side, word, slot);
    }
}
