ghost use Rattle.std.specs.Prelude.{ℕ, List, ◌≡◌, ◌≤◌, ◌<◌};
ghost use Rattle.dspec_deeds.specs.{History.word_at, History.ack, declared.deed.Deed.Deed};
ghost use Rattle.dspec_table.specs.{Last.last_words, Last.last_set_up, Showing.Shows};

use crate::last::LastWords;
use crate::layout::{ack_place, slot_place};
use dspec_word::Word;

impl LastWords {
    /// The word of a slot.
    pub fn word(&self, slot: u32) -> Word
        requires slot { (1 ≤ slot) × (slot ≤ (last_set_up self.now).nspec) }
        ensures { (log : List Deed) → Shows (last_set_up self.now) (last_words self.now) log → result ≡ word_at slot log }
    {
        Word::of_number(self.closed.word(slot_place(slot)))
    }

    /// A CPU's acknowledgement of a slot: one more than the issue that it settled last, or 0.
    pub fn ack(&self, cpu: u32, slot: u32) -> u64
        requires cpu { cpu < (last_set_up self.now).cpus }
        requires slot { (1 ≤ slot) × (slot ≤ (last_set_up self.now).nspec) }
        ensures { (log : List Deed) → Shows (last_set_up self.now) (last_words self.now) log → result ≡ ack cpu slot log }
    {
        self.closed.word(ack_place(&self.config, cpu, slot))
    }
}
