ghost use Rattle.std.specs.Prelude.{ℕ, ◌≡◌, ◌≢◌, ◌<◌, ◌≤◌, true, false, MatchResult, IsOk, IsTrue};
ghost use Rattle.dspec_word.specs.{Code.awaits, Word.CanBeReleased};
ghost use Rattle.dspec_deeds.specs.History.{word_at};
ghost use Rattle.dspec_table.specs.{Conditions.MayReap, Seats.known_there, Seats.IsConsumerAt, Seats.set_up, Steps.LoadedAck, Steps.LookedWord, Steps.ReapedWord};

use crate::layout::{ack_place, slot_place};
use crate::seats::{ConsumerSeat, Words};
use crate::word_steps::{LoadsAck, LooksAtWord, Reaps};
use dspec_word::{Code, Word};

impl ConsumerSeat {
    /// Loads a slot's word.
    pub fn load_word(&mut self, words: &Words, slot: u32) -> Word
        requires seat { IsConsumerAt words.now self.old }
        requires slot { (1 ≤ slot) × (slot ≤ (set_up words.now).nspec) }
        ensures seat { IsConsumerAt words.now self.new }
        ensures step { LookedWord slot (known_there self.old) result (known_there self.new) }
        ensures limit { CanBeReleased result }
    {
        let found = words
            .board
            .shared
            .load::<LooksAtWord>(&mut self.seat, slot_place(slot));
        Word::of_number(found)
    }

    /// Loads a CPU's acknowledgement of a slot: one more than the issue that it settled last, or 0. A word that was shown to wait
    /// for every CPU stands meanwhile.
    pub fn load_ack(&mut self, words: &Words, cpu: u32, slot: u32) -> u64
        requires seat { IsConsumerAt words.now self.old }
        requires cpu { cpu < (set_up words.now).cpus }
        requires slot { (1 ≤ slot) × (slot ≤ (set_up words.now).nspec) }
        ensures seat { IsConsumerAt words.now self.new }
        ensures step { LoadedAck cpu slot (known_there self.old) result (known_there self.new) }
        ensures stands { (s : ℕ) → IsTrue (awaits (word_at s (known_there self.old).seen).code) → word_at s (known_there self.new).seen ≡ word_at s (known_there self.old).seen }
    {
        let place = ack_place(&words.config, cpu, slot);
        words.board.shared.load::<LoadsAck>(&mut self.seat, place)
    }

    /// Releases a slot whose speculation every CPU was shown to have acknowledged, by an exchange, which always succeeds:
    /// nobody else changes a word that waits for every CPU.
    pub fn reap_word(&mut self, words: &Words, slot: u32, from: Word) -> Result<(), Word>
        requires seat { IsConsumerAt words.now self.old }
        requires last { from ≡ word_at slot (known_there self.old).seen }
        requires limit { CanBeReleased from }
        requires call { MayReap (set_up words.now) (known_there self.old) slot from }
        ensures seat { IsConsumerAt words.now self.new }
        ensures step { MatchResult result
            (λ _. ReapedWord slot (known_there self.old) from true (known_there self.new))
            (λ shown. ReapedWord slot (known_there self.old) shown false (known_there self.new)) }
        ensures always { IsOk result }
    {
        let old = from.raw();
        let new = Word::of(from.issue() + 1, Code::Inactive).raw();
        let found = words
            .board
            .shared
            .compare_exchange::<Reaps>(&mut self.seat, slot_place(slot), old, new);
        if found == old {
            return Ok(());
        }
        Err(Word::of_number(found))
    }
}
