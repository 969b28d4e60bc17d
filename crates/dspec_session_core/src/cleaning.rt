ghost use Rattle.std.specs.Prelude.{◌≡◌, ◌<◌, ◌≤◌, true};
ghost use Rattle.dspec_deeds.specs.History.{word_at};
ghost use Rattle.dspec_table.specs.Seats.{known_there, IsConsumerAt, set_up};
ghost use Rattle.dspec_word.specs.Code.{awaits};
ghost use Rattle.dspec_session_core.specs.{Cleaning.IsAcknowledgedBy, Cleaning.CleanedSlot, Cleaning.Cleaned, Consumers.IsConsumerOf, Consumers.IsSameConsumer, Consumers.view_of};
ghost use Rattle.dspec_cpu.specs.Lists.{words_of};

use crate::consumer::Consumer;
use dspec_cpu::Shared;
use dspec_deeds::Config;
use dspec_table::{ConsumerSeat, Words};
use dspec_word::Code;

// Whether a word of this code waits for every CPU.
pub(crate) fn waits(code: Code) -> bool
    ensures { result ≡ awaits code }
{
    matches!(code, Code::CommittingMany | Code::Discarding)
}

// Whether every CPU has acknowledged the issue of the slot. It looks no further than the first that has not.
fn is_acknowledged(
    seat: &mut ConsumerSeat,
    words: &Words,
    config: &Config,
    slot: u32,
    issue: u64,
) -> bool
    requires seat { IsConsumerAt words.now seat.old }
    requires config { config.now ≡ set_up words.now }
    requires slot { (1 ≤ slot) × (slot ≤ config.now.nspec) }
    ensures seat { IsConsumerAt words.now seat.new }
    ensures looked { IsAcknowledgedBy result config.now slot issue (known_there seat.old) (known_there seat.new) }
{
    for cpu in 0..config.cpus {
        if seat.load_ack(words, cpu, slot) <= issue {
            return false;
        }
    }
    true
}

// Releases a slot where its speculation is decided and every CPU has acknowledged it, and says whether it did.
fn clean_slot(seat: &mut ConsumerSeat, words: &Words, config: &Config, slot: u32) -> bool
    requires seat { IsConsumerAt words.now seat.old }
    requires config { config.now ≡ set_up words.now }
    requires slot { (1 ≤ slot) × (slot ≤ config.now.nspec) }
    ensures seat { IsConsumerAt words.now seat.new }
    ensures cleaned { CleanedSlot config.now slot (known_there seat.old) result (known_there seat.new) }
{
    let word = seat.load_word(words, slot);
    if !waits(word.code()) {
        return false;
    }
    if !is_acknowledged(seat, words, config, slot, word.issue()) {
        return false;
    }
    seat.reap_word(words, slot, word).is_ok()
}

// Cleans each slot, upwards, and answers how many it released.
fn clean_slots(seat: &mut ConsumerSeat, words: &Words, config: &Config) -> u32
    requires seat { IsConsumerAt words.now seat.old }
    requires config { config.now ≡ set_up words.now }
    ensures seat { IsConsumerAt words.now seat.new }
    ensures cleaned { Cleaned result (known_there seat.old) (known_there seat.new) }
{
    let mut released = 0;
    for below in 0..config.nspec {
        if clean_slot(seat, words, config, below + 1) {
            released += 1;
        }
    }
    released
}

impl Consumer {
    /// Releases each slot whose speculation is decided and was settled by every CPU, and answers how many. It takes at most two
    /// steps and one for each CPU for a slot.
    pub fn clean(&mut self, shared: &Shared) -> u32
        requires session { IsConsumerOf (words_of shared.now) self.old }
        ensures session { IsConsumerOf (words_of shared.now) self.new }
        ensures same { IsSameConsumer self.old self.new }
        ensures cleaned { Cleaned result (view_of self.old) (view_of self.new) }
        ensures ends { self.new.ends ≡ self.old.ends }
    {
        clean_slots(&mut self.seat, shared.words(), &self.config)
    }
}
