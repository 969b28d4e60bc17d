ghost use Rattle.std.specs.Prelude.{◌≡◌, ◌<◌, ◌≤◌, MatchOption};
ghost use Rattle.dspec_table.specs.Seats.{known_there, IsConsumerAt, set_up};
ghost use Rattle.dspec_session_core.specs.{Awaiting.AwaitedIn, Awaiting.Awaited, Awaiting.AwaitedOf, Consumers.IsConsumerOf, Consumers.IsSameConsumer, Consumers.set_up_of, Consumers.view_of};
ghost use Rattle.dspec_cpu.specs.Lists.{words_of};

use crate::cleaning::waits;
use crate::consumer::Consumer;
use dspec_cpu::Shared;
use dspec_deeds::Config;
use dspec_table::{ConsumerSeat, Words};

// Whether a slot's speculation is decided and this CPU hasn't acknowledged it.
fn waits_in(seat: &mut ConsumerSeat, words: &Words, config: &Config, cpu: u32, slot: u32) -> bool
    requires seat { IsConsumerAt words.now seat.old }
    requires config { config.now ≡ set_up words.now }
    requires cpu { cpu < config.now.cpus }
    requires slot { (1 ≤ slot) × (slot ≤ config.now.nspec) }
    ensures seat { IsConsumerAt words.now seat.new }
    ensures awaited { AwaitedIn cpu slot (known_there seat.old) result (known_there seat.new) }
{
    let word = seat.load_word(words, slot);
    if !waits(word.code()) {
        return false;
    }
    seat.load_ack(words, cpu, slot) <= word.issue()
}

// How many slots wait for this CPU.
fn waits_of(seat: &mut ConsumerSeat, words: &Words, config: &Config, cpu: u32) -> u32
    requires seat { IsConsumerAt words.now seat.old }
    requires config { config.now ≡ set_up words.now }
    requires cpu { cpu < config.now.cpus }
    ensures seat { IsConsumerAt words.now seat.new }
    ensures awaited { Awaited cpu result (known_there seat.old) (known_there seat.new) }
{
    let mut count = 0;
    for below in 0..config.nspec {
        if waits_in(seat, words, config, cpu, below + 1) {
            count += 1;
        }
    }
    count
}

impl Consumer {
    /// How many slots wait for a CPU: their speculations are decided, and that CPU hasn't acknowledged it by a service yet. No such slot
    /// is given out again meanwhile. Answers None, and changes nothing, where there is no such CPU. At most two steps for each slot.
    pub fn waiting_for(&mut self, shared: &Shared, cpu: u32) -> Option<u32>
        requires session { IsConsumerOf (words_of shared.now) self.old }
        ensures session { IsConsumerOf (words_of shared.now) self.new }
        ensures same { IsSameConsumer self.old self.new }
        ensures awaited { MatchOption result
            (((set_up_of self.old).cpus ≤ cpu) × (self.new ≡ self.old))
            (λ count. AwaitedOf self.old cpu count self.new) }
        ensures ends { self.new.ends ≡ self.old.ends }
    {
        if cpu >= self.config.cpus {
            return None;
        }
        Some(waits_of(&mut self.seat, shared.words(), &self.config, cpu))
    }
}
