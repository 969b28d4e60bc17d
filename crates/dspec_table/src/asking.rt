ghost use Rattle.std.specs.Prelude.{◌≡◌, ◌<◌, ◌≤◌, slice_index};
ghost use Rattle.dspec_deeds.specs.declared.calls.CpuOp.TheVariants as op;
ghost use Rattle.dspec_table.specs.{Asks.StoredAsk, Asks.LoadedAsk, Seats.known, Seats.known_there, Seats.IsAt, Seats.IsConsumerAt, Seats.set_up, Seats.cpu_of};

use crate::doing::Doing;
use crate::layout::ask_place;
use crate::seats::{ConsumerSeat, CpuSeat, Words};
use crate::word_steps::{LoadsAsk, StoresAsk};

impl ConsumerSeat {
    /// Stores how many batches the consumer wants of a CPU in all, never less than before.
    pub fn store_ask(&mut self, words: &Words, cpu: u32, count: u64)
        requires seat { IsConsumerAt words.now self.old }
        requires cpu { cpu < (set_up words.now).cpus }
        requires rises { slice_index (known_there self.old).asks cpu ≤ count }
        ensures seat { IsConsumerAt words.now self.new }
        ensures step { StoredAsk cpu count (known_there self.old) (known_there self.new) }
    {
        let place = ask_place(&words.config, cpu);
        words
            .board
            .shared
            .store::<StoresAsk>(&mut self.seat, place, count);
    }
}

impl CpuSeat {
    /// Loads how many batches the consumer wants of the CPU in all. It is no less than any ask that the CPU knew.
    pub fn load_ask(&mut self, words: &Words, _doing: &Doing) -> u64
        requires seat { IsAt words.now self.old }
        requires op { _doing.now.op ≡ op.Service }
        ensures seat { IsAt words.now self.new × (cpu_of self.new ≡ cpu_of self.old) }
        ensures step { LoadedAsk (cpu_of self.old) (known self.old) result (known self.new) }
    {
        let place = ask_place(&words.config, self.cpu);
        words.board.shared.load::<LoadsAsk>(&mut self.seat, place)
    }
}
