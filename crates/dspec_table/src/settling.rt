ghost use Rattle.std.specs.Prelude.{◌≡◌, ◌<◌, ◌^◌};
ghost use Rattle.dspec_deeds.specs.History.{word_at};
ghost use Rattle.dspec_table.specs.{Conditions.MaySettle, Seats.known, Seats.IsAt, Seats.set_up, Seats.cpu_of, Steps.SettledWord};

use crate::doing::Doing;
use crate::layout::ack_place;
use crate::seats::{CpuSeat, Words};
use crate::word_steps::{HasDoing, StoresAck};
use std::marker::Brand;

impl CpuSeat {
    fn store_ack_as<J: HasDoing>(&mut self, words: &Words, slot: u32, issue: u64, doing: &Doing)
        requires doing { doing.now ≡ J.doing }
        requires seat { IsAt words.now self.old }
        requires issue { issue < 2 ^ 57 }
        requires call { MaySettle (set_up words.now) (known self.old) (cpu_of self.old) record { issue = issue; slot = slot } }
        ensures seat { IsAt words.now self.new × (cpu_of self.new ≡ cpu_of self.old) }
        ensures step { SettledWord J.doing record { issue = issue; slot = slot } (word_at slot (known self.old).seen).code (known self.old) (known self.new) }
    {
        let place = ack_place(&words.config, self.cpu, slot);
        words
            .board
            .shared
            .store::<StoresAck<J>>(&mut self.seat, place, issue + 1);
    }

    /// Settles a speculation whose word was shown decided, and stores the acknowledgement of its issue. A commit is settled by
    /// `fits` and `count` of the CPU's own block, a discard by `count`.
    pub fn store_ack(&mut self, words: &Words, slot: u32, issue: u64, doing: &Doing)
        requires seat { IsAt words.now self.old }
        requires issue { issue < 2 ^ 57 }
        requires call { MaySettle (set_up words.now) (known self.old) (cpu_of self.old) record { issue = issue; slot = slot } }
        ensures seat { IsAt words.now self.new × (cpu_of self.new ≡ cpu_of self.old) }
        ensures step { SettledWord doing.now record { issue = issue; slot = slot } (word_at slot (known self.old).seen).code (known self.old) (known self.new) }
    {
        self.store_ack_as::<Brand>(words, slot, issue, doing);
    }
}
