ghost use Rattle.std.specs.Prelude.{◌≡◌, ◌≤◌, not};
ghost use Rattle.dspec_deeds.specs.History.{scan};
ghost use Rattle.dspec_table.specs.{Conditions.MayLoad, Seats.known, Seats.IsAt, Seats.set_up, Seats.cpu_of, Steps.LoadedActivity, Steps.LoadedWord};
ghost use Rattle.dspec_word.specs.Word.{CanBeReleased};

use crate::layout::{ACTIVITY_PLACE, slot_place};
use crate::seats::{CpuSeat, Words};
use crate::word_steps::{HasDoing, LoadsActivity, LoadsWord};
use dspec_word::Word;

impl CpuSeat {
    /// Loads whether the session runs: the first step of each of the five calls that a stop ends.
    pub fn load_activity<J: HasDoing>(&mut self, words: &Words) -> bool
        requires seat { IsAt words.now self.old }
        requires idle { scan (set_up words.now) (cpu_of self.old) (known self.old).own ≡ 0 }
        ensures seat { IsAt words.now self.new × (cpu_of self.new ≡ cpu_of self.old) }
        ensures step { LoadedActivity J.doing (known self.old) (not result) (known self.new) }
    {
        let stopped = words
            .board
            .shared
            .load::<LoadsActivity<J>>(&mut self.seat, ACTIVITY_PLACE);
        stopped != 1
    }

    /// Loads a slot's word.
    pub fn load_word<J: HasDoing>(&mut self, words: &Words, slot: u32) -> Word
        requires seat { IsAt words.now self.old }
        requires slot { (1 ≤ slot) × (slot ≤ (set_up words.now).nspec) }
        requires call { MayLoad (set_up words.now) (known self.old) (cpu_of self.old) J.doing slot J.doing.op }
        ensures seat { IsAt words.now self.new × (cpu_of self.new ≡ cpu_of self.old) }
        ensures step { LoadedWord J.doing slot (known self.old) result (known self.new) }
        ensures limit { CanBeReleased result }
    {
        let found = words
            .board
            .shared
            .load::<LoadsWord<J>>(&mut self.seat, slot_place(slot));
        Word::of_number(found)
    }
}
