ghost use Rattle.std.specs.Prelude.{◌≡◌, ◌≤◌};
ghost use Rattle.dspec_deeds.specs.declared.calls.CpuOp.TheVariants as op;
ghost use Rattle.dspec_table.specs.{Conditions.OwnCommit, Conditions.CommitsNow, Seats.known, Seats.IsAt, Seats.set_up, Seats.cpu_of, Steps.ReleasedWord};

use crate::doing::Doing;
use crate::layout::slot_place;
use crate::seats::{CpuSeat, Words};
use crate::word_steps::ReleasesWord;
use dspec_deeds::CpuOp;
use dspec_word::{Code, Word};

impl CpuSeat {
    fn release_issue(&mut self, words: &Words, slot: u32, issue: u64)
        requires seat { IsAt words.now self.old }
        requires slot { (1 ≤ slot) × (slot ≤ (set_up words.now).nspec) }
        requires call { OwnCommit (set_up words.now) (known self.old) (cpu_of self.old) record { issue = issue; slot = slot } }
        ensures seat { IsAt words.now self.new × (cpu_of self.new ≡ cpu_of self.old) }
        ensures step { ReleasedWord slot (known self.old) (known self.new) }
    {
        let from = Word::of(issue, Code::Committing);
        let to = Word::of(issue + 1, Code::Inactive);
        words
            .board
            .shared
            .compare_exchange::<ReleasesWord>(
                &mut self.seat,
                slot_place(slot),
                from.raw(),
                to.raw(),
            );
    }

    /// Releases a slot that the seat's CPU has just committed alone, by an exchange that always succeeds.
    pub fn release_word(&mut self, words: &Words, slot: u32, doing: &Doing)
        requires seat { IsAt words.now self.old }
        requires slot { (1 ≤ slot) × (slot ≤ (set_up words.now).nspec) }
        requires call { CommitsNow (set_up words.now) (known self.old) (cpu_of self.old) slot doing.now.op }
        ensures seat { IsAt words.now self.new × (cpu_of self.new ≡ cpu_of self.old) }
        ensures step { ReleasedWord slot (known self.old) (known self.new) }
    {
        let CpuOp::Commit(id) = doing.op else {
            unreachable!();
        };
        self.release_issue(words, slot, id.issue());
    }
}
