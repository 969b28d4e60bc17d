ghost use Rattle.std.specs.Prelude.{◌≡◌, ◌≤◌, ◌==◌, IfOk};
ghost use Rattle.dspec_table.specs.{Conditions.MayTry, Conditions.OwnCommit, Conditions.IfCommitting, Seats.known, Seats.IsAt, Seats.set_up, Seats.cpu_of, Steps.TriedExchange};

use crate::layout::slot_place;
use crate::seats::{CpuSeat, Words};
use crate::word_steps::{HasDoing, TriesWord};
use dspec_word::Word;

impl CpuSeat {
    /// The exchange that `speculate_at`, `commit_at` or `discard_at` attempts: the CPU is one more caller of the speculation, or
    /// that is committed or discarded. It fails where the word is another by now, and shows it. After an exchange to Committing
    /// the seat releases the slot next.
    pub fn try_word<J: HasDoing>(
        &mut self,
        words: &Words,
        slot: u32,
        from: Word,
        to: Word,
    ) -> Result<(), Word>
        requires seat { IsAt words.now self.old }
        requires slot { (1 ≤ slot) × (slot ≤ (set_up words.now).nspec) }
        requires call { MayTry (set_up words.now) (known self.old) (cpu_of self.old) J.doing slot from to }
        ensures tried { TriedExchange words.now J.doing slot from to self.old self.new result }
        ensures release { IfOk result (λ _. IfCommitting to.code (OwnCommit (set_up words.now) (known self.new) (cpu_of self.new) record { issue = to.issue; slot = slot })) }
    {
        let found = words
            .board
            .shared
            .compare_exchange::<TriesWord<J>>(
                &mut self.seat,
                slot_place(slot),
                from.raw(),
                to.raw(),
            );
        if found == from.raw() {
            return Ok(());
        }
        Err(Word::of_number(found))
    }
}
