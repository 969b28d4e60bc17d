ghost use Rattle.std.specs.Prelude.{◌≡◌, ◌<◌, ◌≤◌, true, false, MatchResult, IfOk, IfErr};
ghost use Rattle.dspec_deeds.specs.declared.calls.CpuOp.TheVariants as op;
ghost use Rattle.dspec_deeds.specs.History.{word_at};
ghost use Rattle.dspec_table.specs.{Conditions.MayOpen, Conditions.as_active, Seats.known, Seats.IsAt, Seats.set_up, Seats.cpu_of, Steps.OpenedWord};
ghost use Rattle.dspec_word.specs.Word.{word_number, CanBeReleased};

use crate::doing::Doing;
use crate::layout::slot_place;
use crate::seats::{CpuSeat, Words};
use crate::word_steps::OpensWord;
use dspec_word::{Code, Word};

impl CpuSeat {
    /// Gives out the speculation of a slot whose word was shown free, by an exchange. It fails where the word is another by
    /// now, and shows it: the slot is missed then, and not tried again.
    pub fn open_word(
        &mut self,
        words: &Words,
        slot: u32,
        from: Word,
        _doing: &Doing,
    ) -> Result<(), Word>
        requires seat { IsAt words.now self.old }
        requires op { _doing.now.op ≡ op.Speculation }
        requires slot { (1 ≤ slot) × (slot ≤ (set_up words.now).nspec) }
        requires call { MayOpen (set_up words.now) (known self.old) (cpu_of self.old) slot from (as_active from) }
        ensures seat { IsAt words.now self.new × (cpu_of self.new ≡ cpu_of self.old) }
        ensures step { MatchResult result
            (λ _. OpenedWord slot (known self.old) from true (known self.new))
            (λ shown. OpenedWord slot (known self.old) shown false (known self.new)) }
        ensures word { IfOk result (λ _. word_at slot (known self.new).seen ≡ as_active from) }
        ensures greater { IfErr result (λ shown. word_number from < word_number shown) }
        ensures limit { IfErr result (λ shown. CanBeReleased shown) }
    {
        let old = from.raw();
        let new = Word::of(from.issue(), Code::Active).raw();
        let found = words
            .board
            .shared
            .compare_exchange::<OpensWord>(&mut self.seat, slot_place(slot), old, new);
        if found == old {
            Ok(())
        } else {
            Err(Word::of_number(found))
        }
    }
}
