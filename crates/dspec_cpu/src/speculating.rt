ghost use Rattle.std.specs.Prelude.{◌≡◌, ◌<◌, ◌+◌, ◌-◌, ◌==◌, ◌++◌, true, List, IsTrue, Some, slice_get};
ghost use Rattle.dspec_record.specs.LaidOut.{IsLaidBy};
ghost use Rattle.dspec_deeds.specs.{History.in_range, Marks.mark, declared.deed.Deed.Deed};
ghost use Rattle.dspec_table.specs.Seats.{known};
ghost use Rattle.dspec_cpu.specs.{Calls.Goes, Calls.spoken_deeds, Calls.is_worn_spoken, Keeping.CallLeaves, Lists.IsSameCpu, Lists.config_of, Lists.number_in, Lists.schema_of, Lists.seat_of};
ghost use Rattle.dspec_cpu.specs.{Lists.words_of, Reaching.speculating, Stops.is_stopped_spoken, Touching.of_slot};

use crate::callable::Callable;
use crate::cpu::Cpu;
use crate::listed::Listed;
use crate::parts::CpuParts;
use crate::reaching::{Reach, SlotTurn, go_on};
use crate::shared::Shared;
use dspec_deeds::{SpeculateFate, Spoken};
use dspec_record::{Recorded, Schema};
use dspec_table::HasDoing;
use dspec_word::SpecId;
use std::marker::Brand;

impl<S: Schema> CpuParts<S> {
    // As `Cpu::speculate`. The call stands once for a caller and once for another CPU, so that neither asks which it is, or once
    // for both.
    #[inline(always)]
    pub(crate) fn speculate<R: Recorded>(
        &mut self,
        shared: &Shared,
        id: SpecId,
        rec: R,
        apart: bool,
    ) -> Spoken
        requires ready { ⟦<CpuParts<S> as Callable>⟧.is_ready (words_of shared.now) self.old }
        requires accepted { IsTrue (S.accepted (schema_of self.old) (R.as_record rec)) }
        requires laid { IsLaidBy (S.shape_of (schema_of self.old)) (S.text (schema_of self.old)) (R.as_record rec) (R.laid_as rec) }
        ensures ready { ⟦<CpuParts<S> as Callable>⟧.is_ready (words_of shared.now) self.new }
        ensures same { IsSameCpu self.old self.new }
        ensures leaves { CallLeaves (is_worn_spoken result) (is_stopped_spoken result) 4 (of_slot (config_of self.old) id) self.old self.new }
        ensures did { Goes (known (seat_of self.old)) (spoken_deeds (number_in self.old) id (R.as_record rec) result) (known (seat_of self.new)) }
        ensures list { (p : List Deed) → ⟦<Cpu<S> as Listed>⟧.has_list self.old p
            → ⟦<Cpu<S> as Listed>⟧.has_list self.new (spoken_deeds (number_in self.old) id (R.as_record rec) result ++ p) }
    {
        if self.side.calls >= self.config.max_calls {
            self.side.counts.wear();
            return Spoken::Worn;
        }
        let mine = self.side.marks.has(id);
        // a caller's slot is one of the session's
        if mine && apart {
            return self.offer::<Brand, R>(shared, id, rec, true, true);
        }
        let inside = mine || self.is_inside(id);
        self.offer::<Brand, R>(shared, id, rec, inside, mine)
    }

    // A call that isn't worn, of a CPU of which it is known whether it is a caller. Whether the record fits stands in the CPU's own
    // deeds, so nothing asks for it before `grant` does.
    #[inline(always)]
    fn offer<J: HasDoing, R: Recorded>(
        &mut self,
        shared: &Shared,
        id: SpecId,
        rec: R,
        inside: bool,
        mine: bool,
    ) -> Spoken
        requires ready { ⟦<CpuParts<S> as Callable>⟧.is_ready (words_of shared.now) self.old }
        requires calls { self.old.side.calls < self.old.config.max_calls }
        requires accepted { IsTrue (S.accepted self.old.schema (R.as_record rec)) }
        requires laid { IsLaidBy (S.shape_of self.old.schema) (S.text self.old.schema) (R.as_record rec) (R.laid_as rec) }
        requires inside { inside ≡ in_range self.old.config id }
        requires mine { inside ≡ true → (p : List Deed) → ⟦<Cpu<S> as Listed>⟧.is_shown self.old p → mine ≡ (mark self.old.cpu id.slot p == id.issue + 1) }
        requires doing { J.doing ≡ speculating (S.shape_of self.old.schema) self.old.config self.old.cpu id (R.as_record rec) mine (known (seat_of self.old)).own }
        requires marked { mine ≡ true → slice_get self.old.side.marks (id.slot - 1) ≡ Some (id.issue + 1) }
        ensures ready { ⟦<CpuParts<S> as Callable>⟧.is_ready (words_of shared.now) self.new }
        ensures same { IsSameCpu self.old self.new }
        ensures leaves { CallLeaves (is_worn_spoken result) (is_stopped_spoken result) 4 (of_slot (config_of self.old) id) self.old self.new }
        ensures did { Goes (known (seat_of self.old)) (spoken_deeds (number_in self.old) id (R.as_record rec) result) (known (seat_of self.new)) }
        ensures list { (p : List Deed) → ⟦<Cpu<S> as Listed>⟧.has_list self.old p
            → ⟦<Cpu<S> as Listed>⟧.has_list self.new (spoken_deeds (number_in self.old) id (R.as_record rec) result ++ p) }
    {
        let words = &shared.words;
        let reached = go_on::<J>(&mut self.seat, words, id, inside, SlotTurn::Speculate, mine);
        match reached {
            Reach::Stopped => {
                self.side.speculate_nowhere::<S>(SpeculateFate::Stopped);
                Spoken::Stopped
            }
            Reach::Void => {
                self.side.speculate_nowhere::<S>(SpeculateFate::Void);
                Spoken::Void
            }
            Reach::Granted | Reach::Done(_) => {
                let kept = self.side.grant(&self.schema, id, rec, mine);
                if !kept {
                    return Spoken::Dropped;
                }
                Spoken::Kept
            }
        }
    }
}
