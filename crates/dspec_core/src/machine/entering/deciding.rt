ghost use Rattle.std.specs.Prelude.{◌≡◌, ◌≤◌, ◌∷◌, [], true, OnOk, OnErr};
ghost use Rattle.dspec_deeds.specs.declared.deed.Deed.TheVariants as deed;
ghost use Rattle.dspec_deeds.specs.{FateKinds.is_discard, Own.calls};
ghost use Rattle.dspec_core.specs.{Decisions.deed_of, Machines.Adds, Machines.IsShownMachine, Machines.MayEnterOn, Machines.history};

use crate::machine::Machine;
use crate::machine::decision::Decision;
use crate::machine::entering::enter_block;
use dspec_buffer::TraceBuffer;
use dspec_deeds::{DecideFate, Deed};
use dspec_record::Schema;
use dspec_word::{Code, SpecId, Word};
use std::alloc::AllocError;

impl<S: Schema, B: TraceBuffer<S>> Machine<S, B> {
    /// Enters a commit or a discard. Where it decides, the CPU's block of the speculation is copied, lost or thrown away; where it decides
    /// nothing, since the identifier isn't open or the session was stopped, it is counted alone.
    pub fn enter_decision(
        &mut self,
        cpu: u32,
        decision: Decision,
        id: SpecId,
        fate: DecideFate,
    ) -> Result<(), AllocError>
        requires may { MayEnterOn B.has B.capacity S.shape_of self.old cpu (deed_of decision cpu id fate ∷ []) }
        requires few { calls cpu (history self.old) ≤ self.old.config.max_calls }
        ensures shown { OnOk result (IsShownMachine B.has B.capacity self.new) }
        ensures entered { OnOk result (Adds (deed_of decision cpu id fate ∷ []) self.old self.new) }
        ensures refused { OnErr result (self.new ≡ self.old) }
    {
        let deed = decision.deed(cpu, id, fate);
        if !decision.decides(fate) {
            self.deeds.push(deed)?;
            let own = &mut self.cpus[cpu as usize];
            own.side.leave_undecided::<S>(fate);
            return Ok(());
        }
        let own = &mut self.cpus[cpu as usize];
        let place = (id.slot() - 1) as usize;
        let block = &own.side.speculative[place];
        enter_block(
            &mut self.deeds,
            deed,
            &mut own.accepted,
            &self.schema,
            block,
            fate,
        )?;
        let mine = own.side.is_mine(id);
        own.side.decide::<S>(id, mine, fate);
        let word = self.words[place];
        self.words[place] = decision.leaves(word, id, mine);
        Ok(())
    }

    /// Enters a discard by the one caller, which releases the slot in the same step.
    pub fn enter_solo_discard(
        &mut self,
        cpu: u32,
        id: SpecId,
        fate: DecideFate,
    ) -> Result<(), AllocError>
        requires may { MayEnterOn B.has B.capacity S.shape_of self.old cpu (deed.Release id.slot ∷ deed.Discard cpu id fate ∷ []) }
        requires discard { is_discard fate ≡ true }
        ensures shown { OnOk result (IsShownMachine B.has B.capacity self.new) }
        ensures entered { OnOk result (Adds (deed.Release id.slot ∷ deed.Discard cpu id fate ∷ []) self.old self.new) }
        ensures refused { OnErr result (self.new ≡ self.old) }
    {
        let before = self.deeds.len();
        self.deeds.push(Deed::Discard(cpu, id, fate))?;
        if self.deeds.push(Deed::Release(id.slot())).is_err() {
            self.deeds.truncate(before);
            return Err(AllocError);
        }
        let own = &mut self.cpus[cpu as usize];
        let mine = own.side.is_mine(id);
        own.side.decide::<S>(id, mine, fate);
        let place = (id.slot() - 1) as usize;
        let issue = self.words[place].issue();
        self.words[place] = Word::of(issue + 1, Code::Inactive);
        Ok(())
    }
}
