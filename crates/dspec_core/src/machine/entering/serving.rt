ghost use Rattle.std.specs.Prelude.{◌≡◌, ◌≤◌, ◌+◌, ◌∷◌, [], OnOk, OnErr};
ghost use Rattle.dspec_deeds.specs.declared.deed.Deed.TheVariants as deed;
ghost use Rattle.dspec_core.specs.Machines.{Adds, IsShownMachine, MayEnter, MayEnterOn, history, state_of};
ghost use Rattle.dspec_interleaving.specs.Coherent.{IsSlot, progress_of};
ghost use Rattle.dspec_deeds.specs.Own.{seals};

use crate::machine::Machine;
use crate::machine::entering::enter_block;
use dspec_buffer::TraceBuffer;
use dspec_deeds::{DecideFate, Deed};
use dspec_record::Schema;
use dspec_word::{Code, SpecId, Word};
use std::alloc::AllocError;

impl<S: Schema, B: TraceBuffer<S>> Machine<S, B> {
    /// Enters a settlement: the CPU's buffer of the speculation is copied, lost or thrown away, and acknowledged.
    pub fn enter_settle(&mut self, cpu: u32, id: SpecId, fate: DecideFate) -> Result<(), AllocError>
        requires may { MayEnterOn B.has B.capacity S.shape_of self.old cpu (deed.Settle cpu id fate ∷ []) }
        requires slot { IsSlot self.old.config id.slot }
        ensures shown { OnOk result (IsShownMachine B.has B.capacity self.new) }
        ensures entered { OnOk result (Adds (deed.Settle cpu id fate ∷ []) self.old self.new) }
        ensures refused { OnErr result (self.new ≡ self.old) }
    {
        let own = &mut self.cpus[cpu as usize];
        let deed = Deed::Settle(cpu, id, fate);
        let place = (id.slot() - 1) as usize;
        let held = &own.side.speculative[place];
        enter_block(
            &mut self.deeds,
            deed,
            &mut own.accepted,
            &self.schema,
            held,
            fate,
        )?;
        let mine = own.side.is_mine(id);
        own.side.settle::<S>(id, mine, fate);
        Ok(())
    }

    /// Enters that the active buffer is sealed: the other principal buffer, which is spare, becomes active.
    pub fn enter_seal(&mut self, cpu: u32) -> Result<(), AllocError>
        requires may { MayEnterOn B.has B.capacity S.shape_of self.old cpu (deed.Seal cpu ∷ []) }
        requires takes { (progress_of (state_of self.old).progresses cpu).takes ≤ seals cpu (history self.old) }
        ensures shown { OnOk result (IsShownMachine B.has B.capacity self.new) }
        ensures entered { OnOk result (Adds (deed.Seal cpu ∷ []) self.old self.new) }
        ensures refused { OnErr result (self.new ≡ self.old) }
    {
        self.deeds.push(Deed::Seal(cpu))?;
        let own = &mut self.cpus[cpu as usize];
        own.second.clear();
        own.sealed_drops = own.side.seal::<S>(&mut own.second);
        Ok(())
    }

    /// Enters that a slot is released.
    pub fn enter_release(&mut self, slot: u32) -> Result<(), AllocError>
        requires may { MayEnter B.has B.capacity S.shape_of self.old (deed.Release slot ∷ []) }
        requires slot { IsSlot self.old.config slot }
        ensures shown { OnOk result (IsShownMachine B.has B.capacity self.new) }
        ensures entered { OnOk result (Adds (deed.Release slot ∷ []) self.old self.new) }
        ensures refused { OnErr result (self.new ≡ self.old) }
    {
        self.deeds.push(Deed::Release(slot))?;
        let place = (slot - 1) as usize;
        let issue = self.words[place].issue();
        self.words[place] = Word::of(issue + 1, Code::Inactive);
        Ok(())
    }

    /// Enters that the session stops.
    pub fn enter_halt(&mut self) -> Result<(), AllocError>
        requires may { MayEnter B.has B.capacity S.shape_of self.old (deed.Halt ∷ []) }
        ensures shown { OnOk result (IsShownMachine B.has B.capacity self.new) }
        ensures entered { OnOk result (Adds (deed.Halt ∷ []) self.old self.new) }
        ensures refused { OnErr result (self.new ≡ self.old) }
    {
        self.deeds.push(Deed::Halt)?;
        self.halted = true;
        Ok(())
    }
}
