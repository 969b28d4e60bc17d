ghost use Rattle.std.specs.Prelude.{◌≡◌, ◌≤◌, ◌∷◌, [], OnOk, OnErr};
ghost use Rattle.dspec_deeds.specs.declared.deed.Deed.TheVariants as deed;
ghost use Rattle.dspec_deeds.specs.Own.{calls};
ghost use Rattle.dspec_interleaving.specs.Coherent.{IsSlot};
ghost use Rattle.dspec_core.specs.Machines.{Adds, IsShownMachine, MayEnterOn, history};

use crate::machine::Machine;
use dspec_buffer::TraceBuffer;
use dspec_deeds::Deed;
use dspec_record::Schema;
use dspec_word::{Code, SpecId, Word};
use std::alloc::AllocError;

impl<S: Schema, B: TraceBuffer<S>> Machine<S, B> {
    /// Enters the beginning of a call of speculation.
    pub fn enter_scan(&mut self, cpu: u32, running: bool) -> Result<(), AllocError>
        requires may { MayEnterOn B.has B.capacity S.shape_of self.old cpu (deed.Scan cpu running ∷ []) }
        requires few { calls cpu (history self.old) ≤ self.old.config.max_calls }
        ensures shown { OnOk result (IsShownMachine B.has B.capacity self.new) }
        ensures entered { OnOk result (Adds (deed.Scan cpu running ∷ []) self.old self.new) }
        ensures refused { OnErr result (self.new ≡ self.old) }
    {
        self.deeds.push(Deed::Scan(cpu, running))?;
        let own = &mut self.cpus[cpu as usize];
        own.side.scan::<S>(running);
        Ok(())
    }

    /// Enters that a slot's present speculation is given out.
    pub fn enter_opened(&mut self, cpu: u32, id: SpecId) -> Result<(), AllocError>
        requires may { MayEnterOn B.has B.capacity S.shape_of self.old cpu (deed.Opened cpu id ∷ []) }
        requires slot { IsSlot self.old.config id.slot }
        ensures shown { OnOk result (IsShownMachine B.has B.capacity self.new) }
        ensures entered { OnOk result (Adds (deed.Opened cpu id ∷ []) self.old self.new) }
        ensures refused { OnErr result (self.new ≡ self.old) }
    {
        self.deeds.push(Deed::Opened(cpu, id))?;
        let place = (id.slot() - 1) as usize;
        let issue = self.words[place].issue();
        self.words[place] = Word::of(issue, Code::Active);
        Ok(())
    }

    /// Enters that a slot couldn't be given.
    pub fn enter_miss(&mut self, cpu: u32, slot: u32, busy: bool) -> Result<(), AllocError>
        requires may { MayEnterOn B.has B.capacity S.shape_of self.old cpu (deed.Miss cpu slot busy ∷ []) }
        requires few { calls cpu (history self.old) ≤ self.old.config.max_calls }
        ensures shown { OnOk result (IsShownMachine B.has B.capacity self.new) }
        ensures entered { OnOk result (Adds (deed.Miss cpu slot busy ∷ []) self.old self.new) }
        ensures refused { OnErr result (self.new ≡ self.old) }
    {
        self.deeds.push(Deed::Miss(cpu, slot, busy))?;
        let own = &mut self.cpus[cpu as usize];
        own.side.miss::<S>(&self.config, slot, busy);
        Ok(())
    }
}
