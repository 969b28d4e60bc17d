ghost use Rattle.std.specs.Prelude.{◌≡◌, ◌≤◌, ◌∷◌, [], IsTrue, OnOk, OnErr};
ghost use Rattle.dspec_deeds.specs.declared.deed.Deed.TheVariants as deed;
ghost use Rattle.dspec_deeds.specs.{FateKinds.spoken_granted, Own.calls};
ghost use Rattle.dspec_core.specs.Machines.{Adds, IsShownMachine, MayEnterOn, history};

use crate::machine::Machine;
use crate::machine::decision::word_left;
use dspec_buffer::TraceBuffer;
use dspec_deeds::{Deed, SpeculateFate};
use dspec_record::{Rec, Schema};
use dspec_word::{SpecId, speculate_at};
use std::alloc::AllocError;

impl<S: Schema, B: TraceBuffer<S>> Machine<S, B> {
    /// Enters a record of a speculation. Granted, it is kept in the CPU's buffer of it, or dropped; granted nothing, since the identifier
    /// isn't open or the session was stopped, it is counted alone.
    pub fn enter_speculate(
        &mut self,
        cpu: u32,
        id: SpecId,
        rec: &Rec,
        fate: SpeculateFate,
    ) -> Result<(), AllocError>
        requires may { MayEnterOn B.has B.capacity S.shape_of self.old cpu (deed.Speculate cpu id rec.now fate ∷ []) }
        requires few { calls cpu (history self.old) ≤ self.old.config.max_calls }
        requires accepted { IsTrue (S.accepted self.old.schema rec.now) }
        ensures shown { OnOk result (IsShownMachine B.has B.capacity self.new) }
        ensures entered { OnOk result (Adds (deed.Speculate cpu id rec.now fate ∷ []) self.old self.new) }
        ensures refused { OnErr result (self.new ≡ self.old) }
    {
        self.deeds.push(Deed::Speculate(cpu, id, *rec, fate))?;
        let own = &mut self.cpus[cpu as usize];
        if !is_granted(fate) {
            own.side.speculate_nowhere::<S>(fate);
            return Ok(());
        }
        let mine = own.side.is_mine(id);
        own.side.grant(&self.schema, id, rec, mine);
        let place = (id.slot() - 1) as usize;
        let word = self.words[place];
        self.words[place] = word_left(word, speculate_at(word, id, mine));
        Ok(())
    }
}

// Whether the record was granted.
fn is_granted(fate: SpeculateFate) -> bool
    ensures { result ≡ spoken_granted fate }
{
    matches!(fate, SpeculateFate::Kept | SpeculateFate::Dropped)
}
