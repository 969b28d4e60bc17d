ghost use Rattle.std.specs.Prelude.{◌≡◌, ◌<◌, ◌≤◌, ◌++◌, ◌^◌, ◌∷◌, [], length, IsTrue, OnOk, OnErr, if◌then◌else◌};
ghost use Rattle.dspec_deeds.specs.declared.deed.Deed.TheVariants as deed;
ghost use Rattle.dspec_deeds.specs.{FateKinds.trace_kept, Own.calls};
ghost use Rattle.dspec_core.specs.Machines.{Adds, IsShownMachine, MayEnterOn, history};

use crate::machine::Machine;
use dspec_buffer::TraceBuffer;
use dspec_deeds::{Deed, TraceFate};
use dspec_interleaving::Series;
use dspec_record::{Rec, Schema};
use std::alloc::AllocError;

impl<S: Schema, B: TraceBuffer<S>> Machine<S, B> {
    /// Enters what became of a traced record.
    pub fn enter_trace(&mut self, cpu: u32, rec: &Rec, fate: TraceFate) -> Result<(), AllocError>
        requires may { MayEnterOn B.has B.capacity S.shape_of self.old cpu (deed.Trace cpu rec.now fate ∷ []) }
        requires few { calls cpu (history self.old) ≤ self.old.config.max_calls }
        requires accepted { IsTrue (S.accepted self.old.schema rec.now) }
        ensures shown { OnOk result (IsShownMachine B.has B.capacity self.new) }
        ensures entered { OnOk result (Adds (deed.Trace cpu rec.now fate ∷ []) self.old self.new) }
        ensures refused { OnErr result (self.new ≡ self.old) }
    {
        let own = &mut self.cpus[cpu as usize];
        let deed = Deed::Trace(cpu, *rec, fate);
        enter_record(&mut self.deeds, deed, &mut own.accepted, rec, fate)?;
        if let TraceFate::Stopped = fate {
            own.side.trace_stopped::<S>();
            return Ok(());
        }
        let closed = own.side.is_closed(&self.config);
        own.side.trace(&self.schema, rec, closed);
        Ok(())
    }
}

// Enters a deed that traces a record: it goes to the stream where the fate keeps it. A refused growth changes nothing.
fn enter_record(
    deeds: &mut Series<Deed>,
    deed: Deed,
    accepted: &mut Series<Rec>,
    rec: &Rec,
    fate: TraceFate,
) -> Result<(), AllocError>
    ensures deeds { OnOk result (deeds.new ≡ deeds.old ++ deed ∷ []) }
    ensures countable { OnOk result (length deeds.new < 2 ^ 64) }
    ensures streamed { OnOk result (accepted.new ≡ accepted.old ++ (if trace_kept fate then rec.now ∷ [] else [])) }
    ensures no_deed { OnErr result (deeds.new ≡ deeds.old) }
    ensures no_record { OnErr result (accepted.new ≡ accepted.old) }
{
    let before = deeds.len();
    deeds.push(deed)?;
    if matches!(fate, TraceFate::Kept) && accepted.push(*rec).is_err() {
        deeds.truncate(before);
        return Err(AllocError);
    }
    Ok(())
}
