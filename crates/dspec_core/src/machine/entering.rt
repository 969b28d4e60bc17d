//! What each deed makes of a machine. Room is taken first, so that a refused growth changes nothing.
ghost use Rattle.std.specs.Prelude.{◌≡◌, ◌<◌, ◌++◌, ◌^◌, List, [], ◌∷◌, length, map, reverse, OnOk, OnErr, if◌then◌else◌};
ghost use Rattle.dspec_record.specs.Record.{Record};
ghost use Rattle.dspec_buffer.specs.Extent.{one};
ghost use Rattle.dspec_deeds.specs.FateKinds.{is_copied};
ghost use Rattle.dspec_core.specs.{Machines.Adds, Machines.IsShownMachine, Table.entry_deeds, Worlds.MayCome};

mod deciding;
mod scanning;
mod serving;
mod speculating;
mod tracing;

use crate::machine::Machine;
use crate::machine::decision::Decision;
use crate::machine::seen::Entry;
use crate::machine::walking::append_records;
use dspec_buffer::TraceBuffer;
use dspec_deeds::{DecideFate, Deed};
use dspec_interleaving::Series;
use dspec_record::{Rec, Schema};
use std::alloc::AllocError;

impl<S: Schema, B: TraceBuffer<S>> Machine<S, B> {
    /// Enters what a CPU's step enters, all of it or nothing.
    pub fn enter(&mut self, cpu: u32, entry: Entry) -> Result<(), AllocError>
        requires cpu { cpu < self.old.config.cpus }
        requires next { MayCome B.has B.capacity S.shape_of S.accepted self.old (entry_deeds cpu entry) }
        ensures shown { OnOk result (IsShownMachine B.has B.capacity self.new) }
        ensures entered { OnOk result (Adds (entry_deeds cpu entry) self.old self.new) }
        ensures refused { OnErr result (self.new ≡ self.old) }
    {
        match entry {
            Entry::Nothing => Ok(()),
            Entry::One(deed) => match deed {
                Deed::Trace(cpu, rec, fate) => self.enter_trace(cpu, &rec, fate),
                Deed::Scan(cpu, running) => self.enter_scan(cpu, running),
                Deed::Opened(cpu, id) => self.enter_opened(cpu, id),
                Deed::Miss(cpu, slot, busy) => self.enter_miss(cpu, slot, busy),
                Deed::Speculate(cpu, id, rec, fate) => self.enter_speculate(cpu, id, &rec, fate),
                Deed::Commit(cpu, id, fate) => self.enter_decision(cpu, Decision::Commit, id, fate),
                Deed::Discard(cpu, id, fate) => self.enter_decision(
                    cpu,
                    Decision::Discard,
                    id,
                    fate,
                ),
                Deed::Settle(cpu, id, fate) => self.enter_settle(cpu, id, fate),
                Deed::Seal(cpu) => self.enter_seal(cpu),
                Deed::Release(slot) => self.enter_release(slot),
                Deed::Halt => self.enter_halt(),
            },
            Entry::Alone(id, count) => {
                self.enter_solo_discard(cpu, id, DecideFate::Thrown(count))
            }
        }
    }
}

// Enters a deed that ends the block of a speculative buffer: its records go to the stream where the fate copies them. A refused
// growth changes nothing.
#[tactic(auto, using(crate::proofs::Batches::records_of_ones))]
fn enter_block<S: Schema, B: TraceBuffer<S>>(
    deeds: &mut Series<Deed>,
    deed: Deed,
    accepted: &mut Series<Rec>,
    schema: &S,
    block: &B,
    fate: DecideFate,
) -> Result<(), AllocError>
    ensures deeds { OnOk result (deeds.new ≡ deeds.old ++ deed ∷ []) }
    ensures countable { OnOk result (length deeds.new < 2 ^ 64) }
    ensures streamed { OnOk result ((rs : List Record) → B.has block.now schema.now (map one rs) → accepted.new ≡ accepted.old ++ (if is_copied fate then reverse rs else [])) }
    ensures no_deed { OnErr result (deeds.new ≡ deeds.old) }
    ensures no_record { OnErr result (accepted.new ≡ accepted.old) }
{
    let before = deeds.len();
    deeds.push(deed)?;
    let DecideFate::Copied(_) = fate else {
        return Ok(());
    };
    match append_records(accepted, schema, block) {
        Ok(()) => Ok(()),
        Err(refused) => {
            deeds.truncate(before);
            Err(refused)
        }
    }
}
