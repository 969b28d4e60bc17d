ghost use Rattle.std.specs.Prelude.{◌≡◌, ◌<◌, IfOk, OnOk, reverse};
ghost use Rattle.dspec_deeds.specs.Closes.{reports, streams, closed_slot, closed_slots, closing};
ghost use Rattle.dspec_interleaving.specs.Coherent.{IsSlot, progress_of};
ghost use Rattle.dspec_core.specs.{Closings.IsClosable, Closings.ClosesTo, Machines.history, Machines.state_of};

use crate::machine::Machine;
use dspec_buffer::TraceBuffer;
use dspec_interleaving::{Close, Series};
use dspec_record::{Rec, Schema};
use dspec_word::{Act, SpecId, settle_at};
use std::alloc::{AllocError, Global};

impl<S: Schema, B: TraceBuffer<S>> Machine<S, B> {
    // Settles what a slot's speculation still waits for of the CPU, if it waits for it.
    fn close_slot(&mut self, cpu: u32, slot: u32) -> Result<(), AllocError>
        requires closable { IsClosable B.has B.capacity S.shape_of self.old }
        requires cpu { cpu < self.old.config.cpus }
        requires slot { IsSlot self.old.config slot }
        ensures { OnOk result (ClosesTo B.has B.capacity S.shape_of self.old self.new (closed_slot (S.shape_of self.old.schema) self.old.config cpu slot (history self.old))) }
    {
        let place = (slot - 1) as usize;
        let word = self.words[place];
        let Act::Granted = settle_at(word, self.cpus[cpu as usize].side.acks[place]) else {
            return Ok(());
        };
        let id = SpecId::of(word.issue(), slot);
        let fate = self.settle_fate(cpu, id, word.code());
        self.enter_settle(cpu, id, fate)
    }

    // Settles what is still waited for of the CPU, slot by slot upwards.
    fn close_cpu(&mut self, cpu: u32) -> Result<(), AllocError>
        requires closable { IsClosable B.has B.capacity S.shape_of self.old }
        requires cpu { cpu < self.old.config.cpus }
        ensures { OnOk result (ClosesTo B.has B.capacity S.shape_of self.old self.new (closed_slots (S.shape_of self.old.schema) self.old.config cpu self.old.config.nspec (history self.old))) }
    {
        for slot in 0..self.config.nspec {
            self.close_slot(cpu, slot + 1)?;
        }
        Ok(())
    }

    // Settles all that is decided and not acknowledged, CPU by CPU.
    fn close(&mut self) -> Result<(), AllocError>
        requires closable { IsClosable B.has B.capacity S.shape_of self.old }
        ensures { OnOk result (ClosesTo B.has B.capacity S.shape_of self.old self.new (closing (S.shape_of self.old.schema) self.old.config (history self.old))) }
    {
        for cpu in 0..self.config.cpus {
            self.close_cpu(cpu)?;
        }
        Ok(())
    }

    /// Settles, CPU by CPU and slot by slot upwards, what is decided and not acknowledged, and hands out the deeds, the
    /// accepted records and the reports.
    pub fn finish(mut self, alloc: Global) -> Result<Close, AllocError>
        requires closable { IsClosable B.has B.capacity S.shape_of self }
        ensures deeds { IfOk result (λ close. close.deeds ≡ reverse (closing (S.shape_of self.schema) self.config (history self))) }
        ensures accepted { IfOk result (λ close. close.accepted ≡ streams self.config (closing (S.shape_of self.schema) self.config (history self))) }
        ensures reports { IfOk result (λ close. close.reports ≡ reports self.config (λ c. (progress_of (state_of self).progresses c).worn) (closing (S.shape_of self.schema) self.config (history self))) }
    {
        self.close()?;
        let mut accepted = Series::new(alloc);
        let mut reports = Series::new(alloc);
        for cpu in 0..self.config.cpus {
            accepted.push(copied(alloc, self.cpus[cpu as usize].accepted.as_slice())?)?;
            reports.push(self.report(cpu))?;
        }
        Ok(Close {
            deeds: self.deeds,
            accepted,
            reports,
        })
    }
}

// The records, from the first to the last.
fn copied(alloc: Global, recs: &[Rec]) -> Result<Series<Rec>, AllocError>
    ensures { IfOk result (λ copy. copy ≡ recs.now) }
{
    let mut copy = Series::new(alloc);
    for rec in recs {
        copy.push(*rec)?;
    }
    Ok(copy)
}
