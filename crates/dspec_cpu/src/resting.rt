ghost use Rattle.std.specs.Prelude.{◌≡◌, List};
ghost use Rattle.dspec_deeds.specs.declared.deed.Deed.{Deed};
ghost use Rattle.dspec_ring.specs.declared.batch.Batch.{Batch};
ghost use Rattle.dspec_table.specs.Last.{last_words};
ghost use Rattle.dspec_cpu.specs.Closing.{CanSettleAll, GivesBatches, HasLegalList, ReportsLists, SettlesAll};
ghost use Rattle.dspec_cpu.specs.Lists.{IsSteady, config_of, end_of, held_back_of, number_in, schema_of, seat_of, worn_of};
ghost use Rattle.dspec_cpu.specs.Rests.{AreItsWords, IsSameRest, config_of_rest, held_back_of_rest, last_batch, number_of_rest, schema_of_rest, worn_of_rest};

use crate::cpu::Cpu;
use crate::listed::Listed;
use crate::parts::CpuParts;
use crate::rest::CpuRest;
use crate::rested::Rested;
use dspec_cpu_state::CpuState;
use dspec_deeds::Report;
use dspec_record::Schema;
use dspec_ring::{Batch, CpuEnd};
use dspec_table::{CpuSeat, LastWords};

impl<S: Schema> Cpu<S> {
    /// Takes the CPU apart for the close of its session: its seat at the words, its end of the rings, and what is left. A spare
    /// buffer in hand is let go.
    pub fn part(self) -> (CpuSeat, CpuEnd, CpuRest<S>)
        ensures steady { IsSteady (S.shape_of (schema_of self)) (S.accepted (schema_of self)) (S.text (schema_of self)) self }
        ensures seat { result.0 ≡ seat_of self }
        ensures end { result.1 ≡ end_of self }
        ensures same { (schema_of_rest result.2 ≡ schema_of self) × (config_of_rest result.2 ≡ config_of self) × (number_of_rest result.2 ≡ number_in self) }
        ensures rest { (held_back_of_rest result.2 ≡ held_back_of self) × (worn_of_rest result.2 ≡ worn_of self) }
        ensures list { (p : List Deed) → ⟦<Cpu<S> as Listed>⟧.is_shown self p → ⟦<CpuRest<S> as Rested>⟧.has_list result.2 (end_of self).handed p }
    {
        let CpuParts {
            schema,
            config,
            cpu,
            seat,
            end,
            side,
            spare: _,
            held_back,
        } = self.parts;
        let rest = CpuRest {
            schema,
            config,
            cpu,
            side,
            held_back,
        };
        (seat, end, rest)
    }
}

impl<S: Schema> CpuRest<S> {
    /// Settles, slots upwards, what the CPU has still to settle, by the words that the session left: of each speculation that was
    /// decided and waits for this CPU too, its block is copied whole to the active buffer, lost or thrown away.
    pub fn settle(&mut self, last: &LastWords)
        requires words { AreItsWords last.now (config_of_rest self.old) (number_of_rest self.old) }
        requires some { CanSettleAll ⟦<CpuRest<S> as Rested>⟧.has_list S.shape_of (last_words last.now) self.old }
        ensures same { IsSameRest self.old self.new }
        ensures list { SettlesAll ⟦<CpuRest<S> as Rested>⟧.has_list S.shape_of (last_words last.now) self.old self.new }
    {
        for below in 0..self.config.nspec {
            self.settle_slot(last, below + 1);
        }
    }

    /// The counts of the CPU.
    pub fn report(&self) -> Report
        requires { HasLegalList ⟦<CpuRest<S> as Rested>⟧.has_list S.shape_of self.now }
        ensures { ReportsLists ⟦<CpuRest<S> as Rested>⟧.has_list S.shape_of self.now result }
    {
        self.side.counts.report()
    }

    /// The batch whose hand-over was refused, if there is one, and the batch that was growing last.
    pub fn batches(self) -> (Option<Batch>, Batch)
        ensures rest { result.0 ≡ held_back_of_rest self }
        ensures last { result.1 ≡ last_batch self }
        ensures sealed { GivesBatches ⟦<CpuRest<S> as Rested>⟧.has_list S.shape_of S.accepted S.text self result.0 result.1 }
    {
        let CpuRest {
            cpu,
            side,
            held_back,
            ..
        } = self;
        let CpuState { active, drops, .. } = side;
        let last = Batch {
            cpu,
            drops,
            buffer: active,
        };
        (held_back, last)
    }
}
