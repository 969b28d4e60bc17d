ghost use Rattle.std.specs.Prelude.{◌≡◌, ◌<◌, None};
ghost use Rattle.dspec_interleaving.specs.Coherent.{progress_of};
ghost use Rattle.dspec_deeds.specs.{Legal.IsAllowed, Ranges.start_fault, Reports.report};
ghost use Rattle.dspec_core.specs.Machines.{IsShownMachine, history, state_of};

use crate::machine::Machine;
use dspec_buffer::TraceBuffer;
use dspec_deeds::Report;
use dspec_record::Schema;

impl<S: Schema, B: TraceBuffer<S>> Machine<S, B> {
    /// The counts of a CPU so far. It takes no atomic step.
    pub fn report(&self, cpu: u32) -> Report
        requires shown { IsShownMachine B.has B.capacity self.now }
        requires fine { start_fault self.now.config ≡ None }
        requires legal { IsAllowed (S.shape_of self.now.schema) self.now.config (history self.now) }
        requires cpu { cpu < self.now.config.cpus }
        ensures { result ≡ report self.now.config cpu (progress_of (state_of self.now).progresses cpu).worn (history self.now) }
    {
        self.cpus[cpu as usize].side.counts.report()
    }
}
