ghost use Rattle.std.specs.Prelude.{◌≡◌, ◌<◌, true, None};
ghost use Rattle.dspec_interleaving.specs.{Calls.record_passes, Calls.is_about, Coherent.progress_of, Turns.begin_cpu, Turns.begin_consumer};
ghost use Rattle.dspec_core.specs.{Machines.state_of, Worlds.WorldInvariant};

use crate::machine::Machine;
use dspec_buffer::TraceBuffer;
use dspec_deeds::{ConsumerOp, CpuOp};
use dspec_interleaving::{CallPlace, ConsumerFlight};
use dspec_record::Schema;

impl<S: Schema, B: TraceBuffer<S>> Machine<S, B> {
    /// A call of a CPU begins. It takes no atomic step.
    pub fn begin_cpu(&mut self, cpu: u32, op: CpuOp)
        requires kept { WorldInvariant B.has B.capacity S.shape_of S.accepted self.old }
        requires cpu { cpu < self.old.config.cpus }
        requires idle { (progress_of (state_of self.old).progresses cpu).flight ≡ None }
        requires accepted { record_passes (S.accepted self.old.schema) op ≡ true }
        ensures kept { WorldInvariant B.has B.capacity S.shape_of S.accepted self.new }
        ensures state { state_of self.new ≡ begin_cpu cpu op (state_of self.old) }
        ensures schema { self.new.schema ≡ self.old.schema }
    {
        let progress = &mut self.cpus[cpu as usize].progress;
        progress.flight = Some(CallPlace::Begun(op));
        progress.steps = 0;
    }

    /// A call of the consumer begins. It takes no atomic step.
    pub fn begin_consumer(&mut self, op: ConsumerOp)
        requires kept { WorldInvariant B.has B.capacity S.shape_of S.accepted self.old }
        requires about { is_about self.old.config op ≡ true }
        ensures kept { WorldInvariant B.has B.capacity S.shape_of S.accepted self.new }
        ensures state { state_of self.new ≡ begin_consumer op (state_of self.old) }
        ensures schema { self.new.schema ≡ self.old.schema }
    {
        self.consumer.flight = Some(ConsumerFlight::Begun(op));
        self.consumer.steps = 0;
    }
}
