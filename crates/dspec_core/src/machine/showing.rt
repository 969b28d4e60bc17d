ghost use Rattle.std.specs.Prelude.{◌≡◌, ◌<◌, true, slice_get, Some};
ghost use Rattle.dspec_deeds.specs.declared.calls.Actor.TheVariants as actor;
ghost use Rattle.dspec_deeds.specs.{History.in_range, History.issue, History.part, Legal.IsSound, Settling.settle_fate};
ghost use Rattle.dspec_cpu_state.specs.CpuStates.{ShowsList};
ghost use Rattle.dspec_core.specs.{Machines.IsShownMachine, Machines.history, declared.machine.cpu.Cpu.Cpu};

use crate::machine::Machine;
use dspec_buffer::TraceBuffer;
use dspec_cpu_state::settled_as;
use dspec_deeds::DecideFate;
use dspec_record::Schema;
use dspec_word::{Code, SpecId};

impl<S: Schema, B: TraceBuffer<S>> Machine<S, B> {
    /// A CPU's side shows the CPU's own list too: a law of every machine, without a body.
    pub fn shows_own(&self, cpu: u32)
        requires shown { IsShownMachine B.has B.capacity self.now }
        ensures { (own : Cpu B) → slice_get self.now.cpus.items cpu ≡ Some own
            → ShowsList (λ b. B.has b self.now.schema) B.capacity self.now.config cpu (part (actor.Cpu cpu) (history self.now)) own.side }
    {}

    /// The fate of the CPU's buffer of its slot's present speculation where that is settled, by the code of the slot's word.
    pub fn settle_fate(&self, cpu: u32, id: SpecId, code: Code) -> DecideFate
        requires shown { IsShownMachine B.has B.capacity self.now }
        requires cpu { cpu < self.now.config.cpus }
        requires sound { IsSound self.now.config (history self.now) }
        requires slot { in_range self.now.config id ≡ true }
        requires present { id.issue ≡ issue id.slot (history self.now) }
        ensures { result ≡ settle_fate (S.shape_of self.now.schema) self.now.config cpu (history self.now) id code }
    {
        let side = &self.cpus[cpu as usize].side;
        let mine = side.is_mine(id);
        let (fits, count) = side.measure::<S>(&self.config, id, mine);
        settled_as(code, fits, count)
    }
}
