ghost use Rattle.std.specs.Prelude.{◌≡◌, ◌<◌, ◌≤◌, MatchBool};
ghost use Rattle.dspec_session_core.specs.{Asking.Asked, Consumers.IsConsumerOf, Consumers.IsSameConsumer, Consumers.set_up_of};
ghost use Rattle.dspec_cpu.specs.Lists.{words_of};

use crate::consumer::Consumer;
use dspec_cpu::Shared;

impl Consumer {
    /// Asks a CPU for the batch after those taken. A service that is shown the ask seals that batch where a spare is in hand or
    /// came back; under policy fill none does. Asking again, before it is taken, asks for the same batch. Answers false, and
    /// changes nothing, where there is no such CPU. One step.
    pub fn ask(&mut self, shared: &Shared, cpu: u32) -> bool
        requires session { IsConsumerOf (words_of shared.now) self.old }
        ensures session { IsConsumerOf (words_of shared.now) self.new }
        ensures same { IsSameConsumer self.old self.new }
        ensures asked { MatchBool result
            ((cpu < (set_up_of self.old).cpus) × Asked cpu self.old self.new)
            (((set_up_of self.old).cpus ≤ cpu) × (self.new ≡ self.old)) }
    {
        if cpu >= self.config.cpus {
            return false;
        }
        let count = self.ends[cpu as usize].taken() + 1;
        self.seat.store_ask(shared.words(), cpu, count);
        true
    }
}
