ghost use Rattle.dspec_cpu.specs.Lists.{words_of};
ghost use Rattle.dspec_session_core.specs.{Consumers.IsConsumerOf, Consumers.IsSameConsumer, Stopping.Stopped};

use crate::consumer::Consumer;
use dspec_cpu::Shared;

impl Consumer {
    /// Stops the session: the calls that a stop ends answer Stopped once they are shown it. A second time nothing changes.
    pub fn stop(&mut self, shared: &Shared)
        requires session { IsConsumerOf (words_of shared.now) self.old }
        ensures session { IsConsumerOf (words_of shared.now) self.new }
        ensures same { IsSameConsumer self.old self.new }
        ensures stopped { Stopped self.old self.new }
    {
        self.seat.store_activity(shared.words());
    }
}
