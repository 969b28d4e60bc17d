use crate::consumer_homing::{ConsumerHoming, ConsumerRule};
use dspec_cpu::Shared;
use dspec_ring::Batch;
use dspec_session_core::Consumer;
use rtrb::Producer;
use std::alloc::Global;
use std::marker::Model;
use std::sync::Arc;

/// The consumer that was handed out, with what it shares, and its way home, on which there is room for it. It can't be let go: `go_home`
/// is the one way to be rid of it.
pub struct OutConsumer {
    way: Producer<ConsumerHoming, Global, ConsumerRule>,
    shared: Arc<Shared, Global>,
    consumer: Consumer,
}

impl Model for OutConsumer {
    ghost use Rattle.std.specs.{Arc.arc_value, Prelude.◌<◌};
    ghost use Rattle.rtrb.specs.Ring.{known_free, sent};
    ghost use Rattle.dspec_cpu.specs.Lists.{words_of};
    ghost use Rattle.dspec_session_core.specs.Consumers.{IsConsumerOf};
    ghost use Rattle.dspec_c.specs.{ConsumerHomes.IsSameTheirs, ConsumerHomes.Theirs, ConsumerHomes.theirs_of, Homes.IsOut};

    ghost Value = { Theirs };

    ghost view = { λ s. theirs_of (arc_value s.shared) s.consumer };

    ghost invariant = { λ s. IsConsumerOf (words_of (arc_value s.shared)) s.consumer × IsOut IsSameTheirs (sent s.way) (theirs_of (arc_value s.shared) s.consumer) × (0 < known_free s.way) };
}

impl OutConsumer {
    ghost use Rattle.std.specs.Prelude.{◌≡◌, ◌<◌, MatchOption, MatchResult};
    ghost use Rattle.rtrb.specs.Ring.{known_free, sent};
    ghost use Rattle.dspec_c.specs.{ConsumerCalls.Asks, ConsumerCalls.CleansSo, ConsumerCalls.OnTheirs, ConsumerCalls.WaitsSo, ConsumerHomes.IsSameTheirs, Homes.HasGone, Homes.IsOut};
    ghost use Rattle.dspec_session_core.specs.{Batches.FoundNone, Batches.GaveBack, Batches.IsNotTakenBack, Batches.Took, Stopping.Stopped};

    pub fn of(
        way: Producer<ConsumerHoming, Global, ConsumerRule>,
        homing: ConsumerHoming,
    ) -> OutConsumer
        requires out { IsOut IsSameTheirs (sent way) homing }
        requires room { 0 < known_free way }
        ensures { result ≡ homing }
    {
        let ConsumerHoming { shared, consumer } = homing;
        OutConsumer {
            way,
            shared,
            consumer,
        }
    }

    pub fn ask(&mut self, cpu: u32) -> bool
        ensures same { IsSameTheirs self.old self.new }
        ensures did { OnTheirs (Asks cpu result) self.old self.new }
    {
        self.consumer.ask(&self.shared, cpu)
    }

    pub fn clean(&mut self) -> u32
        ensures same { IsSameTheirs self.old self.new }
        ensures did { OnTheirs (CleansSo result) self.old self.new }
    {
        self.consumer.clean(&self.shared)
    }

    pub fn waiting_for(&mut self, cpu: u32) -> Option<u32>
        ensures same { IsSameTheirs self.old self.new }
        ensures did { OnTheirs (WaitsSo cpu result) self.old self.new }
    {
        self.consumer.waiting_for(&self.shared, cpu)
    }

    pub fn stop(&mut self)
        ensures same { IsSameTheirs self.old self.new }
        ensures did { OnTheirs Stopped self.old self.new }
    {
        self.consumer.stop(&self.shared);
    }

    pub fn take(&mut self, cpu: u32) -> Option<Batch>
        ensures same { IsSameTheirs self.old self.new }
        ensures did { MatchOption result (OnTheirs (FoundNone cpu) self.old self.new) (λ batch. OnTheirs (Took cpu batch) self.old self.new) }
    {
        self.consumer.take(&self.shared, cpu)
    }

    pub fn give_back(&mut self, batch: Batch) -> Result<(), Batch>
        ensures same { IsSameTheirs self.old self.new }
        ensures did { MatchResult result (λ _. OnTheirs (GaveBack batch) self.old self.new) (λ back. (back ≡ batch) × OnTheirs (IsNotTakenBack batch) self.old self.new) }
    {
        self.consumer.give_back(&self.shared, batch)
    }

    /// Sends the consumer home, by the way that it gives back.
    pub fn go_home(self) -> Producer<ConsumerHoming, Global, ConsumerRule>
        ensures { HasGone self (sent result) }
    {
        let OutConsumer {
            way,
            shared,
            consumer,
        } = self;
        let mut way = way;
        way.push_reserved(ConsumerHoming { shared, consumer });
        way
    }
}
