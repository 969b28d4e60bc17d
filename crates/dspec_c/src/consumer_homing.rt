use dspec_cpu::Shared;
use dspec_session_core::Consumer;
use rtrb::Protocol;
use std::alloc::Global;
use std::marker::Model;
use std::sync::Arc;

/// The consumer on its way home, with what it shares.
#[derive(Drop)]
pub struct ConsumerHoming {
    pub(crate) shared: Arc<Shared, Global>,
    pub(crate) consumer: Consumer,
}

impl Model for ConsumerHoming {
    ghost use Rattle.std.specs.Arc.{arc_value};
    ghost use Rattle.dspec_cpu.specs.Lists.{words_of};
    ghost use Rattle.dspec_session_core.specs.Consumers.{IsConsumerOf};
    ghost use Rattle.dspec_c.specs.ConsumerHomes.{Theirs, theirs_of};

    ghost Value = { Theirs };

    ghost view = { λ s. theirs_of (arc_value s.shared) s.consumer };

    ghost invariant = { λ s. IsConsumerOf (words_of (arc_value s.shared)) s.consumer };
}

/// What comes through a ring is the same consumer of the same session as what came before.
#[derive(Clone, Copy)]
pub struct ConsumerRule;

impl Protocol<ConsumerHoming> for ConsumerRule {
    ghost use Rattle.dspec_c.specs.{ConsumerHomes.IsSameTheirs, Homes.IsSameAsAll};

    ghost allows = { IsSameAsAll IsSameTheirs };
}

impl ConsumerHoming {
    ghost use Rattle.std.specs.{Arc.arc_value, Prelude.◌≡◌};
    ghost use Rattle.dspec_cpu.specs.Lists.{words_of};
    ghost use Rattle.dspec_session_core.specs.Consumers.{IsConsumerOf};
    ghost use Rattle.dspec_c.specs.ConsumerHomes.{theirs_of};

    pub fn of(shared: Arc<Shared, Global>, consumer: Consumer) -> ConsumerHoming
        requires { IsConsumerOf (words_of (arc_value shared)) consumer }
        ensures { result ≡ theirs_of (arc_value shared) consumer }
    {
        ConsumerHoming { shared, consumer }
    }

    pub fn into_consumer(self) -> Consumer
        ensures consumer { result ≡ self.consumer }
        ensures theirs { IsConsumerOf (words_of self.shared) result }
    {
        let ConsumerHoming {
            shared: _,
            consumer,
        } = self;
        consumer
    }
}
