ghost use Rattle.std.specs.Prelude.{◌≡◌};
ghost use Rattle.dspec_session_core.specs.Consumers.{taken_from};
ghost use Rattle.dspec_session.specs.{Demonstrated.demonstrated, Races.AllBalanced, Results.AllFollow, Results.IsDone};

use super::ending::tell;
use super::four::Four;
use super::lines::DemoLine;
use super::order::Order;
use dspec_record::Enablings;
use dspec_session_core::Session;

/// What a run of the demonstration leaves: its session, which was stopped and isn't finished yet, and what was seen of the
/// batches that were taken.
#[derive(Drop)]
pub struct Demonstration {
    /// The session, with all its CPUs.
    pub session: Session<Enablings>,
    /// What its CPUs traced: records of EPID 1, and speculated records of EPID 2.
    pub schema: Enablings,
    pub(crate) orders: Four<Order>,
}

impl Demonstration {
    /// How many batches of a CPU were taken; none where there is no such CPU.
    pub fn taken(&self, cpu: u32) -> u64
        ensures { result ≡ taken_from cpu self.now.session.consumer }
    {
        self.session.consumer.taken(cpu)
    }

    /// Finishes the session, and tells of each CPU.
    pub fn lines(self) -> [DemoLine; 4]
        requires { IsDone self }
        ensures balanced { AllBalanced 200 result }
        ensures ordered { AllFollow demonstrated self.session self.orders result }
    {
        tell(self.session, &self.schema, self.orders)
    }
}
