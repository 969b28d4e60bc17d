use dspec_cpu::{Cpu, Shared};
use dspec_record::Enablings;
use std::marker::Model;

/// A CPU at home, and how many records it refused. It stays where it is in memory, and shares nothing with anybody.
#[derive(Drop)]
pub struct HomeCpu {
    pub(crate) cpu: Box<Cpu<Enablings>>,
    pub(crate) refused: u64,
}

impl Model for HomeCpu {
    ghost use Rattle.dspec_c.specs.Homes.{AtHome};

    ghost Value = { AtHome };

    ghost view = { λ s. record { cpu = s.cpu.value; refused = s.refused } };
}

impl HomeCpu {
    ghost use Rattle.std.specs.Prelude.{◌≡◌};
    ghost use Rattle.dspec_cpu.specs.Standing.{IsCallable};
    ghost use Rattle.dspec_c.specs.Tending.{ServedAtHome};

    /// Makes a service of it; how many speculations that settled.
    pub fn serve(&mut self, shared: &Shared) -> u32
        requires { IsCallable shared.now self.old.cpu }
        ensures { ServedAtHome result self.old self.new }
    {
        self.cpu.service(shared).settled
    }

    pub fn into_cpu(self) -> Cpu<Enablings>
        ensures { result ≡ self.cpu }
    {
        let HomeCpu { cpu, refused: _ } = self;
        Box::into_inner(cpu)
    }
}
