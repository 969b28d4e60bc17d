use crate::home_cpu::HomeCpu;
use dspec_cpu::{Cpu, Shared};
use dspec_record::Enablings;
use rtrb::Protocol;
use std::alloc::Global;
use std::marker::Model;
use std::sync::Arc;

/// One CPU on its way home, with what it shares, and how many records the schema refused. The CPU stays where it is in memory, wherever
/// this goes.
#[derive(Drop)]
pub struct Homing {
    pub(crate) shared: Arc<Shared, Global>,
    pub(crate) cpu: Box<Cpu<Enablings>>,
    pub(crate) refused: u64,
}

impl Model for Homing {
    ghost use Rattle.std.specs.Arc.{arc_value};
    ghost use Rattle.dspec_cpu.specs.Standing.{IsCallable};
    ghost use Rattle.dspec_c.specs.Homes.{CpuSide, cpu_side_of};

    ghost Value = { CpuSide };

    ghost view = { λ s. cpu_side_of (arc_value s.shared) s.cpu.value s.refused };

    ghost invariant = { λ s. IsCallable (arc_value s.shared) s.cpu.value };
}

/// What comes through a ring is the same CPU of the same session as what came before.
#[derive(Clone, Copy)]
pub struct HomingProtocol;

impl Protocol<Homing> for HomingProtocol {
    ghost use Rattle.dspec_c.specs.Homes.{IsSameAsAll, IsSameSide};

    ghost allows = { IsSameAsAll IsSameSide };
}

impl Homing {
    ghost use Rattle.std.specs.{Arc.arc_value, Prelude.◌≡◌};
    ghost use Rattle.dspec_cpu.specs.Standing.{IsCallable};
    ghost use Rattle.dspec_c.specs.Homes.{at_home, cpu_side_of};

    pub fn of(shared: Arc<Shared, Global>, home: HomeCpu) -> Homing
        requires { IsCallable (arc_value shared) home.cpu }
        ensures { result ≡ cpu_side_of (arc_value shared) home.cpu home.refused }
    {
        let HomeCpu { cpu, refused } = home;
        Homing {
            shared,
            cpu,
            refused,
        }
    }

    pub fn into_home(self) -> HomeCpu
        ensures { result ≡ at_home self }
    {
        let Homing {
            shared: _,
            cpu,
            refused,
        } = self;
        HomeCpu { cpu, refused }
    }
}
