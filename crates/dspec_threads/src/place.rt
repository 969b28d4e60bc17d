ghost use Rattle.std.specs.{Arc.arc_value, Prelude.◌≡◌, Prelude.IfOk, Prelude.IfSome, Prelude.IsSome, Prelude.MatchResult, Prelude.None, Prelude.OnErr, Prelude.Some, Prelude.is_some};
ghost use Rattle.dspec_cpu.specs.{Called.called, Standing.IsCallable, Standing.identity};
ghost use Rattle.dspec.specs.Serving.{ServedOnce};
ghost use Rattle.dspec_threads.specs.Places.{ComesIn, IsCallableInside, SendsOut, TendsPlace, waits_inside, whereabouts};

use crate::common::Common;
use crate::duty::Duty;
use crate::out_lane::OutLane;
use crate::owned_lane::OwnedLane;
use crate::way_home::{Home, pass, ring};
use dspec::Lane;
use dspec_cpu::{Cpu, Shared};
use dspec_record::Enablings;
use std::alloc::{AllocError, Global};

/// The place of a CPU at its session: it is inside, or out, and then this is where it comes home. Each way out takes a ring of its own.
#[derive(Drop)]
pub(crate) struct LanePlace<D: Duty> {
    inside: Option<Cpu<Enablings>>,
    home: Option<Home<D>>,
}

// A service of a CPU.
fn serve(cpu: &mut Cpu<Enablings>, shared: &Shared)
    requires { IsCallable shared.now cpu.old }
    ensures same { identity cpu.new ≡ identity cpu.old }
    ensures served { ServedOnce (called cpu.old) (called cpu.new) }
{
    let mut lane = Lane::of(shared, cpu);
    lane.service();
}

impl<D: Duty> LanePlace<D> {
    /// Of a CPU that is inside.
    pub(crate) fn of(cpu: Cpu<Enablings>) -> LanePlace<D>
        ensures { whereabouts result ≡ waits_inside cpu }
    {
        LanePlace {
            inside: Some(cpu),
            home: None,
        }
    }

    /// Whether the CPU is inside, or has come home by now.
    pub(crate) fn look(&mut self) -> bool
        ensures looked { ComesIn D.done (whereabouts self.old) (whereabouts self.new) }
        ensures inside { result ≡ is_some (whereabouts self.new).inside }
    {
        if self.inside.is_some() {
            return true;
        }
        let Some(mut home) = self.home.take() else {
            return false;
        };
        match home.pop() {
            Ok(cpu) => {
                self.inside = Some(cpu);
                true
            }
            Err(_) => {
                self.home = Some(home);
                false
            }
        }
    }

    /// Makes a service of the CPU, where it is inside.
    pub(crate) fn tend(&mut self, shared: &Shared)
        requires { IsCallableInside shared.now (whereabouts self.old) }
        ensures { TendsPlace D.done (whereabouts self.old) (whereabouts self.new) }
    {
        let Some(mut cpu) = self.inside.take() else {
            return;
        };
        serve(&mut cpu, shared);
        self.inside = Some(cpu);
    }

    /// The CPU as a lane, where it is inside. Where memory is refused the place stays as it is.
    pub(crate) fn send_out(
        &mut self,
        alloc: Global,
        common: &Common,
    ) -> Result<Option<OwnedLane<D>>, AllocError>
        requires { IsCallableInside (arc_value common.now.shared) (whereabouts self.old) }
        ensures { SendsOut D.done result (whereabouts self.old) (whereabouts self.new) }
    {
        if self.inside.is_none() {
            return Ok(None);
        }
        let shared = common.share()?;
        let (way, home) = ring(alloc)?;
        let cpu = self.inside.take().unwrap();
        let (way, home, cpu) = pass(way, home, cpu);
        self.home = Some(home);
        let lane = OutLane::of(shared, cpu, way);
        Ok(Some(OwnedLane { lane }))
    }

    /// The CPU, which is inside.
    pub(crate) fn into_cpu(self) -> Cpu<Enablings>
        requires { IsSome (whereabouts self).inside }
        ensures { (whereabouts self).inside ≡ Some result }
    {
        let LanePlace { inside, home: _ } = self;
        inside.unwrap()
    }
}
