ghost use Rattle.std.specs.{Arc.arc_value, Prelude.◌≡◌, Prelude.◌<◌};
ghost use Rattle.dspec_cpu.specs.{Called.called, Lists.number_in, Lists.schema_of, Standing.IsCallable, Standing.identity};
ghost use Rattle.rtrb.specs.Ring.{known_free, sent};
ghost use Rattle.dspec_threads.specs.Homes.{IsLentOut, WentHome};

use crate::duty::Duty;
use crate::way_home::Way;
use dspec::{Lane, Worker};
use dspec_cpu::{Cpu, Shared};
use dspec_record::Enablings;
use std::alloc::Global;
use std::marker::Model;
use std::sync::Arc;

/// A CPU that is out, with what it shares, and its way home, on which there is room for it. It can't be let go: `go_home` is the one way
/// to be rid of it.
pub(crate) struct OutLane<D: Duty> {
    shared: Arc<Shared, Global>,
    cpu: Cpu<Enablings>,
    way: Way<D>,
}

impl<D: Duty> Model for OutLane<D> {
    ghost use Rattle.std.specs.{Arc.arc_value, Prelude.◌<◌};
    ghost use Rattle.rtrb.specs.Ring.{known_free, sent};
    ghost use Rattle.dspec_record.specs.EnablingRows.{EnabledRows};
    ghost use Rattle.dspec_cpu.specs.{Standing.IsCallable, declared.cpu.Cpu.Cpu};
    ghost use Rattle.dspec_threads.specs.Homes.{IsLentOut};

    ghost Value = { Cpu EnabledRows };

    ghost view = { λ l. l.cpu };

    ghost invariant = { λ l. IsCallable (arc_value l.shared) l.cpu × IsLentOut (sent l.way) l.cpu × (0 < known_free l.way) };
}

// The CPU, with what it shares, is called as a lane.
fn call<W: Worker<Enablings>>(shared: &Shared, cpu: &mut Cpu<Enablings>, worker: &mut W)
    requires { IsCallable shared.now cpu.old }
    ensures same { identity cpu.new ≡ identity cpu.old }
    ensures did { W.does (schema_of cpu.old) (number_in cpu.old) worker.old (called cpu.old) worker.new (called cpu.new) }
{
    let mut lane = Lane::of(shared, cpu);
    worker.work(&mut lane);
}

impl<D: Duty> OutLane<D> {
    /// A CPU that goes out.
    pub(crate) fn of(shared: Arc<Shared, Global>, cpu: Cpu<Enablings>, way: Way<D>) -> OutLane<D>
        requires callable { IsCallable (arc_value shared) cpu }
        requires out { IsLentOut (sent way) cpu }
        requires room { 0 < known_free way }
        ensures { result ≡ cpu }
    {
        OutLane { shared, cpu, way }
    }

    /// As `OwnedLane::number`.
    pub(crate) fn number(&self) -> u32
        ensures { result ≡ number_in self.now }
    {
        self.cpu.number()
    }

    /// As `OwnedLane::lend`.
    pub(crate) fn lend<W: Worker<Enablings>>(&mut self, worker: &mut W)
        ensures same { identity self.new ≡ identity self.old }
        ensures did { W.does (schema_of self.old) (number_in self.old) worker.old (called self.old) worker.new (called self.new) }
    {
        call(&self.shared, &mut self.cpu, worker);
    }

    /// Sends the CPU home, and answers the way by which it went. What it shared with the session it shares no more then.
    pub(crate) fn go_home(self) -> Way<D>
        requires { D.done (number_in self) (called self) }
        ensures { WentHome self (sent result) }
    {
        let OutLane { shared, cpu, way } = self;
        drop(shared);
        let mut way = way;
        way.push_reserved(cpu);
        way
    }
}
