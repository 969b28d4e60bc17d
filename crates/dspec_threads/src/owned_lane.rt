ghost use Rattle.std.specs.Prelude.{◌≡◌};
ghost use Rattle.dspec_cpu.specs.{Called.called, Lists.number_in, Lists.schema_of, Standing.identity};

use crate::duty::{Anything, Duty};
use crate::out_lane::OutLane;
use dspec::Worker;
use dspec_record::Enablings;
use std::marker::Model;

/// A lane that owns its CPU, and knows the way back to its session. It can move to any thread. It can't be let go: it has to be given
/// back. Contracts see the CPU.
pub struct OwnedLane<D: Duty> {
    pub(crate) lane: OutLane<D>,
}

impl<D: Duty> Model for OwnedLane<D> {
    ghost use Rattle.dspec_record.specs.EnablingRows.{EnabledRows};
    ghost use Rattle.dspec_cpu.specs.declared.cpu.Cpu.{Cpu};

    ghost Value = { Cpu EnabledRows };

    ghost view = { λ l. l.lane };
}

impl<D: Duty> OwnedLane<D> {
    /// The CPU's number in the session, from 0 on.
    pub fn number(&self) -> u32
        ensures { result ≡ number_in self.now }
    {
        self.lane.number()
    }

    /// Lends the lane to a worker, which calls it in this thread.
    pub fn lend<W: Worker<Enablings>>(&mut self, worker: &mut W)
        ensures same { identity self.new ≡ identity self.old }
        ensures did { W.does (schema_of self.old) (number_in self.old) worker.old (called self.old) worker.new (called self.new) }
    {
        self.lane.lend(worker);
    }

    /// Gives the CPU back to its session, from whichever thread. What was promised of a lane that is given back has to be done.
    pub fn give_back(self)
        requires { D.done (number_in self) (called self) }
    {
        let OwnedLane { lane } = self;
        let _way = lane.go_home();
    }
}

impl OwnedLane<Anything> {
    /// The same lane as one that may be let go.
    pub fn freely(self) -> FreeLane
        ensures { result ≡ self }
    {
        FreeLane { lane: self }
    }
}

/// A lane of which nothing is asked when it is given back. It may be let go, as what a channel or a queue has in it: then it gives itself
/// back. Contracts see the CPU.
pub struct FreeLane {
    lane: OwnedLane<Anything>,
}

impl Model for FreeLane {
    ghost use Rattle.dspec_record.specs.EnablingRows.{EnabledRows};
    ghost use Rattle.dspec_cpu.specs.declared.cpu.Cpu.{Cpu};

    ghost Value = { Cpu EnabledRows };

    ghost view = { λ l. l.lane };
}

impl Drop for FreeLane {
    fn drop(self) {
        self.give_back();
    }
}

impl FreeLane {
    /// As `OwnedLane::number`.
    pub fn number(&self) -> u32
        ensures { result ≡ number_in self.now }
    {
        self.lane.number()
    }

    /// As `OwnedLane::lend`.
    pub fn lend<W: Worker<Enablings>>(&mut self, worker: &mut W)
        ensures same { identity self.new ≡ identity self.old }
        ensures did { W.does (schema_of self.old) (number_in self.old) worker.old (called self.old) worker.new (called self.new) }
    {
        self.lane.lend(worker);
    }

    /// As `OwnedLane::give_back`, at any time.
    pub fn give_back(self) {
        let FreeLane { lane } = self;
        lane.give_back();
    }
}
