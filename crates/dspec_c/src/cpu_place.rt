use crate::desk::{open, pass, ring};
use crate::home_cpu::HomeCpu;
use crate::homing::{Homing, HomingProtocol};
use crate::out_cpu::OutCpu;
use dspec_cpu::Shared;
use rtrb::{Consumer, Producer};
use std::alloc::{AllocError, Global};
use std::marker::Model;
use std::sync::Arc;

/// The place of a CPU at its session, from where it is handed out, and where it comes home. The CPU has gone once through the ring
/// that leads there, so whatever comes is that CPU of that session. A ring is for one way home: each later handing-out takes one of its
/// own. What is inside shares nothing with anybody.
#[derive(Drop)]
pub struct CpuPlace {
    desk: Consumer<Homing, Global, HomingProtocol>,
    way: Option<Producer<Homing, Global, HomingProtocol>>,
    inside: Option<HomeCpu>,
}

impl Model for CpuPlace {
    ghost use Rattle.std.specs.Prelude.{◌≡◌, is_some, slice_get, IfSome, Some};
    ghost use Rattle.rtrb.specs.Ring.{known_free, received, sent};
    ghost use Rattle.dspec_c.specs.Homes.{CpuStay, IsDesk, IsAtHomeOf, IsUnused, CpuSide};

    ghost Value = { CpuStay };

    ghost view = { λ d. record { first = slice_get (received d.desk) 0; inside = d.inside; waits = is_some d.way } };

    ghost invariant = { λ d. (first : CpuSide) × (slice_get (received d.desk) 0 ≡ Some first) × IsDesk IsAtHomeOf first (received d.desk) d.inside × IfSome d.way (λ w. IsUnused first (received d.desk) (sent w) (known_free w) d.inside) };
}

impl CpuPlace {
    ghost use Rattle.std.specs.{Arc.arc_value, Prelude.◌≡◌, Prelude.IfOk, Prelude.IsSome, Prelude.OnErr, Prelude.Some, Prelude.true, Prelude.false, Prelude.is_some};
    ghost use Rattle.dspec_cpu.specs.Standing.{identity};
    ghost use Rattle.dspec_c.specs.{Homes.Came, Homes.IsPlaceWith, Homes.LeavesPlace, Homes.CpuSide, Tending.IsTended, Tending.ServedIfThere, Whole.refused_inside, Whole.waits_with};

    /// The CPU's place, with the CPU in it, which waits.
    pub fn make(alloc: Global, cpu: Homing) -> Result<CpuPlace, AllocError>
        ensures { IfOk result (λ r. r ≡ waits_with cpu) }
    {
        let (way, desk, cpu) = open(alloc, cpu)?;
        Ok(CpuPlace {
            desk,
            way: Some(way),
            inside: Some(cpu.into_home()),
        })
    }

    /// Whether the CPU is at its place.
    pub fn is_in(&mut self) -> bool
        ensures came { Came self.old self.new }
        ensures looked { result ≡ is_some self.new.inside }
    {
        if self.inside.is_some() {
            return true;
        }
        match self.desk.pop() {
            Ok(cpu) => {
                self.inside = Some(cpu.into_home());
                true
            }
            Err(_) => false,
        }
    }

    // A service of the CPU that is inside.
    fn serve(&mut self, shared: &Shared) -> u32
        requires place { IsPlaceWith shared.now self.old.first }
        requires inside { IsSome self.old.inside }
        ensures { ServedIfThere result self.old self.new }
    {
        let mut home = self.inside.take().unwrap();
        let settled = home.serve(shared);
        self.inside = Some(home);
        settled
    }

    /// Makes a service of the CPU, where it is at its place; how many speculations that settled.
    pub fn tend(&mut self, shared: &Shared) -> u32
        requires { IsPlaceWith shared.now self.old.first }
        ensures { IsTended result self.old self.new }
    {
        if !self.is_in() {
            return 0;
        }
        self.serve(shared)
    }

    // The CPU, with what it shares, which was never handed out.
    fn hand_out_first(&mut self, shared: Arc<Shared, Global>) -> OutCpu
        requires place { IsPlaceWith (arc_value shared) self.old.first }
        requires waits { self.old.waits ≡ true }
        ensures { LeavesPlace (arc_value shared) self.old result self.new }
    {
        let way = self.way.take().unwrap();
        let home = self.inside.take().unwrap();
        OutCpu::of(way, Homing::of(shared, home))
    }

    // The CPU, with what it shares, which came home: it takes a ring of its own, and goes through that once. Where there is no memory for
    // the ring it stays as it is.
    fn hand_out_again(
        &mut self,
        alloc: Global,
        shared: Arc<Shared, Global>,
    ) -> Result<OutCpu, AllocError>
        requires place { IsPlaceWith (arc_value shared) self.old.first }
        requires inside { IsSome self.old.inside }
        requires again { self.old.waits ≡ false }
        ensures leaves { IfOk result (λ out. LeavesPlace (arc_value shared) self.old out self.new) }
        ensures stays { OnErr result (self.new ≡ self.old) }
    {
        let (way, desk) = ring(alloc)?;
        let home = self.inside.take().unwrap();
        let (way, desk, homing) = pass(way, desk, Homing::of(shared, home));
        self.desk = desk;
        Ok(OutCpu::of(way, homing))
    }

    /// The CPU, with what it shares, which is at its place. It stays there, as it was, where there is no memory for its way home.
    pub fn hand_out(
        &mut self,
        alloc: Global,
        shared: Arc<Shared, Global>,
    ) -> Result<OutCpu, AllocError>
        requires place { IsPlaceWith (arc_value shared) self.old.first }
        requires inside { IsSome self.old.inside }
        ensures leaves { IfOk result (λ out. LeavesPlace (arc_value shared) self.old out self.new) }
        ensures stays { OnErr result (self.new ≡ self.old) }
    {
        if self.way.is_some() {
            return Ok(self.hand_out_first(shared));
        }
        self.hand_out_again(alloc, shared)
    }

    /// How many records the CPU refused that is inside.
    pub fn refused(&self) -> u64
        ensures { result ≡ refused_inside self.now }
    {
        match &self.inside {
            Some(cpu) => cpu.refused,
            None => 0,
        }
    }

    /// The CPU that is inside.
    pub fn into_home(self) -> HomeCpu
        requires { IsSome self.inside }
        ensures is { self.inside ≡ Some result }
        ensures same { (first : CpuSide) → self.first ≡ Some first → identity result.cpu ≡ identity first.cpu }
    {
        let CpuPlace {
            desk: _,
            way: _,
            inside,
        } = self;
        inside.unwrap()
    }
}
