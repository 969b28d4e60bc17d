//! Services of the CPUs that are at their places.

ghost use Rattle.std.specs.Prelude.{◌≡◌, ◌<◌, ℕ, length, slice_get, Option, Some};
ghost use Rattle.dspec_c.specs.{Homes.IsPlaceWith, Homes.CpuSide, Tending.AreTended, Tending.TendsOne, Whole.firsts};

use crate::cpu_place::CpuPlace;
use dspec_cpu::Shared;

fn tend_one(places: &mut Vec<CpuPlace>, cpu: usize, shared: &Shared) -> u64
    requires some { cpu < length places.old.items }
    requires place { (first : Option CpuSide) → slice_get (firsts places.old.items) cpu ≡ Some first → IsPlaceWith shared.now first }
    ensures tends { TendsOne cpu result places.old.items places.new.items }
    ensures few { result < 4294967296 }
{
    u64::from(places[cpu].tend(shared))
}

/// A service of each CPU that is at its place; how many speculations they settled in all.
pub fn tend_all(places: &mut Vec<CpuPlace>, count: u32, shared: &Shared) -> u64
    requires count { count ≡ length places.old.items }
    requires place { (c : ℕ) (first : Option CpuSide) → slice_get (firsts places.old.items) c ≡ Some first → IsPlaceWith shared.now first }
    ensures { AreTended count result places.old.items places.new.items }
{
    let mut settled = 0;
    for cpu in 0..count {
        settled += tend_one(places, cpu as usize, shared);
    }
    settled
}
