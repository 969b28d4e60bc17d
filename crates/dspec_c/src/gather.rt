ghost use Rattle.std.specs.Arc.{arc_value};
ghost use Rattle.std.specs.Prelude.{◌≡◌, ◌<◌, ℕ, List, MatchBool, length, map, slice_get, IfOk, IsSome, OnErr, Some, true};
ghost use Rattle.dspec_cpu.specs.declared.shared.Shared.{Shared};
ghost use Rattle.dspec_record.specs.EnablingRows.{EnabledRows};
ghost use Rattle.dspec_ring.specs.Known.{Pair};
ghost use Rattle.dspec_c.specs.Homes.{CpuStay, IsPlaceWith};
ghost use Rattle.dspec_c.specs.Whole.{AllInside, AreCame, EachFrom, HasRooms, IsCpuAt, IsPlaceOf, LeavesOne, LooksAt, OneOutside, cpu_inside, firsts, inside_at, insides, refusals};

use crate::cpu_place::CpuPlace;
use crate::out_cpu::OutCpu;
use crate::places::take_first;
use dspec_cpu::{Cpu, Shared};
use dspec_record::Enablings;
use std::alloc::{AllocError, Global};
use std::sync::Arc;

/// The CPU, with what it shares, which is at its place. It stays there, as it was, where memory is refused.
pub fn hand_out(
    alloc: Global,
    places: &mut Vec<CpuPlace>,
    cpu: usize,
    shared: Arc<Shared, Global>,
) -> Result<OutCpu, AllocError>
    requires place { (s : CpuStay) → slice_get places.old.items cpu ≡ Some s → IsPlaceWith (arc_value shared) s.first }
    requires inside { inside_at cpu places.old.items ≡ true }
    ensures leaves { IfOk result (λ out. LeavesOne (arc_value shared) cpu places.old.items out places.new.items) }
    ensures stays { OnErr result (places.new.items ≡ places.old.items) }
{
    places[cpu].hand_out(alloc, shared)
}

/// Whether the CPU at this place is inside.
pub fn is_in(places: &mut Vec<CpuPlace>, cpu: usize) -> bool
    requires { cpu < length places.old.items }
    ensures looked { LooksAt cpu places.old.items places.new.items }
    ensures inside { result ≡ inside_at cpu places.new.items }
{
    places[cpu].is_in()
}

/// Whether each CPU is at its place.
pub fn all_home(places: &mut Vec<CpuPlace>) -> bool
    ensures came { AreCame places.old.items places.new.items }
    ensures home { MatchBool result (AllInside places.new.items) (OneOutside places.new.items) }
{
    for cpu in 0..places.len() {
        if !is_in(places, cpu) {
            return false;
        }
    }
    true
}

fn cpu_of(place: CpuPlace) -> Cpu<Enablings>
    requires { IsSome place.inside }
    ensures is { cpu_inside place ≡ Some result }
    ensures of { (shared : Shared) (schema : EnabledRows) (pairs : List Pair) (c : ℕ) → IsPlaceOf shared schema pairs c place.first → IsCpuAt shared schema pairs c result }
{
    place.into_home().into_cpu()
}

/// All CPUs, in order, which are at their places, and how many records each of them refused.
#[inline(never)]
pub fn gather(
    places: Vec<CpuPlace>,
    room: Vec<Cpu<Enablings>>,
    counts: Vec<u64>,
) -> (Vec<Cpu<Enablings>>, Vec<u64>)
    requires inside { AllInside places.items }
    requires rooms { HasRooms (length places.items) room counts }
    ensures home { (m : Shared) (e : EnabledRows) (ps : List Pair) → EachFrom (IsPlaceOf m e ps) 0 (firsts places.items) → EachFrom (IsCpuAt m e ps) 0 result.0.items }
    ensures all { map Some result.0.items ≡ insides places.items }
    ensures counted { result.1.items ≡ refusals places.items }
{
    let (mut places, mut cpus, mut counts) = (places, room, counts);
    while !places.is_empty() {
        let place = take_first(&mut places);
        counts.push_reserved(place.refused());
        cpus.push_reserved(cpu_of(place));
    }
    (cpus, counts)
}
