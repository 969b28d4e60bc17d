ghost use Rattle.std.specs.Arc.{arc_value};
ghost use Rattle.std.specs.Prelude.{◌≡◌, ◌≤◌, ◌<◌, ◌∷◌, ◌&&◌, [], IfOk, MatchBool, Some, length, map, vec_capacity};
ghost use Rattle.dspec_threads.specs.Places.{AllIn, AreCpusOf, AtOne, ComesIn, EachPair, IsOneOut, LooksAndSends, TendsPlace, all_whereabouts, is_in_at, waits_inside, who_is_in};

use crate::common::Common;
use crate::duty::Duty;
use crate::owned_lane::OwnedLane;
use crate::place::LanePlace;
use dspec_cpu::{Cpu, Shared};
use dspec_record::Enablings;
use std::alloc::{AllocError, Global};

// The first is taken out.
fn first<T>(items: &mut Vec<T>) -> T
    requires { 0 < length items.old.items }
    ensures { items.old.items ≡ result ∷ items.new.items }
{
    items.remove(0)
}

/// A place for each CPU, in order, with the CPU inside.
pub(crate) fn places_of<D: Duty>(
    alloc: Global,
    cpus: Vec<Cpu<Enablings>>,
) -> Result<Vec<LanePlace<D>>, AllocError>
    ensures { IfOk result (λ r. all_whereabouts r.items ≡ map waits_inside cpus.items) }
{
    let (mut rest, mut places) = (cpus, Vec::new(alloc));
    while !rest.is_empty() {
        places.push(LanePlace::of(first(&mut rest)))?;
    }
    Ok(places)
}

// Whether both are so.
fn both(one: bool, other: bool) -> bool
    ensures { result ≡ one && other }
{
    one && other
}

// A look at one place.
fn look_at<D: Duty>(places: &mut Vec<LanePlace<D>>, index: usize) -> bool
    requires { index < length places.old.items }
    ensures looked { AtOne (ComesIn D.done) index (all_whereabouts places.old.items) (all_whereabouts places.new.items) }
    ensures inside { result ≡ is_in_at index (all_whereabouts places.new.items) }
{
    places[index].look()
}

/// Looks at each place: whether all CPUs are inside.
pub(crate) fn look_at_all<D: Duty>(places: &mut Vec<LanePlace<D>>) -> bool
    ensures looked { EachPair (ComesIn D.done) (all_whereabouts places.old.items) (all_whereabouts places.new.items) }
    ensures inside { MatchBool result (AllIn (who_is_in (all_whereabouts places.new.items))) (IsOneOut (who_is_in (all_whereabouts places.new.items))) }
{
    let mut all = true;
    for index in 0..places.len() {
        all = both(all, look_at(places, index));
    }
    all
}

// A service of the CPU at one place, where it is inside.
fn tend_at<D: Duty>(places: &mut Vec<LanePlace<D>>, index: usize, shared: &Shared)
    requires some { index < length places.old.items }
    requires callable { AreCpusOf D.done shared.now (all_whereabouts places.old.items) }
    ensures { AtOne (TendsPlace D.done) index (all_whereabouts places.old.items) (all_whereabouts places.new.items) }
{
    places[index].tend(shared);
}

/// A service of each CPU that is inside.
pub(crate) fn tend_all<D: Duty>(places: &mut Vec<LanePlace<D>>, shared: &Shared)
    requires { AreCpusOf D.done shared.now (all_whereabouts places.old.items) }
    ensures { EachPair (TendsPlace D.done) (all_whereabouts places.old.items) (all_whereabouts places.new.items) }
{
    for index in 0..places.len() {
        tend_at(places, index, shared);
    }
}

/// The CPU of one place as a lane, where it is inside, or has come home by now.
pub(crate) fn send_out_at<D: Duty>(
    places: &mut Vec<LanePlace<D>>,
    index: usize,
    alloc: Global,
    common: &Common,
) -> Result<Option<OwnedLane<D>>, AllocError>
    requires some { index < length places.old.items }
    requires callable { AreCpusOf D.done (arc_value common.now.shared) (all_whereabouts places.old.items) }
    ensures { AtOne (LooksAndSends D.done result) index (all_whereabouts places.old.items) (all_whereabouts places.new.items) }
{
    let place = &mut places[index];
    place.look();
    place.send_out(alloc, common)
}

/// All CPUs, in order, which are inside.
pub(crate) fn cpus_of<D: Duty>(
    places: Vec<LanePlace<D>>,
    room: Vec<Cpu<Enablings>>,
) -> Vec<Cpu<Enablings>>
    requires inside { AllIn (who_is_in (all_whereabouts places.items)) }
    requires room { (room.items ≡ []) × (length places.items ≤ vec_capacity room) }
    ensures { who_is_in (all_whereabouts places.items) ≡ map Some result.items }
{
    let (mut places, mut cpus) = (places, room);
    while !places.is_empty() {
        let place = first(&mut places);
        cpus.push_reserved(place.into_cpu());
    }
    cpus
}
