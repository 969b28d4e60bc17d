//! Waits that settle, for a lane to which verdicts are said while it waits.

ghost use Rattle.std.specs.Prelude.{◌≡◌, ◌++◌, ◌<◌, [], ◌∷◌, IfNone, MatchOption};
ghost use mathlib.Core.List.{IsPrefix};
ghost use Rattle.dspec.specs.Lanes.{place_of};
ghost use Rattle.dspec_threads.specs.{Attends.AsksAttending, Attends.AttendsOnce, Attends.AttendsWithin, Attends.LooksAttending, Attends.OpensAttending, Belts.handed_of, Belts.taken_by};
ghost use Rattle.dspec_threads.specs.{Belts.taken_from_belt, Settled.seen_by, Settled.settled_by, Settled.settled_from};

use crate::ends::Taker;
use crate::judging::Judging;
use crate::settling::Settler;
use crate::waiting::asked;
use dspec::{Lane, Path};
use dspec_cpu::{Cpu, Listed};
use dspec_record::Schema;
use std::thread;

// A service, and what was said since.
fn attend<S: Schema, J: Judging>(lane: &mut Lane<'_, S>, settler: &mut Settler<J>)
    ensures same { place_of lane.new ≡ place_of lane.old }
    ensures ring { settled_from settler.new ≡ settled_from settler.old }
    ensures attends { AttendsOnce ⟦<Cpu<S> as Listed>⟧.has_list J.may (settled_by settler.old) (settled_by settler.new) lane.old lane.new }
    ensures seen { IsPrefix (settled_by settler.old ++ seen_by settler.old) (settled_by settler.new) }
{
    lane.service();
    settler.settle(lane);
    thread::yield_now();
}

impl Taker {
    /// As `take_within`, of a lane to which verdicts are said: after each look in vain it makes a service, and settles what was said to
    /// it. So a lane that waits for a path does what the reader says of others meanwhile.
    pub fn take_settling<S: Schema, J: Judging>(
        &mut self,
        lane: &mut Lane<'_, S>,
        settler: &mut Settler<J>,
        looks: u32,
    ) -> Option<Path>
        ensures same { place_of lane.new ≡ place_of lane.old }
        ensures belt { taken_from_belt self.new ≡ taken_from_belt self.old }
        ensures ring { settled_from settler.new ≡ settled_from settler.old }
        ensures attends { AttendsWithin ⟦<Cpu<S> as Listed>⟧.has_list J.may looks (settled_by settler.old) (settled_by settler.new) lane.old lane.new }
        ensures taken { MatchOption result (taken_by self.new ≡ taken_by self.old) (λ path. taken_by self.new ≡ taken_by self.old ++ handed_of path ∷ []) }
        ensures seen { IfNone result (0 < looks → IsPrefix (settled_by settler.old ++ seen_by settler.old) (settled_by settler.new)) }
    {
        for _ in 0..looks {
            if let Some(path) = self.look_settling(lane, settler) {
                return Some(path);
            }
        }
        None
    }

    // A look, and after one in vain a service and what was said since.
    fn look_settling<S: Schema, J: Judging>(
        &mut self,
        lane: &mut Lane<'_, S>,
        settler: &mut Settler<J>,
    ) -> Option<Path>
        ensures same { place_of lane.new ≡ place_of lane.old }
        ensures belt { taken_from_belt self.new ≡ taken_from_belt self.old }
        ensures ring { settled_from settler.new ≡ settled_from settler.old }
        ensures looks { LooksAttending ⟦<Cpu<S> as Listed>⟧.has_list J.may result self.old self.new settler.old settler.new lane.old lane.new }
    {
        if let Some(path) = self.take() {
            return Some(path);
        }
        attend(lane, settler);
        None
    }
}

// An ask, and after one in vain a service and what was said since.
fn ask<S: Schema, J: Judging>(lane: &mut Lane<'_, S>, settler: &mut Settler<J>) -> Option<Path>
    ensures same { place_of lane.new ≡ place_of lane.old }
    ensures ring { settled_from settler.new ≡ settled_from settler.old }
    ensures asks { AsksAttending ⟦<Cpu<S> as Listed>⟧.has_list J.may result settler.old settler.new lane.old lane.new }
{
    if let Some(path) = asked(lane) {
        return Some(path);
    }
    attend(lane, settler);
    None
}

/// As `open_within`, of a lane to which verdicts are said: after each ask in vain it makes a service, and settles what was said to it.
pub fn open_settling<S: Schema, J: Judging>(
    lane: &mut Lane<'_, S>,
    settler: &mut Settler<J>,
    more: u32,
) -> Path
    ensures same { place_of lane.new ≡ place_of lane.old }
    ensures ring { settled_from settler.new ≡ settled_from settler.old }
    ensures opens { OpensAttending ⟦<Cpu<S> as Listed>⟧.has_list J.may more result.opening (settled_by settler.old) (settled_by settler.new) lane.old lane.new }
{
    for _ in 0..more {
        if let Some(path) = ask(lane, settler) {
            return path;
        }
    }
    lane.path()
}
