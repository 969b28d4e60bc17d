ghost use Rattle.std.specs.Prelude.{◌≡◌, ◌++◌, [], ◌∷◌, MatchOption};
ghost use Rattle.dspec.specs.Lanes.{place_of};
ghost use Rattle.dspec_threads.specs.{Belts.handed_of, Belts.taken_by, Belts.taken_from_belt, Waits.AsksFor, Waits.AsksOnce, Waits.LooksOnce, Waits.OpensWithin, Waits.ServesWithin};

use crate::ends::Taker;
use dspec::{Lane, Path};
use dspec_cpu::{Cpu, Listed};
use dspec_record::Schema;
use std::thread;

/// An ask: the path, if one was given.
pub(crate) fn asked<S: Schema>(lane: &mut Lane<'_, S>) -> Option<Path>
    ensures same { place_of lane.new ≡ place_of lane.old }
    ensures asks { AsksFor ⟦<Cpu<S> as Listed>⟧.has_list result lane.old lane.new }
{
    let path = lane.path();
    if path.opening().id().raw() != 0 {
        return Some(path);
    }
    let _ = path.hand();
    None
}

// An ask, and a service after one in vain.
fn ask<S: Schema>(lane: &mut Lane<'_, S>) -> Option<Path>
    ensures same { place_of lane.new ≡ place_of lane.old }
    ensures asks { AsksOnce ⟦<Cpu<S> as Listed>⟧.has_list result lane.old lane.new }
{
    if let Some(path) = asked(lane) {
        return Some(path);
    }
    lane.service();
    thread::yield_now();
    None
}

/// Opens a path once a slot is free: it asks at most so many times more, with a service between two asks. The `opening` of what it answers
/// says whether one was given; where it wasn't, that is the answer to the last ask.
pub fn open_within<S: Schema>(lane: &mut Lane<'_, S>, more: u32) -> Path
    ensures same { place_of lane.new ≡ place_of lane.old }
    ensures opens { OpensWithin ⟦<Cpu<S> as Listed>⟧.has_list more result.opening lane.old lane.new }
{
    for _ in 0..more {
        if let Some(path) = ask(lane) {
            return path;
        }
    }
    lane.path()
}

impl Taker {
    // A look, and a service after one in vain.
    fn look<S: Schema>(&mut self, lane: &mut Lane<'_, S>) -> Option<Path>
        ensures same { place_of lane.new ≡ place_of lane.old }
        ensures belt { taken_from_belt self.new ≡ taken_from_belt self.old }
        ensures looks { LooksOnce ⟦<Cpu<S> as Listed>⟧.has_list result self.old self.new lane.old lane.new }
    {
        if let Some(path) = self.take() {
            return Some(path);
        }
        lane.service();
        thread::yield_now();
        None
    }

    /// The next path, once it comes: it looks at most so many times, with a service of the lane after each look in vain. None where none
    /// came.
    pub fn take_within<S: Schema>(&mut self, lane: &mut Lane<'_, S>, looks: u32) -> Option<Path>
        ensures same { place_of lane.new ≡ place_of lane.old }
        ensures serves { ServesWithin ⟦<Cpu<S> as Listed>⟧.has_list looks lane.old lane.new }
        ensures belt { taken_from_belt self.new ≡ taken_from_belt self.old }
        ensures taken { MatchOption result (taken_by self.new ≡ taken_by self.old) (λ path. taken_by self.new ≡ taken_by self.old ++ handed_of path ∷ []) }
    {
        for _ in 0..looks {
            if let Some(path) = self.look(lane) {
                return Some(path);
            }
        }
        None
    }
}
