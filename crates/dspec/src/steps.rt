ghost use Rattle.std.specs.Prelude.{◌≡◌, ◌↔◌, if◌then◌else◌, IsSome};
ghost use Rattle.dspec_probe.specs.Probes.{IsProbeOf, probed_record};
ghost use Rattle.dspec_promise.specs.Promise.{commit, discard};
ghost use Rattle.dspec_cpu.specs.Lists.{schema_of};
ghost use Rattle.dspec.specs.{LaneCalls.DecisionOn, Lanes.place_of, Walks.WalksOn, Walks.TriesOn, Walks.walk_of};

use crate::clock::Clock;
use crate::handing::Handed;
use crate::lane::Lane;
use crate::path::Path;
use crate::recording::Recording;
use dspec_cpu::{Cpu, Listed};
use dspec_deeds::{Decided, Spoken};
use dspec_probe::{Fields, Probe};
use dspec_record::Enablings;

/// A path that goes on here: the lane, the clock that stamps its records, and the path as a word. It is made by naming the three, of a
/// path that is opened now or of a word that was handed on:
///
///     let path = lane.path().hand();
///     let mut steps = Steps { lane, clock: &clock, path };
///
/// Like a path it can't be let go: it is ended, or handed on. What is after its lane is known again once it was.
pub struct Steps<'l, 'a, C> {
    /// The lane on which it goes on.
    pub lane: &'l mut Lane<'a, Enablings>,
    /// What stamps its records.
    pub clock: &'l C,
    /// The path.
    pub path: Handed,
}

impl<'l, 'a, C: Clock> Steps<'l, 'a, C> {
    /// Offers a record of the probe to the path, stamped now. The lane's schema has to have the probe, as `Recording::on` asks.
    #[inline]
    pub fn record<F: Fields>(&mut self, probe: Probe<F>, values: F) -> Spoken
        requires of { IsProbeOf F.fields_are probe (schema_of self.old.lane.now.cpu.now) }
        ensures same { walk_of self.new ≡ walk_of self.old }
        ensures does { WalksOn ⟦<Cpu<Enablings> as Listed>⟧.has_list (C.stamps self.old.clock.now) (λ stamp. probed_record probe stamp (F.numbers_of values)) result self.old self.new }
    {
        let stamp = self.clock.stamp();
        probe.offer(self.lane, self.path.id(), stamp, values)
    }

    /// As `record`, of a probe of which nothing is known: it asks `Recording::on` each time. None, and nothing was done, where the lane's
    /// schema doesn't have the probe.
    #[inline]
    pub fn try_record<F: Fields>(&mut self, probe: Probe<F>, values: F) -> Option<Spoken>
        ensures due { IsSome result ↔ IsProbeOf F.fields_are probe (schema_of self.old.lane.now.cpu.now) }
        ensures same { walk_of self.new ≡ walk_of self.old }
        ensures does { TriesOn ⟦<Cpu<Enablings> as Listed>⟧.has_list (C.stamps self.old.clock.now) (λ stamp. probed_record probe stamp (F.numbers_of values)) result self.old self.new }
    {
        let Ok(probe) = probe.on(self.lane) else {
            return None;
        };
        Some(self.record(probe, values))
    }

    /// Ends the path: it is kept where that is asked, and thrown away otherwise.
    #[inline]
    pub fn end(self, keep: bool) -> Decided
        ensures same { place_of self.exit.0.now ≡ place_of self.entry.lane.now }
        ensures does { DecisionOn ⟦<Cpu<Enablings> as Listed>⟧.has_list (if keep then commit else discard) self.entry.path.id result
            self.entry.lane.now self.exit.0.now }
    {
        let Steps {
            lane,
            clock: _,
            path,
        } = self;
        let path = Path::take(path);
        if keep {
            return path.commit(lane);
        }
        path.discard(lane)
    }

    /// Hands the path on, as `Path::hand`; nothing is done on the lane.
    #[must_use]
    #[inline]
    pub fn hand(self) -> Handed
        ensures lane { self.exit.0.now ≡ self.entry.lane.now }
        ensures path { result ≡ self.entry.path }
    {
        let Steps {
            lane: _,
            clock: _,
            path,
        } = self;
        path
    }
}
