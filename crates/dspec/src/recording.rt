ghost use Rattle.std.specs.Prelude.{◌≡◌, ◌↔◌, ℕ, IfOk, IsOk, IsSome};
ghost use Rattle.dspec_record.specs.{EnablingRows.EnabledRows, Record.Record};
ghost use Rattle.dspec_deeds.specs.FateAnswers.{id_given};
ghost use Rattle.dspec_cpu.specs.Lists.{schema_of};
ghost use Rattle.dspec.specs.{LaneCalls.SpeculateIfOf, LaneCalls.SpeculateOn, LaneCalls.TraceIfOf, LaneCalls.TraceOn, Lanes.place_of, LastPaths.LastRecordOn};

use crate::fault::ForeignProbe;
use crate::lane::Lane;
use crate::last_path::LastPath;
use crate::path::Path;
use dspec_cpu::{Cpu, Listed};
use dspec_deeds::{Spoken, Traced};
use dspec_probe::{Fields, Fired, Probe};
use dspec_record::{Enablings, Header, Stamped, Unstamped};
use dspec_word::SpecId;

/// What a probe does on a lane. The lane's schema has to have the probe: `on` asks once, and no call of the lane changes it. `try_record`
/// and `try_record_in` ask each time.
pub trait Recording<F: Fields>: Copy {
    /// Whether a schema has the probe.
    ghost is_of: { Self → EnabledRows → Type 0 };

    /// The record that a stamp and values stand for.
    ghost record_is: { Self → ℕ → F → Record };

    /// The probe, where the lane's schema has it: under its EPID are fields of these kinds. Two `Probes` that declare the same fields in the
    /// same order have the same probes, whatever they are called.
    fn on(self, lane: &Lane<'_, Enablings>) -> Result<Self, ForeignProbe>
        ensures due { IsOk result ↔ is_of self (schema_of lane.now.cpu.now) }
        ensures same { IfOk result (λ probe. probe ≡ self) };

    /// Traces a record of the probe into the principal buffer. Where records have no stamp, that is left out.
    fn record(self, lane: &mut Lane<'_, Enablings>, stamp: u64, values: F) -> Traced
        requires of { is_of self (schema_of lane.old.cpu.now) }
        ensures same { place_of lane.new ≡ place_of lane.old }
        ensures does { TraceOn ⟦<Cpu<Enablings> as Listed>⟧.has_list (record_is self stamp values) result lane.old lane.new };

    /// Offers a record of the probe to a path.
    fn record_in(self, lane: &mut Lane<'_, Enablings>, path: &Path, stamp: u64, values: F) -> Spoken
        requires of { is_of self (schema_of lane.old.cpu.now) }
        ensures same { place_of lane.new ≡ place_of lane.old }
        ensures does { SpeculateOn ⟦<Cpu<Enablings> as Listed>⟧.has_list (id_given path.now.opening) (record_is self stamp values) result lane.old lane.new };

    /// Offers a record of the probe to a path that keeps its last records.
    fn record_in_last(
        self,
        lane: &mut Lane<'_, Enablings>,
        path: &mut LastPath,
        stamp: u64,
        values: F,
    ) -> Spoken
        requires of { is_of self (schema_of lane.old.cpu.now) }
        ensures same { place_of lane.new ≡ place_of lane.old }
        ensures does { LastRecordOn ⟦<Cpu<Enablings> as Listed>⟧.has_list (record_is self stamp values) result path.old path.new lane.old lane.new };

    /// Offers a record of the probe to a speculation.
    fn offer(self, lane: &mut Lane<'_, Enablings>, id: SpecId, stamp: u64, values: F) -> Spoken
        requires of { is_of self (schema_of lane.old.cpu.now) }
        ensures same { place_of lane.new ≡ place_of lane.old }
        ensures does { SpeculateOn ⟦<Cpu<Enablings> as Listed>⟧.has_list id (record_is self stamp values) result lane.old lane.new };

    /// As `record`, of a probe of which nothing is known. None, and nothing was done, where the lane's schema doesn't have it.
    fn try_record(self, lane: &mut Lane<'_, Enablings>, stamp: u64, values: F) -> Option<Traced>
        ensures due { IsSome result ↔ is_of self (schema_of lane.old.cpu.now) }
        ensures same { place_of lane.new ≡ place_of lane.old }
        ensures does { TraceIfOf ⟦<Cpu<Enablings> as Listed>⟧.has_list (record_is self stamp values) result lane.old lane.new };

    /// As `record_in`, of a probe of which nothing is known. None, and nothing was done, where the lane's schema doesn't have it.
    fn try_record_in(
        self,
        lane: &mut Lane<'_, Enablings>,
        path: &Path,
        stamp: u64,
        values: F,
    ) -> Option<Spoken>
        ensures due { IsSome result ↔ is_of self (schema_of lane.old.cpu.now) }
        ensures same { place_of lane.new ≡ place_of lane.old }
        ensures does { SpeculateIfOf ⟦<Cpu<Enablings> as Listed>⟧.has_list (id_given path.now.opening) (record_is self stamp values) result lane.old lane.new };
}

impl<F: Fields> Recording<F> for Probe<F> {
    ghost use Rattle.dspec_probe.specs.Probes.{IsProbeOf, probed_record};

    ghost is_of = { IsProbeOf F.fields_are };

    ghost record_is = { λ probe stamp values. probed_record probe stamp (F.numbers_of values) };

    fn on(self, lane: &Lane<'_, Enablings>) -> Result<Self, ForeignProbe> {
        if !self.is_of(lane.schema()) {
            return Err(ForeignProbe);
        }
        Ok(self)
    }

    #[inline(always)]
    fn record(self, lane: &mut Lane<'_, Enablings>, stamp: u64, values: F) -> Traced {
        // each way is compiled with its header's numbers
        match self.header() {
            Header::One => lane.trace_recorded(Fired::<F, Unstamped>::of(self, stamp, values)),
            Header::Two => lane.trace_recorded(Fired::<F, Stamped>::of(self, stamp, values)),
        }
    }

    #[inline(always)]
    fn record_in(
        self,
        lane: &mut Lane<'_, Enablings>,
        path: &Path,
        stamp: u64,
        values: F,
    ) -> Spoken {
        self.offer(lane, path.opening().id(), stamp, values)
    }

    #[inline(always)]
    fn record_in_last(
        self,
        lane: &mut Lane<'_, Enablings>,
        path: &mut LastPath,
        stamp: u64,
        values: F,
    ) -> Spoken {
        match self.header() {
            Header::One => path.offer_recorded(
                lane,
                Fired::<F, Unstamped>::of(self, stamp, values),
            ),
            Header::Two => path.offer_recorded(lane, Fired::<F, Stamped>::of(self, stamp, values)),
        }
    }

    #[inline(always)]
    fn offer(self, lane: &mut Lane<'_, Enablings>, id: SpecId, stamp: u64, values: F) -> Spoken {
        match self.header() {
            Header::One => lane.speculate_recorded(
                id,
                Fired::<F, Unstamped>::of(self, stamp, values),
            ),
            Header::Two => lane.speculate_recorded(
                id,
                Fired::<F, Stamped>::of(self, stamp, values),
            ),
        }
    }

    #[inline]
    fn try_record(self, lane: &mut Lane<'_, Enablings>, stamp: u64, values: F) -> Option<Traced> {
        let Ok(probe) = self.on(lane) else {
            return None;
        };
        Some(probe.record(lane, stamp, values))
    }

    #[inline]
    fn try_record_in(
        self,
        lane: &mut Lane<'_, Enablings>,
        path: &Path,
        stamp: u64,
        values: F,
    ) -> Option<Spoken> {
        let Ok(probe) = self.on(lane) else {
            return None;
        };
        Some(probe.record_in(lane, path, stamp, values))
    }
}
