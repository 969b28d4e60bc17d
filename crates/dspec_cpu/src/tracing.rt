ghost use Rattle.std.specs.Prelude.{◌≡◌, ◌++◌, not, List, IsTrue};
ghost use Rattle.dspec_record.specs.LaidOut.{IsLaidBy};
ghost use Rattle.dspec_deeds.specs.{History.scan, declared.deed.Deed.Deed};
ghost use Rattle.dspec_table.specs.{Seats.known, Seats.IsAt, Seats.set_up, Seats.cpu_of, Steps.LoadedActivity};
ghost use Rattle.dspec_cpu.specs.{Calls.Goes, Calls.traced_deeds, Calls.is_worn_trace, Keeping.CallLeaves, Lists.IsSameCpu, Lists.number_in, Lists.schema_of, Lists.seat_of, Lists.words_of};
ghost use Rattle.dspec_cpu.specs.{Stops.is_stopped_trace, Touching.of_activity};

use crate::callable::Callable;
use crate::cpu::Cpu;
use crate::listed::Listed;
use crate::parts::CpuParts;
use crate::shared::Shared;
use dspec_deeds::Traced;
use dspec_record::{Recorded, Schema};
use dspec_table::{CpuSeat, HasDoing, Words};
use std::marker::Brand;

// The load of activity in a trace of a record that fits or doesn't.
#[inline(always)]
fn load_for<J: HasDoing, R: Recorded>(
    seat: &mut CpuSeat,
    words: &Words,
    _rec: R,
    _fits: bool,
) -> bool
    requires seat { IsAt words.now seat.old }
    requires idle { scan (set_up words.now) (cpu_of seat.old) (known seat.old).own ≡ 0 }
    ensures seat { IsAt words.now seat.new × (cpu_of seat.new ≡ cpu_of seat.old) }
    ensures step { LoadedActivity J.doing (known seat.old) (not result) (known seat.new) }
{
    seat.load_activity::<J>(words)
}

impl<S: Schema> CpuParts<S> {
    // As `Cpu::trace`, of what can be traced as a record; it stands where it is called.
    #[inline(always)]
    pub(crate) fn trace<R: Recorded>(&mut self, shared: &Shared, rec: R) -> Traced
        requires ready { ⟦<CpuParts<S> as Callable>⟧.is_ready (words_of shared.now) self.old }
        requires accepted { IsTrue (S.accepted (schema_of self.old) (R.as_record rec)) }
        requires laid { IsLaidBy (S.shape_of (schema_of self.old)) (S.text (schema_of self.old)) (R.as_record rec) (R.laid_as rec) }
        ensures ready { ⟦<CpuParts<S> as Callable>⟧.is_ready (words_of shared.now) self.new }
        ensures same { IsSameCpu self.old self.new }
        ensures leaves { CallLeaves (is_worn_trace result) (is_stopped_trace result) 1 of_activity self.old self.new }
        ensures did { Goes (known (seat_of self.old)) (traced_deeds (number_in self.old) (R.as_record rec) result) (known (seat_of self.new)) }
        ensures list { (p : List Deed) → ⟦<Cpu<S> as Listed>⟧.has_list self.old p
            → ⟦<Cpu<S> as Listed>⟧.has_list self.new (traced_deeds (number_in self.old) (R.as_record rec) result ++ p) }
    {
        if self.side.calls >= self.config.max_calls {
            self.side.counts.wear();
            return Traced::Worn;
        }
        let fits = self.side.fits(&self.config, &self.schema, rec);
        let runs = load_for::<Brand, R>(&mut self.seat, &shared.words, rec, fits);
        if !runs {
            self.side.trace_stopped::<S>();
            return Traced::Stopped;
        }
        // It answers as the test before the load did, which no running code asks any more.
        let closed = self.side.is_closed(&self.config);
        if !self.side.trace(&self.schema, rec, closed) {
            return Traced::Dropped;
        }
        Traced::Kept
    }
}
