ghost use Rattle.std.specs.Prelude.{◌≡◌, ◌<◌, ◌+◌, ◌^◌, ℕ, List, IsTrue};
ghost use Rattle.dspec_record.specs.{LaidOut.IsLaidBy, Record.Record};
ghost use Rattle.dspec_deeds.specs.declared.{config.Config.Config, deed.Deed.Deed, deed.Deed.TheVariants.Trace};
ghost use Rattle.dspec_cpu_state.specs.{Counting.IsRoomy, Counting.with_traced, Showing.ShowsNext, Showing.TellsRecordRoom, Showing.kept_trace};

use crate::cpu_state::CpuState;
use crate::fitting::keep_open;
use dspec_buffer::TraceBuffer;
use dspec_deeds::TraceFate;
use dspec_record::{Recorded, Schema};

impl<B> CpuState<B> {
    /// Traces a record into the active principal buffer, which is closed or not; it is kept, or dropped where it doesn't fit.
    #[inline]
    pub fn trace<S: Schema, R: Recorded>(&mut self, schema: &S, rec: R, closed: bool) -> bool
    where
        B: TraceBuffer<S>,
        requires accepted { IsTrue (S.accepted schema.now (R.as_record rec)) }
        requires laid { IsLaidBy (S.shape_of schema.now) (S.text schema.now) (R.as_record rec) (R.laid_as rec) }
        requires calls { self.old.calls + 1 < 2 ^ 64 }
        requires drops { self.old.drops + 1 < 2 ^ 64 }
        requires counts { IsRoomy self.old.counts }
        ensures answer { (k : Config) (c : ℕ) (p : List Deed) → TellsRecordRoom (λ b. B.has b schema.now) B.capacity k c p
            (S.shape_of schema.now) closed (R.as_record rec) self.old result }
        ensures shows { (k : Config) (c : ℕ) (p : List Deed) → ShowsNext (λ b. B.has b schema.now) B.capacity k c p
            (Trace c (R.as_record rec) (kept_trace result)) self.old self.new }
        ensures counts { self.new.counts ≡ with_traced (kept_trace result) self.old.counts }
        ensures rest { self.new ≡ record self.old { calls = self.old.calls + 1; active = self.new.active; drops = self.new.drops; counts = self.new.counts } }
    {
        self.calls += 1;
        if !keep_open(&mut self.active, schema, rec, closed) {
            self.drops += 1;
            self.counts.trace(TraceFate::Dropped);
            return false;
        }
        self.counts.trace(TraceFate::Kept);
        true
    }

    /// Counts a call of trace that found the session stopped.
    #[inline]
    pub fn trace_stopped<S: Schema>(&mut self)
    where
        B: TraceBuffer<S>,
        requires calls { self.old.calls + 1 < 2 ^ 64 }
        requires counts { IsRoomy self.old.counts }
        ensures shows { (s : S) (k : Config) (c : ℕ) (p : List Deed) (r : Record)
            → ShowsNext (λ b. B.has b s) B.capacity k c p (Trace c r TraceFate.Stopped) self.old self.new }
        ensures rest { self.new ≡ record self.old { calls = self.old.calls + 1; counts = with_traced TraceFate.Stopped self.old.counts } }
    {
        self.calls += 1;
        self.counts.trace(TraceFate::Stopped);
    }
}
