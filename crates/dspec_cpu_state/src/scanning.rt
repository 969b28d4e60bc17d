ghost use Rattle.std.specs.Prelude.{◌≡◌, ◌<◌, ◌+◌, ◌^◌, ◌==◌, ◌∷◌, ◌||◌, false, ℕ, List};
ghost use Rattle.dspec_deeds.specs.declared.{config.Config.Config, deed.Deed.Deed, deed.Deed.TheVariants.Scan, deed.Deed.TheVariants.Miss};
ghost use Rattle.dspec_cpu_state.specs.{Counting.IsRoomy, Counting.with_missed, Counting.with_scanned, CpuStates.ShowsList};

use crate::cpu_state::CpuState;
use dspec_buffer::TraceBuffer;
use dspec_deeds::Config;
use dspec_record::Schema;

impl<B> CpuState<B> {
    /// Begins a call of speculation, which found the session running or stopped.
    #[inline]
    pub fn scan<S: Schema>(&mut self, running: bool)
    where
        B: TraceBuffer<S>,
        requires calls { self.old.calls + 1 < 2 ^ 64 }
        requires counts { IsRoomy self.old.counts }
        ensures shows { (s : S) (k : Config) (c : ℕ) (p : List Deed) → ShowsList (λ b. B.has b s) B.capacity k c p self.old
            → ShowsList (λ b. B.has b s) B.capacity k c (Scan c running ∷ p) self.new }
        ensures rest { self.new ≡ record self.old { calls = self.old.calls + 1; missed_busy = false; counts = with_scanned running self.old.counts } }
    {
        self.calls += 1;
        self.missed_busy = false;
        self.counts.scan(running);
    }

    /// Misses a slot, whose speculation was decided or not. With the last slot the call fails.
    #[inline]
    pub fn miss<S: Schema>(&mut self, config: &Config, slot: u32, busy: bool)
    where
        B: TraceBuffer<S>,
        requires counts { IsRoomy self.old.counts }
        ensures shows { (s : S) (c : ℕ) (p : List Deed) → ShowsList (λ b. B.has b s) B.capacity config.now c p self.old
            → ShowsList (λ b. B.has b s) B.capacity config.now c (Miss c slot busy ∷ p) self.new }
        ensures rest { self.new ≡ record self.old { missed_busy = busy || self.old.missed_busy; counts = with_missed (slot == config.now.nspec) (busy || self.old.missed_busy) self.old.counts } }
    {
        self.missed_busy = busy || self.missed_busy;
        self.counts.miss(slot == config.nspec, self.missed_busy);
    }
}
