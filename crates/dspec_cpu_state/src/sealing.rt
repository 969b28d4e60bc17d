ghost use Rattle.std.specs.Prelude.{◌≡◌, ◌<◌, ◌+◌, ◌^◌, ℕ, List};
ghost use Rattle.dspec_deeds.specs.declared.{config.Config.Config, deed.Deed.Deed};
ghost use Rattle.dspec_cpu_state.specs.{CpuStates.ShowsList, Showing.IsGrown, Showing.ShowsSeal};

use crate::cpu_state::CpuState;
use dspec_buffer::TraceBuffer;
use dspec_record::Schema;
use std::mem;

impl<B> CpuState<B> {
    /// Seals the active buffer: the next one, which has to be empty, is active, and the one that was sealed is in its place. The
    /// answer is the drops of the batch.
    #[inline]
    pub fn seal<S: Schema>(&mut self, next: &mut B) -> u64
    where
        B: TraceBuffer<S>,
        requires seals { self.old.seals + 1 < 2 ^ 64 }
        ensures shows { (s : S) (k : Config) (c : ℕ) (p : List Deed) → ShowsSeal (λ b. B.has b s) B.capacity k c p next.old self.old self.new }
        ensures batch { (s : S) (k : Config) (c : ℕ) (p : List Deed) → ShowsList (λ b. B.has b s) B.capacity k c p self.old
            → IsGrown (λ b. B.has b s) B.capacity k c p next.new result }
        ensures sealed { next.new ≡ self.old.active }
        ensures drops { result ≡ self.old.drops }
        ensures rest { self.new ≡ record self.old { seals = self.old.seals + 1; active = next.old; drops = 0 } }
    {
        mem::swap(&mut self.active, next);
        self.seals += 1;
        let drops = self.drops;
        self.drops = 0;
        drops
    }
}
