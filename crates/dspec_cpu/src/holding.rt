ghost use Rattle.std.specs.Prelude.{◌≡◌, true, List, length};
ghost use Rattle.dspec_deeds.specs.{History.in_range, Own.held, declared.deed.Deed.Deed};
ghost use Rattle.dspec_cpu.specs.Between.{OfCaller, cpu_block_fits};

use crate::cpu::Cpu;
use crate::listed::Listed;
use crate::parts::CpuParts;
use dspec_record::Schema;
use dspec_word::SpecId;

impl<S: Schema> CpuParts<S> {
    /// Whether the identifier's slot is one of the session's.
    pub(crate) fn is_inside(&self, id: SpecId) -> bool
        ensures { result ≡ in_range self.now.config id }
    {
        (id.slot() as usize).wrapping_sub(1) < self.config.nspec as usize
    }

    /// Whether the active principal buffer would take the CPU's block of the speculation, and how many records that has; nothing
    /// outside the slots.
    pub(crate) fn measure_slot(&self, id: SpecId, mine: bool, inside: bool) -> (bool, u32)
        requires inside { inside ≡ in_range self.now.config id }
        requires some { (p : List Deed) × ⟦<Cpu<S> as Listed>⟧.is_shown self.now p }
        ensures fits { inside ≡ true → OfCaller ⟦<Cpu<S> as Listed>⟧.is_shown self.now id mine (λ p. result.0 ≡ cpu_block_fits (S.shape_of self.now.schema) self.now id p) }
        ensures count { inside ≡ true → OfCaller ⟦<Cpu<S> as Listed>⟧.is_shown self.now id mine (λ p. result.1 ≡ length (held self.now.cpu id p)) }
    {
        if !inside {
            return (false, 0);
        }
        self.side.measure::<S>(&self.config, id, mine)
    }
}
