ghost use Rattle.std.specs.Prelude.{◌≡◌, List};
ghost use Rattle.dspec_deeds.specs.declared.deed.Deed.{Deed};
ghost use Rattle.dspec_cpu.specs.{Between.cpu_block_fits, Lists.schema_of, Lists.words_of, OneCall.CommitsIfRoom, OneCall.made_all_calls, Standing.Belongs, Standing.identity};

use crate::cpu::Cpu;
use crate::listed::Listed;
use crate::shared::Shared;
use dspec_deeds::Decided;
use dspec_record::Schema;
use dspec_word::SpecId;

impl<S: Schema> Cpu<S> {
    /// Whether the CPU made all its calls: each further call that counts is worn.
    #[inline]
    pub fn is_worn(&self) -> bool
        ensures { result ≡ made_all_calls self.now }
    {
        self.parts.side.calls >= self.parts.config.max_calls
    }

    /// Whether this CPU's active principal buffer would now take its block of the speculation whole. A CPU that is no caller has an
    /// empty block, which always fits. It says nothing of the other callers' blocks, and takes no step at the words.
    #[inline]
    pub fn has_room_for(&self, id: SpecId) -> bool
        ensures { (p : List Deed) → ⟦<Cpu<S> as Listed>⟧.has_list self.now p → result ≡ cpu_block_fits (S.shape_of (schema_of self.now)) self.now id p }
    {
        if !self.parts.side.marks.has(id) {
            return true;
        }
        self.parts.measure_slot(id, true, true).0
    }

    /// Commits a speculation as `commit` does, but not where this CPU's own block of it would be lost: then the answer is None, and the
    /// CPU is as it was. A service that switches the principal buffers makes room. The answer is never Lost.
    #[inline]
    pub fn commit_if_room(&mut self, shared: &Shared, id: SpecId) -> Option<Decided>
        requires of { Belongs (words_of shared.now) (identity self.old) }
        ensures same { identity self.new ≡ identity self.old }
        ensures does { CommitsIfRoom ⟦<Cpu<S> as Listed>⟧.has_list S.shape_of id result self.old self.new }
    {
        self.invariant();
        if !self.is_worn() && !self.has_room_for(id) {
            return None;
        }
        Some(self.commit(shared, id))
    }
}
