ghost use Rattle.std.specs.Prelude.{◌≡◌, List};
ghost use Rattle.dspec_deeds.specs.{Own.dropped_in, Reports.report, declared.deed.Deed.Deed};
ghost use Rattle.dspec_cpu.specs.{BlockAt.IsBlockAt, Dropped.drops_told, Lists.config_of, Lists.number_in, Lists.schema_of, Lists.words_of, Lists.worn_of, OpenAt.IsOpenAt, Standing.Belongs};
ghost use Rattle.dspec_cpu.specs.{Standing.identity};

use crate::cpu::Cpu;
use crate::listed::Listed;
use crate::shared::Shared;
use dspec_deeds::Report;
use dspec_record::Schema;
use dspec_word::SpecId;

// A count of drops as a number of 32 bits.
#[inline]
fn told(drops: u64) -> u32
    ensures { result ≡ drops_told drops }
{
    if drops > u64::from(u32::MAX) {
        return u32::MAX;
    }
    drops as u32
}

impl<S: Schema> Cpu<S> {
    /// The counts so far. It takes no step at the words.
    pub fn report(&self, _shared: &Shared) -> Report
        requires of { Belongs (words_of _shared.now) (identity self.now) }
        ensures { (p : List Deed) → ⟦<Cpu<S> as Listed>⟧.has_list self.now p
            → result ≡ report (config_of self.now) (number_in self.now) (worn_of self.now) p }
    {
        self.parts.side.counts.report()
    }

    /// How many records were dropped from this CPU's buffer of the speculation since it became a caller: where there are any, the
    /// end of the path is cut. 0 where it is no caller, and once the slot's next speculation was granted to it. At the most
    /// `u32::MAX`. It takes no step at the words.
    pub fn dropped_in(&self, id: SpecId) -> u32
        ensures { (p : List Deed) → ⟦<Cpu<S> as Listed>⟧.has_list self.now p → result ≡ drops_told (dropped_in (number_in self.now) id p) }
    {
        if !self.parts.is_inside(id) {
            return 0;
        }
        told(self.parts.side.dropped_in::<S>(id))
    }

    /// The speculation of the slot of which this CPU has records: granted to it last, and neither decided nor settled by it. Another
    /// CPU may have decided it, which the next service settles. None: it has records of none of the slot, or the session has no
    /// such slot. It takes no step at the words.
    pub fn open_at(&self, slot: u32) -> Option<SpecId>
        ensures { (p : List Deed) → ⟦<Cpu<S> as Listed>⟧.has_list self.now p → IsOpenAt (number_in self.now) slot p result }
    {
        if slot == 0 || slot > self.parts.config.nspec {
            return None;
        }
        let (mark, count) = self.parts.side.last_kept::<S>(slot);
        if count == 0 {
            return None;
        }
        Some(SpecId::of(mark - 1, slot))
    }

    /// The text of the records that this CPU has of the slot's speculation (`open_at`), the oldest first; nothing where it has none. It
    /// takes no step at the words.
    pub fn block_at(&self, slot: u32) -> &[u8]
        ensures { let s = schema_of self.now in (p : List Deed) → ⟦<Cpu<S> as Listed>⟧.has_list self.now p
            → IsBlockAt (S.shape_of s) (S.accepted s) (S.text s) (number_in self.now) slot p result.now }
    {
        if slot > self.parts.config.nspec || slot == 0 {
            return &[];
        }
        self.parts.side.speculative[slot as usize - 1].bytes()
    }
}
