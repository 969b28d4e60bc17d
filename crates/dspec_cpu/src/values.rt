ghost use Rattle.std.specs.Prelude.{◌≡◌, IsTrue};
ghost use Rattle.dspec_record.specs.LaidOut.{IsLaidBy};
ghost use Rattle.dspec_cpu.specs.{Lists.schema_of, Lists.words_of, OneCall.TracesOne, OneCall.SpeculatesOne, OneCall.RecordsValues, OneCall.OffersValues, Standing.Belongs, Standing.identity};

use crate::cpu::Cpu;
use crate::listed::Listed;
use crate::shared::Shared;
use dspec_deeds::{Spoken, Traced};
use dspec_record::{Recorded, Schema};
use dspec_word::SpecId;

impl<S: Schema> Cpu<S> {
    /// Traces the record with these values, and this stamp, 0 where records have none. None: there are more than eight values, or
    /// the schema doesn't accept the record; then nothing was done.
    pub fn record(
        &mut self,
        shared: &Shared,
        epid: u32,
        stamp: u64,
        values: &[u64],
    ) -> Option<Traced>
        requires of { Belongs (words_of shared.now) (identity self.old) }
        ensures same { identity self.new ≡ identity self.old }
        ensures does { RecordsValues ⟦<Cpu<S> as Listed>⟧.has_list S.accepted epid stamp values.now result self.old self.new }
    {
        let rec = self.schema().borrowed(epid, stamp, values)?;
        Some(self.trace_recorded(shared, rec))
    }

    /// Offers the record with these values, and this stamp, 0 where records have none, to a speculation. None: there are more than
    /// eight values, or the schema doesn't accept the record; then nothing was done.
    pub fn offer(
        &mut self,
        shared: &Shared,
        id: SpecId,
        epid: u32,
        stamp: u64,
        values: &[u64],
    ) -> Option<Spoken>
        requires of { Belongs (words_of shared.now) (identity self.old) }
        ensures same { identity self.new ≡ identity self.old }
        ensures does { OffersValues ⟦<Cpu<S> as Listed>⟧.has_list S.accepted id epid stamp values.now result self.old self.new }
    {
        let rec = self.schema().borrowed(epid, stamp, values)?;
        Some(self.speculate_recorded(shared, id, rec))
    }

    /// As `trace`, of what can be traced as a record.
    #[inline(always)]
    pub fn trace_recorded<R: Recorded>(&mut self, shared: &Shared, rec: R) -> Traced
        requires of { Belongs (words_of shared.now) (identity self.old) }
        requires accepted { IsTrue (S.accepted (schema_of self.old) (R.as_record rec)) }
        requires laid { IsLaidBy (S.shape_of (schema_of self.old)) (S.text (schema_of self.old)) (R.as_record rec) (R.laid_as rec) }
        ensures same { identity self.new ≡ identity self.old }
        ensures does { TracesOne ⟦<Cpu<S> as Listed>⟧.has_list (R.as_record rec) result self.old self.new }
    {
        self.parts.trace(shared, rec)
    }

    /// As `speculate`, of what can be traced as a record.
    #[inline(always)]
    pub fn speculate_recorded<R: Recorded>(&mut self, shared: &Shared, id: SpecId, rec: R) -> Spoken
        requires of { Belongs (words_of shared.now) (identity self.old) }
        requires accepted { IsTrue (S.accepted (schema_of self.old) (R.as_record rec)) }
        requires laid { IsLaidBy (S.shape_of (schema_of self.old)) (S.text (schema_of self.old)) (R.as_record rec) (R.laid_as rec) }
        ensures same { identity self.new ≡ identity self.old }
        ensures does { SpeculatesOne ⟦<Cpu<S> as Listed>⟧.has_list id (R.as_record rec) result self.old self.new }
    {
        self.parts.speculate(shared, id, rec, true)
    }

    /// As `speculate_recorded`, of a record that is long as code: the call stands in it once, and asks where it has to whether the CPU
    /// is a caller.
    #[inline(always)]
    pub fn speculate_packed<R: Recorded>(&mut self, shared: &Shared, id: SpecId, rec: R) -> Spoken
        requires of { Belongs (words_of shared.now) (identity self.old) }
        requires accepted { IsTrue (S.accepted (schema_of self.old) (R.as_record rec)) }
        requires laid { IsLaidBy (S.shape_of (schema_of self.old)) (S.text (schema_of self.old)) (R.as_record rec) (R.laid_as rec) }
        ensures same { identity self.new ≡ identity self.old }
        ensures does { SpeculatesOne ⟦<Cpu<S> as Listed>⟧.has_list id (R.as_record rec) result self.old self.new }
    {
        self.parts.speculate(shared, id, rec, false)
    }
}
