ghost use Rattle.std.specs.Prelude.{◌≡◌, List};
ghost use Rattle.dspec_deeds.specs.{Reports.report, declared.deed.Deed.Deed};
ghost use Rattle.dspec_paths.specs.Lent.{lent_identity};
ghost use Rattle.dspec_cpu.specs.{Lists.config_of, Lists.number_in, Lists.worn_of, OneCall.OffersValues};

use crate::lent_cpu::LentCpu;
use dspec_cpu::{Cpu, Listed};
use dspec_deeds::{Report, Spoken};
use dspec_record::Schema;
use dspec_word::SpecId;

impl<'a, S: Schema> LentCpu<'a, S> {
    /// Offers the record with these values, and this stamp, 0 where records have none, to a speculation. None: there are more than
    /// eight values, or the schema doesn't accept the record; then nothing was done.
    #[inline]
    pub fn offer(&mut self, id: SpecId, epid: u32, stamp: u64, values: &[u64]) -> Option<Spoken>
        ensures same { lent_identity self.new ≡ lent_identity self.old }
        ensures offers { OffersValues ⟦<Cpu<S> as Listed>⟧.has_list S.accepted id epid stamp values.now result self.old.cpu.now self.new.cpu.now }
    {
        self.cpu.offer(self.shared, id, epid, stamp, values)
    }

    /// The CPU's counts so far.
    pub fn report(&self) -> Report
        ensures { (p : List Deed) → ⟦<Cpu<S> as Listed>⟧.has_list self.now.cpu.now p
            → result ≡ report (config_of self.now.cpu.now) (number_in self.now.cpu.now) (worn_of self.now.cpu.now) p }
    {
        self.cpu.report(self.shared)
    }
}
