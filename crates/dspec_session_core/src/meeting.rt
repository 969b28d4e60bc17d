ghost use Rattle.std.specs.Prelude.{◌≡◌, List};
ghost use Rattle.dspec_deeds.specs.declared.deed.Deed.{Deed};
ghost use Rattle.dspec_table.specs.{Meeting.Met, Seats.known};
ghost use Rattle.dspec_cpu.specs.{Keeping.MovesItsSeat, Lists.seat_of, Lists.words_of, Lists.worn_of, Standing.Belongs, Standing.identity};
ghost use Rattle.dspec_session_core.specs.Consumers.{IsConsumerOf, IsSameConsumer, view_of};

use crate::consumer::Consumer;
use dspec_cpu::{Cpu, Listed, Shared};
use dspec_record::Schema;

impl Consumer {
    /// Meets a CPU of the session, between calls: each has then seen what the other had, and the CPU knows what was asked of it.
    /// Neither does a deed.
    pub fn meet<S: Schema>(&mut self, shared: &Shared, cpu: &mut Cpu<S>)
        requires session { IsConsumerOf (words_of shared.now) self.old }
        requires of { Belongs (words_of shared.now) (identity cpu.old) }
        ensures session { IsConsumerOf (words_of shared.now) self.new }
        ensures same { IsSameConsumer self.old self.new }
        ensures same_cpu { (identity cpu.new ≡ identity cpu.old) × (worn_of cpu.new ≡ worn_of cpu.old) }
        ensures leaves { MovesItsSeat cpu.old cpu.new }
        ensures list { (p : List Deed) → ⟦<Cpu<S> as Listed>⟧.has_list cpu.old p → ⟦<Cpu<S> as Listed>⟧.has_list cpu.new p }
        ensures met { Met (known (seat_of cpu.old)) (view_of self.old) (known (seat_of cpu.new)) (view_of self.new) }
        ensures asks { (view_of self.new).asks ≡ (view_of self.old).asks }
        ensures ends { self.new.ends ≡ self.old.ends }
    {
        cpu.meet(shared, &mut self.seat);
    }
}
