ghost use Rattle.std.specs.Prelude.{◌≡◌};
ghost use Rattle.dspec_cpu.specs.Standing.{IsCallable};

use crate::speculation_calls::SpeculationCalls;
use dspec_cpu::{Cpu, Listed, Shared};
use dspec_deeds::{Decided, Opening};
use dspec_record::Schema;
use dspec_word::SpecId;

/// A CPU of a session, lent to a table of its paths.
pub struct LentCpu<'a, S: Schema> {
    pub(crate) shared: &'a Shared,
    pub(crate) cpu: &'a mut Cpu<S>,
    ghost callable: { IsCallable shared.now cpu.now },
}

impl<'a, S: Schema> Drop for LentCpu<'a, S> {
    fn drop(self)
        ensures { self.exit.1.0.now ≡ self.entry.cpu.now }
    {
        let LentCpu { shared: _, cpu: _ } = self;
    }
}

impl<'a, S: Schema> LentCpu<'a, S> {
    /// A CPU, until this is let go.
    #[inline]
    pub fn of(shared: &'a Shared, cpu: &'a mut Cpu<S>) -> LentCpu<'a, S>
        requires { IsCallable shared.now cpu.old }
        ensures reference { result.cpu.ghost_name ≡ cpu.entry.ghost_name }
        ensures same { result.cpu.now ≡ cpu.old }
        ensures shared { result.shared.now ≡ shared.now }
    {
        LentCpu { shared, cpu }
    }
}

impl<'a, S: Schema> SpeculationCalls for LentCpu<'a, S> {
    ghost use Rattle.dspec_cpu.specs.{Called.called, OneCall.OpensOne};
    ghost use Rattle.dspec_paths.specs.{Lent.LentIdentity, Lent.lent_identity, Rooms.LacksRoom};

    ghost Identity = { LentIdentity S };

    ghost identity = { lent_identity };

    ghost made = { λ b. called b.cpu.now };

    ghost asked = { λ o x y. OpensOne ⟦<Cpu<S> as Listed>⟧.has_list o x.cpu.now y.cpu.now };

    ghost lacks_room = { λ b id. LacksRoom ⟦<Cpu<S> as Listed>⟧.has_list S.shape_of b.cpu.now id };

    #[inline]
    fn speculation(&mut self) -> Opening {
        self.cpu.speculation(self.shared)
    }

    #[inline]
    fn commit(&mut self, id: SpecId) -> Decided {
        self.cpu.commit(self.shared, id)
    }

    #[inline]
    fn commit_if_room(&mut self, id: SpecId) -> Option<Decided> {
        self.cpu.commit_if_room(self.shared, id)
    }

    #[inline(always)]
    fn discard(&mut self, id: SpecId) -> Decided {
        self.cpu.discard(self.shared, id)
    }
}
