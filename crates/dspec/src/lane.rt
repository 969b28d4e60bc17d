ghost use Rattle.std.specs.Prelude.{◌≡◌};
ghost use Rattle.dspec_cpu.specs.Standing.{IsCallable};

use dspec_cpu::{Cpu, Shared};
use dspec_record::Schema;

/// A CPU that is lent to whoever calls it, with what it shares.
pub struct Lane<'a, S: Schema> {
    pub(crate) shared: &'a Shared,
    pub(crate) cpu: &'a mut Cpu<S>,
    ghost callable: { IsCallable shared.now cpu.now },
}

impl<'a, S: Schema> Drop for Lane<'a, S> {
    fn drop(self)
        ensures { self.exit.1.0.now ≡ self.entry.cpu.now }
    {
        let Lane { shared: _, cpu: _ } = self;
    }
}

impl<'a, S: Schema> Lane<'a, S> {
    /// A CPU of a session as a lane, until that is let go.
    #[inline]
    pub fn of(shared: &'a Shared, cpu: &'a mut Cpu<S>) -> Lane<'a, S>
        requires { IsCallable shared.now cpu.old }
        ensures reference { result.cpu.ghost_name ≡ cpu.entry.ghost_name }
        ensures same { result.cpu.now ≡ cpu.old }
        ensures shared { result.shared.now ≡ shared.now }
    {
        Lane { shared, cpu }
    }
}
