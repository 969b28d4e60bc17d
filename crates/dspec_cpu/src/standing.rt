ghost use Rattle.std.specs.Prelude.{◌≡◌};
ghost use Rattle.dspec_cpu.specs.Lists.{IsSteady, number_in, schema_of};

use crate::cpu::Cpu;
use dspec_record::Schema;

impl<S: Schema> Cpu<S> {
    /// Tells what holds of the CPU, as of every one between two calls. It does nothing.
    #[inline]
    pub fn invariant(&self)
        ensures steady { IsSteady (S.shape_of (schema_of self.now)) (S.accepted (schema_of self.now)) (S.text (schema_of self.now)) self.now }
    {
        let _ = &self.parts;
    }

    /// The schema of its records.
    #[inline]
    pub fn schema(&self) -> &S
        ensures { result.now ≡ schema_of self.now }
    {
        &self.parts.schema
    }

    /// Its number in the session, from 0 on.
    #[inline]
    pub fn number(&self) -> u32
        ensures { result ≡ number_in self.now }
    {
        self.parts.cpu
    }
}
