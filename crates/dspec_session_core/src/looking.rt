ghost use Rattle.std.specs.Prelude.{◌≡◌, ◌<◌, length, slice_get, Some, option_copied};
ghost use Rattle.dspec_session_core.specs.declared.left.Left.{Left};

use crate::closed::Closed;
use dspec_deeds::Report;
use dspec_ring::Batch;

impl Closed {
    /// How many CPUs the session had.
    pub fn cpus(&self) -> u32
        ensures { result ≡ length self.now }
    {
        self.left.len() as u32
    }

    /// The batch that the CPU had sealed and the consumer not taken, if there is one, and its last active buffer with the drops
    /// since the seal before.
    pub fn rest(&self, cpu: u32) -> (Option<&Batch>, &Batch)
        requires { cpu < length self.now }
        ensures sealed { (l : Left) → slice_get self.now cpu ≡ Some l → option_copied result.0 ≡ l.rest }
        ensures last { (l : Left) → slice_get self.now cpu ≡ Some l → result.1.now ≡ l.last }
    {
        let left = &self.left[cpu as usize];
        (left.rest.as_ref(), &left.last)
    }

    /// The CPU's counts, those of the close among them.
    pub fn report(&self, cpu: u32) -> &Report
        requires { cpu < length self.now }
        ensures { (l : Left) → slice_get self.now cpu ≡ Some l → result.now ≡ l.report }
    {
        &self.left[cpu as usize].report
    }
}
