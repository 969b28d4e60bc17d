ghost use Rattle.std.specs.Prelude.{◌≡◌, length};

use dspec_deeds::Report;
use dspec_ring::Batch;
use dspec_session_core::Closed;

/// What is left of a session, of how many CPUs, and how many records each of them refused.
#[derive(Drop)]
pub struct EndedSession {
    pub closed: Closed,
    pub cpus: u32,
    pub refused: Vec<u64>,
    pub ghost all: { (cpus ≡ length closed) × (length refused.items ≡ length closed) },
}

impl EndedSession {
    ghost use Rattle.std.specs.Prelude.{◌≡◌, ◌<◌, IsTrue, length, slice_get, Some, option_copied, ◌↔◌};
    ghost use Rattle.dspec_session_core.specs.declared.left.Left.{Left};
    ghost use Rattle.dspec_c.specs.ClosedCalls.{left_of};

    /// Whether there is such a CPU.
    pub fn has_cpu(&self, cpu: u32) -> bool
        ensures { IsTrue result ↔ (cpu < length self.now.closed) }
    {
        cpu < self.cpus
    }

    /// The batch that the CPU handed on and nobody took, or its last buffer.
    pub fn rest(&self, cpu: u32, last: bool) -> Option<&Batch>
        requires { cpu < length self.now.closed }
        ensures { (l : Left) → slice_get self.now.closed cpu ≡ Some l → option_copied result ≡ left_of last l }
    {
        let (sealed, active) = self.closed.rest(cpu);
        if last { Some(active) } else { sealed }
    }

    /// The CPU's counts.
    pub fn report(&self, cpu: u32) -> &Report
        requires { cpu < length self.now.closed }
        ensures { (l : Left) → slice_get self.now.closed cpu ≡ Some l → result.now ≡ l.report }
    {
        self.closed.report(cpu)
    }

    /// How many records the CPU refused.
    pub fn refused(&self, cpu: u32) -> u64
        requires { cpu < length self.now.closed }
        ensures { slice_get self.now.refused.items cpu ≡ Some result }
    {
        self.refused[cpu as usize]
    }
}
