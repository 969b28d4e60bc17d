ghost use Rattle.std.specs.Prelude.{◌≡◌, ◌<◌, length, slice_get, Some, option_copied};
ghost use Rattle.dspec_session_core.specs.declared.left.Left.{Left};
ghost use Rattle.dspec.specs.ClosedCpus.{cpus_left, lefts_from};

use crate::each_closed::ClosedCpus;
use dspec_deeds::Report;
use dspec_ring::Batch;
use dspec_session_core::Closed;

/// What is left of one CPU of a closed session.
#[derive(Debug, Clone, Copy)]
pub struct ClosedCpu<'a> {
    /// Its number, from 0 on.
    pub number: u32,
    /// The batch that it had sealed and nobody took, if there is one.
    pub sealed: Option<&'a Batch>,
    /// Its last active buffer.
    pub last: &'a Batch,
    /// Its counts, those of the close among them.
    pub report: &'a Report,
}

/// The CPU of this number of a closed session.
pub fn closed_cpu(closed: &Closed, number: u32) -> ClosedCpu<'_>
    requires { number < length closed.now }
    ensures number { result.number ≡ number }
    ensures sealed { (l : Left) → slice_get closed.now number ≡ Some l → option_copied result.sealed ≡ l.rest }
    ensures last { (l : Left) → slice_get closed.now number ≡ Some l → result.last.now ≡ l.last }
    ensures report { (l : Left) → slice_get closed.now number ≡ Some l → result.report.now ≡ l.report }
{
    let (sealed, last) = closed.rest(number);
    ClosedCpu {
        number,
        sealed,
        last,
        report: closed.report(number),
    }
}

/// All CPUs of a closed session, CPU 0 first.
pub fn closed_cpus(closed: &Closed) -> ClosedCpus<'_>
    ensures { cpus_left result ≡ lefts_from 0 closed.now }
{
    ClosedCpus { closed, next: 0 }
}
