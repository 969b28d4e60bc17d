//! The exports of what is left of a session.

ghost use Rattle.std.specs.Prelude.{◌≡◌, slice_get};
ghost use Rattle.dspec_c.specs.{ClosedCalls.ClosedReportAnswers, ClosedCalls.RestAnswers, ClosedCalls.TellsCountsOf, ClosedCalls.TellsLeftOf, Handles.held_in, Handles.is_full};

use crate::batches::CBatch;
use crate::ended::EndedSession;
use crate::handle::{Handle, lent};
use crate::held::HandleValue;
use crate::reports::CReport;
use crate::statuses::{BAD_HANDLE, NO_BATCH, NO_SUCH_CPU, OK};

fn rest(ended: &EndedSession, cpu: u32, last: bool, batch: &mut CBatch) -> u32
    ensures { TellsLeftOf last (slice_get ended.now.closed cpu) result batch.old batch.new }
{
    if !ended.has_cpu(cpu) {
        return NO_SUCH_CPU;
    }
    let Some(left) = ended.rest(cpu, last) else {
        return NO_BATCH;
    };
    *batch = CBatch::of(left, left.buffer.bytes());
    OK
}

/// What is left of a CPU.
#[unsafe(no_mangle)]
pub extern "C" fn dspec_rest(closed: &mut Handle, cpu: u32, last: bool, batch: &mut CBatch) -> u32
    ensures answers { RestAnswers cpu last (held_in closed.old) result batch.old batch.new (held_in closed.new) }
    ensures stays { is_full closed.new ≡ is_full closed.old }
{
    lent!(closed as Closed(ended), BAD_HANDLE => rest(ended, cpu, last, batch))
}

fn report_to(ended: &EndedSession, cpu: u32, report: &mut CReport) -> u32
    ensures { TellsCountsOf (slice_get ended.now.closed cpu) (slice_get ended.now.refused.items cpu) result report.old report.new }
{
    if !ended.has_cpu(cpu) {
        return NO_SUCH_CPU;
    }
    *report = CReport::of(ended.report(cpu), ended.refused(cpu));
    OK
}

/// The counts of a CPU, to its end.
#[unsafe(no_mangle)]
pub extern "C" fn dspec_closed_report(closed: &mut Handle, cpu: u32, report: &mut CReport) -> u32
    ensures answers { ClosedReportAnswers cpu (held_in closed.old) result report.old report.new (held_in closed.new) }
    ensures stays { is_full closed.new ≡ is_full closed.old }
{
    lent!(closed as Closed(ended), BAD_HANDLE => report_to(ended, cpu, report))
}
