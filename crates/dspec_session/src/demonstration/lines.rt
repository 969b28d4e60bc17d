ghost use Rattle.std.specs.Prelude.{◌≡◌, ◌<◌, ◌==◌, length, slice_get, Some};
ghost use Rattle.dspec_deeds.specs.Reports.{records_of_report};
ghost use Rattle.dspec_session_core.specs.declared.left.Left.{Left};
ghost use Rattle.dspec_session.specs.Rising.{FollowsLeft};

use super::order::Order;
use dspec_deeds::Report;
use dspec_record::Schema;
use dspec_session_core::Closed;

/// What the demonstration tells of one CPU.
#[derive(Clone, Copy, Debug, PartialEq, Eq)]
pub struct DemoLine {
    /// The CPU's number.
    pub cpu: u32,
    /// How many records it offered.
    pub offered: u64,
    /// Whether each of them has one fate in its report.
    pub balanced: bool,
    /// Whether the values of EPID 1 rise strictly in what was taken from it and in what was left.
    pub ordered: bool,
}

// Whether the records of a report add up to those offered: each fate is taken off these in turn.
fn is_balanced(report: &Report) -> bool
    ensures { result ≡ (records_of_report report.now == report.now.offered) }
{
    let Some(rest) = report.offered.checked_sub(report.accepted) else {
        return false;
    };
    let Some(rest) = rest.checked_sub(report.dropped) else {
        return false;
    };
    let Some(rest) = rest.checked_sub(report.specdropped) else {
        return false;
    };
    let Some(rest) = rest.checked_sub(report.lost) else {
        return false;
    };
    let Some(rest) = rest.checked_sub(report.discarded) else {
        return false;
    };
    let Some(rest) = rest.checked_sub(report.void) else {
        return false;
    };
    rest == report.held
}

// Whether the values still rise in what is left of a CPU, after what was taken.
fn rises_on<S: Schema>(closed: &Closed, schema: &S, cpu: u32, taken: Order) -> bool
    requires { cpu < length closed.now }
    ensures { (l : Left) → slice_get closed.now cpu ≡ Some l → FollowsLeft (S.shape_of schema.now) (S.accepted schema.now) (S.text schema.now) l taken result }
{
    let (rest, last) = closed.rest(cpu);
    let mut order = taken;
    if let Some(batch) = rest {
        order.read(schema, batch.buffer.bytes());
    }
    order.read(schema, last.buffer.bytes());
    order.rises
}

/// The line of a CPU of a session that has ended, where the values of what was taken from it had this order.
pub(crate) fn line_of<S: Schema>(closed: &Closed, schema: &S, cpu: u32, taken: Order) -> DemoLine
    requires { cpu < length closed.now }
    ensures cpu { result.cpu ≡ cpu }
    ensures offered { (l : Left) → slice_get closed.now cpu ≡ Some l → result.offered ≡ l.report.offered }
    ensures balanced { (l : Left) → slice_get closed.now cpu ≡ Some l → result.balanced ≡ (records_of_report l.report == l.report.offered) }
    ensures ordered { (l : Left) → slice_get closed.now cpu ≡ Some l → FollowsLeft (S.shape_of schema.now) (S.accepted schema.now) (S.text schema.now) l taken result.ordered }
{
    let report = closed.report(cpu);
    DemoLine {
        cpu,
        offered: report.offered,
        balanced: is_balanced(report),
        ordered: rises_on(closed, schema, cpu, taken),
    }
}
