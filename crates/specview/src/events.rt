//! The events of a play.

ghost use Rattle.std.specs.Prelude.{◌≡◌, [], min, replicate};
ghost use Rattle.dspec_schedule.specs.Schedules.{plan_of};
ghost use Rattle.specview.specs.Traces.{event_rows, greatest_epid, greatest_of};

use dspec_interleaving::Series;
use dspec_record::{Enablings, Header, Rec};
use dspec_schedule::Schedule;

/// The most events of a trace.
const MAX_EVENTS: u32 = 64;

/// The greatest EPID of these records; 0 where there is none.
fn greatest_of(records: &[Rec]) -> u32
    ensures { result ≡ greatest_of records.now }
{
    let mut greatest: u32 = 0;
    for rec in records {
        greatest = greatest.max(rec.epid());
    }
    greatest
}

/// The greatest EPID of what the CPUs accepted.
fn greatest_epid(accepted: &[Series<Rec>]) -> u32
    ensures { result ≡ greatest_epid accepted.now }
{
    let mut greatest: u32 = 0;
    for records in accepted {
        greatest = greatest.max(greatest_of(records.as_slice()));
    }
    greatest
}

/// So many events without fields, 64 at the most.
fn plain_events(count: u32) -> Enablings
    ensures { result ≡ record { header = Header.One; rows = replicate (min count 64) [] } }
{
    let mut events = Enablings::new();
    for _place in 0..count.min(MAX_EVENTS) {
        let Ok(_epid) = events.enable(&[]) else {
            unreachable!()
        };
    }
    events
}

/// The events of a play: the enablings of its schedule; of the default action, events without fields as far as the greatest EPID,
/// but 64 at the most.
pub fn events_of(schedule: &Schedule, accepted: &[Series<Rec>]) -> Enablings
    ensures { result ≡ event_rows (plan_of schedule.now) accepted.now }
{
    if let Some(enablings) = schedule.enablings {
        return enablings;
    }
    let plain = plain_events(greatest_epid(accepted));
    match schedule.header() {
        Header::One => plain,
        Header::Two => plain.stamped(),
    }
}
