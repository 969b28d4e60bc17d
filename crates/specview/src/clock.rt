//! What readers of a trace by time take: the frequency of its clock, and the stamps that records have.

ghost use Rattle.std.specs.{List.list_any, Prelude.◌≡◌, Prelude.◌*◌, Prelude.nat_le, Prelude.IfErr, Prelude.OnOk};
ghost use Rattle.specview.specs.Clocks.{IsClockFault, IsTakenByReaders, has_late, is_late};

use crate::fault::ViewFault;
use dspec_ctf::Form;
use dspec_interleaving::Series;
use dspec_record::Rec;

/// How many seconds of a clock have nanoseconds that readers hold, in 63 bits.
const MOST_SECONDS: u64 = 9_223_372_036;

/// Whether a clock of so many ticks a second is that late at a stamp.
fn is_late(hertz: u64, stamp: u64) -> bool
    ensures { result ≡ nat_le (9223372036 * hertz) stamp }
{
    match MOST_SECONDS.checked_mul(hertz) {
        Some(limit) => limit <= stamp,
        None => false,
    }
}

/// Whether one of these records has such a stamp.
fn has_late_record(hertz: u64, records: &[Rec]) -> bool
    ensures { result ≡ list_any (is_late hertz) records.now }
{
    records.iter().any(|rec| is_late(hertz, rec.stamp()))
}

/// Whether a CPU accepted such a record.
fn has_late(hertz: u64, accepted: &[Series<Rec>]) -> bool
    ensures { result ≡ has_late hertz accepted.now }
{
    accepted
        .iter()
        .any(|records| has_late_record(hertz, records.as_slice()))
}

/// Sees that readers take the clock of a trace of this form, and each stamp of what the CPUs accepted.
pub fn see_clock(form: Form, accepted: &[Series<Rec>]) -> Result<(), ViewFault>
    ensures taken { OnOk result (IsTakenByReaders form accepted.now) }
    ensures fault { IfErr result (IsClockFault form accepted.now) }
{
    let Form::ByTime(hertz) = form else {
        return Ok(());
    };
    if hertz == u64::MAX {
        return Err(ViewFault::GreatestFrequency);
    }
    if has_late(hertz, accepted) {
        return Err(ViewFault::LateStamp);
    }
    Ok(())
}
