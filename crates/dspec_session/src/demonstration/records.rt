ghost use Rattle.std.specs.Prelude.{◌≡◌, ◌<◌, ◌^◌, IsTrue};
ghost use Rattle.dspec_session.specs.Demonstrated.{demonstrated, valued};

use dspec_record::{Enablings, Field, Rec};

/// What the demonstration enables: EPIDs 1 and 2, each with one field of four bytes.
pub(crate) fn enable() -> Enablings
    ensures { result ≡ demonstrated }
{
    let mut enablings = Enablings::new();
    let (Ok(_), Ok(_)) = (
        enablings.enable(&[Field::Four]),
        enablings.enable(&[Field::Four]),
    ) else {
        unreachable!()
    };
    enablings
}

/// A record of what is enabled, with this value.
pub(crate) fn valued_record(epid: u32, value: u32) -> Rec
    ensures value { result ≡ valued epid value }
{
    let Some(rec) = Rec::new(epid, &[u64::from(value)]) else {
        unreachable!()
    };
    rec
}
