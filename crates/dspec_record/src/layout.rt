ghost use Rattle.std.specs.Prelude.{◌≡◌, ◌≤◌, length};
ghost use Rattle.dspec_record.specs.EnablingFields.{padded_places, padded_limits};

use crate::enabling::MAX_FIELDS;
use crate::{Field, Header};

/// The place of each of these fields without a stamp, in bytes from the record's start; 0 after the last.
pub(crate) fn places_of(fields: &[Field]) -> [u8; MAX_FIELDS]
    requires { length fields.now ≤ 8 }
    ensures { result ≡ padded_places fields.now }
{
    let mut places = [0; MAX_FIELDS];
    let mut end = Header::One.fields_start();
    for (i, field) in fields.iter().enumerate() {
        let place = field.place(end);
        places[i] = place as u8;
        end = place + field.width();
    }
    places
}

/// The greatest value of each of these fields; 0 after the last.
pub(crate) fn limits_of(fields: &[Field]) -> [u64; MAX_FIELDS]
    requires { length fields.now ≤ 8 }
    ensures { result ≡ padded_limits fields.now }
{
    let mut limits = [0; MAX_FIELDS];
    for (i, field) in fields.iter().enumerate() {
        limits[i] = field.limit();
    }
    limits
}
