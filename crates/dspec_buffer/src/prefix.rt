ghost use Rattle.std.specs.Prelude.{◌≡◌, ◌≤◌, length, IfSome, IfNone};
ghost use Rattle.dspec_buffer.specs.{BufferText.BufferText, Faults.StopsAfter, ReadingOn.EndsAt};

use crate::reader::read_next;
use crate::{ReadFault, Records};
use dspec_record::Schema;

// How far a text can be read, and the fault there; none at its end.
fn read_up_to<S: Schema>(schema: &S, text: &[u8]) -> (usize, Option<ReadFault>)
    ensures within { result.0 ≤ length text.now }
    ensures ends { EndsAt (S.shape_of schema.now) (S.accepted schema.now) (S.text schema.now) text.now result.0 result.1 }
{
    let mut place = 0;
    loop {
        let next = match read_next(schema, text, place) {
            Ok(next) => next,
            Err(fault) => return (place, Some(fault)),
        };
        let Some(found) = next else {
            return (place, None);
        };
        place = found.1;
    }
}

/// All records up to a text's first fault, and that fault; no fault where they are the whole text. They are read again one by
/// one, in no memory of their own.
pub fn read_prefix<'a, S: Schema>(
    schema: &'a S,
    text: &'a [u8],
) -> (Records<'a, S>, Option<ReadFault>)
    ensures whole { IfNone result.1 (BufferText (S.shape_of schema.now) (S.accepted schema.now) (S.text schema.now) 0 text.now result.0) }
    ensures fault { IfSome result.1 (λ fault. StopsAfter (S.shape_of schema.now) (S.accepted schema.now) (S.text schema.now) text.now result.0 fault) }
{
    let (end, fault) = read_up_to(schema, text);
    let records = Records {
        schema,
        text: &text[..end],
        place: 0,
    };
    (records, fault)
}
