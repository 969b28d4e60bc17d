ghost use Rattle.std.specs.Prelude.{◌≡◌, ◌++◌, List, reverse, OnOk, OnErr};
ghost use Rattle.dspec_buffer.specs.Extent.{Piece, records};

use dspec_buffer::TraceBuffer;
use dspec_interleaving::Series;
use dspec_record::{Rec, Schema};
use std::alloc::AllocError;

/// Adds all records of a buffer, in their order. A refused growth changes nothing.
pub fn append_records<S: Schema, B: TraceBuffer<S>>(
    to: &mut Series<Rec>,
    schema: &S,
    buffer: &B,
) -> Result<(), AllocError>
    ensures ok { OnOk result ((ps : List Piece) → B.has buffer.now schema.now ps → to.new ≡ to.old ++ reverse (records ps)) }
    ensures err { OnErr result (to.new ≡ to.old) }
{
    let before = to.len();
    let mut cursor = 0;
    for _ in 0..buffer.count() {
        let Some((rec, next)) = buffer.next(schema, cursor) else {
            break;
        };
        if to.push(rec).is_err() {
            to.truncate(before);
            return Err(AllocError);
        }
        cursor = next;
    }
    Ok(())
}
