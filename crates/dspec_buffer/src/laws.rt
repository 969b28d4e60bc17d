//! What follows from the definitions, as clauses of functions that have next to nothing to do.

ghost use Rattle.std.specs.Prelude.{◌≡◌, ◌↔◌, List, reverse, IsOkAnd, IfErr};
ghost use Rattle.dspec_buffer.specs.{BufferText.HasOneReading, Extent.Piece, Extent.records, Faults.StopsAt, Stored.BytesSay, Stored.ReadsAs};

use crate::{ByteBuffer, ReadFault, Records, TraceBuffer, read_all};
use dspec_record::Schema;

/// Bytes are the text of one list of records at most, wherever they stand.
pub fn one_reading<S: Schema>(_schema: &S)
    ensures { HasOneReading (S.shape_of _schema.now) (S.accepted _schema.now) (S.text _schema.now) }
{}

/// A `ByteBuffer` has a list of pieces exactly where its records are accepted, its bytes are those of the buffer
/// and their number is the buffer's count; and these bytes are the text of the records.
pub fn has_what_bytes_say<S: Schema>(_schema: &S, _buffer: &ByteBuffer)
    ensures exactly { (ps : List Piece)
        → ⟦<ByteBuffer as TraceBuffer<S>>⟧.has _buffer.now _schema.now ps
        ↔ BytesSay (S.shape_of _schema.now) (S.accepted _schema.now) (S.text _schema.now) _buffer.now ps }
    ensures text { (ps : List Piece)
        → ⟦<ByteBuffer as TraceBuffer<S>>⟧.has _buffer.now _schema.now ps
        → ReadsAs (S.shape_of _schema.now) (S.accepted _schema.now) (S.text _schema.now) _buffer.now ps }
{}

/// The records that were pushed, alone or in blocks, in their order: never a fault where the buffer has any pieces
/// by this schema.
pub fn read_back<'a, S: Schema>(
    schema: &'a S,
    buffer: &'a ByteBuffer,
) -> Result<Records<'a, S>, ReadFault>
    ensures pushed { (ps : List Piece) → ⟦<ByteBuffer as TraceBuffer<S>>⟧.has buffer.now schema.now ps
        → IsOkAnd result (λ read. read ≡ reverse (records ps)) }
    ensures fault { IfErr result
        (λ fault. StopsAt (S.shape_of schema.now) (S.accepted schema.now) (S.text schema.now) buffer.now.text fault) }
{
    read_all(schema, buffer.bytes())
}
