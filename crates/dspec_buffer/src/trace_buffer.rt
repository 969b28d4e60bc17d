ghost use Rattle.std.specs.Bool.{OnTrue, OnFalse};
ghost use Rattle.std.specs.Prelude.{◌≡◌, ◌≤◌, ◌%◌, ◌^◌, ◌⊎◌, ◌↔◌, ℕ, IsTrue, IfOk, List, [], ◌∷◌, length, map, reverse, nat_le, Option};
ghost use Rattle.dspec_record.specs.{LaidOut.IsLaidBy, Record.Record};
ghost use Rattle.dspec_buffer.specs.{Extent.Piece, Extent.one, Extent.block, Extent.records, Extent.reserved, Extent.extent, Extent.piece_fits, Walking.StepsAhead};

use dspec_record::{Rec, Recorded, Schema};
use std::alloc::{AllocError, Global};

/// A buffer of fixed size that keeps records alone or in blocks (the Solaris Dynamic Tracing Guide, "Buffers and
/// Buffering"). Every clause is said of each list of pieces that the buffer has; two lists may make the same bytes.
pub trait TraceBuffer<S: Schema>: Drop {
    /// The size in bytes.
    ghost capacity: { Self → ℕ };

    /// Whether the buffer has these pieces, the latest first, by this schema.
    ghost has: { Self → S → List Piece → Type 0 };

    /// Whether a walk at this place still has these records before it, in the order in which they stand.
    ghost has_ahead: { Self → S → ℕ → List Record → Type 0 };

    /// An empty buffer of so many bytes, a multiple of 8 from 8 to 1,048,576. It takes all room that it will need.
    fn make(alloc: Global, size: u32) -> Result<Self, AllocError>
        requires whole { size % 8 ≡ 0 }
        requires least { 8 ≤ size }
        requires most { size ≤ 2 ^ 20 }
        ensures size { IfOk result (λ b. capacity b ≡ size) }
        ensures empty { IfOk result (λ b. (s : S) → has b s []) };

    /// Whether a piece of this alignment, 4 or 8, and of this size in bytes would fit.
    fn fits(&self, align: u32, size: u32) -> bool
        requires { (align ≡ 4) ⊎ (align ≡ 8) }
        ensures { (s : S) (ps : List Piece) → has self.now s ps
            → result ≡ nat_le (reserved (extent (S.shape_of s) ps) align size) (capacity self.now) };

    /// Keeps an accepted record, or answers false and changes nothing where it doesn't fit. Takes no memory.
    fn push(&mut self, schema: &S, rec: &Rec) -> bool
        requires { IsTrue (S.accepted schema.now rec.now) }
        ensures size { capacity self.new ≡ capacity self.old }
        ensures answer { (ps : List Piece) → has self.old schema.now ps
            → result ≡ piece_fits (S.shape_of schema.now) ps (one rec.now) (capacity self.old) }
        ensures kept { OnTrue result ((ps : List Piece) → has self.old schema.now ps
            → has self.new schema.now (one rec.now ∷ ps)) }
        ensures refused { OnFalse result (self.new ≡ self.old) };

    /// As `push`, of what can be traced as a record. A buffer that says nothing of it has the record copied.
    fn push_recorded<R: Recorded>(&mut self, schema: &S, rec: R) -> bool
        requires accepted { IsTrue (S.accepted schema.now (R.as_record rec)) }
        requires laid { IsLaidBy (S.shape_of schema.now) (S.text schema.now) (R.as_record rec) (R.laid_as rec) }
        ensures size { capacity self.new ≡ capacity self.old }
        ensures answer { (ps : List Piece) → has self.old schema.now ps
            → result ≡ piece_fits (S.shape_of schema.now) ps (one (R.as_record rec)) (capacity self.old) }
        ensures kept { OnTrue result ((ps : List Piece) → has self.old schema.now ps
            → has self.new schema.now (one (R.as_record rec) ∷ ps)) }
        ensures refused { OnFalse result (self.new ≡ self.old) }
    {
        self.push(schema, &rec.to_rec())
    }

    /// Keeps the whole text of another buffer, which has records alone, as one piece of alignment 8, or answers false
    /// and changes nothing where it doesn't fit. An empty block always fits and writes nothing. Takes no memory.
    fn push_block(&mut self, other: &Self) -> bool
        ensures size { capacity self.new ≡ capacity self.old }
        ensures answer { (s : S) (ps : List Piece) (rs : List Record) → has self.old s ps → has other.now s (map one rs)
            → result ≡ piece_fits (S.shape_of s) ps (block rs) (capacity self.old) }
        ensures kept { OnTrue result ((s : S) (ps : List Piece) (rs : List Record) → has self.old s ps
            → has other.now s (map one rs) → has self.new s (block rs ∷ ps)) }
        ensures refused { OnFalse result (self.new ≡ self.old) };

    /// Throws all pieces away.
    fn clear(&mut self)
        ensures size { capacity self.new ≡ capacity self.old }
        ensures empty { (s : S) → has self.new s [] };

    /// How far the pieces reach, in bytes.
    fn offset(&self) -> u32
        ensures extent { (s : S) (ps : List Piece) → has self.now s ps → result ≡ extent (S.shape_of s) ps }
        ensures within { result ≤ capacity self.now };

    /// How many records there are, those in blocks among them.
    fn count(&self) -> u32
        ensures { (s : S) (ps : List Piece) → has self.now s ps → result ≡ length (records ps) };

    /// Whether there is no record.
    fn is_empty(&self) -> bool
        ensures { (s : S) (ps : List Piece) → has self.now s ps → IsTrue result ↔ (records ps ≡ []) };

    /// The record at a place and the place after it, by the schema of the pushes. A walk begins at place 0, goes
    /// on from the place answered, and ends at None.
    fn next(&self, schema: &S, place: usize) -> Option<(Rec, usize)>
        ensures { (rs : List Record) → has_ahead self.now schema.now place rs
            → StepsAhead (has_ahead self.now schema.now) rs result };

    /// A walk that begins has all records before it.
    ghost begins: { (b : Self) (s : S) (ps : List Piece) → has b s ps → has_ahead b s 0 (reverse (records ps)) };

    /// An empty block is in front wherever a buffer has pieces: it takes no bytes.
    ghost takes_nothing: { (b : Self) (s : S) (ps : List Piece) → has b s ps → has b s (block [] ∷ ps) };
}
