ghost use Rattle.std.specs.Prelude.{◌≡◌, ◌↔◌, ◌&&◌, ℕ, Bool, IsTrue, IfSome, IsSome, List, length, take, ◌+◌, ◌≤◌, nat_le, Option, Some, None, ◌++◌};
ghost use Rattle.dspec_record.specs.{Borrowed.borrowed_record, Reading.IsShape, Reading.IsTextOf, Reading.Answers, Record.Record, declared.field.Shape.Shape};

use crate::{BorrowedRec, ReadKind, Rec, Recorded, Shape};

/// Which records there are, and how they stand in a buffer. A buffer knows no more of a schema than
/// these clauses and the laws below them say.
pub trait Schema: Copy {
    /// The shape of the records with this EPID, if there are any.
    ghost shape_of: { Self → ℕ → Option Shape };

    /// Whether a record is one of the schema's.
    ghost accepted: { Self → Record → Bool };

    /// The bytes of an accepted record.
    ghost text: { Self → Record → List ℕ };

    /// The shape of the records with this EPID; None where there are none, as for EPID 0.
    fn shape(&self, epid: u32) -> Option<Shape>
        ensures { result ≡ shape_of self.now epid };

    /// Whether the EPID has a shape, there is a value for each of its fields, and each fits its width.
    fn accepts(&self, rec: &Rec) -> bool
        ensures { result ≡ accepted self.now rec.now };

    /// Writes an accepted record into a slice of exactly its size.
    fn put(&self, rec: &Rec, out: &mut [u8])
        requires accepted { IsTrue (accepted self.now rec.now) }
        requires exact { length out.old ≡ length (text self.now rec.now) }
        ensures { out.new ≡ text self.now rec.now };

    /// As `accepts`, of what can be traced as a record. A schema that says nothing of it has the record copied.
    fn accepts_recorded<R: Recorded>(&self, rec: R) -> bool
        ensures { result ≡ accepted self.now (R.as_record rec) }
    {
        self.accepts(&rec.to_rec())
    }

    /// As `put`, of what can be traced as a record, over the first bytes of a slice that has eight more, which may change. A schema
    /// that says nothing of it has the record copied.
    fn put_recorded<R: Recorded>(&self, rec: R, out: &mut [u8])
        requires accepted { IsTrue (accepted self.now (R.as_record rec)) }
        requires room { length (text self.now (R.as_record rec)) + 8 ≤ length out.old }
        ensures { take (length (text self.now (R.as_record rec))) out.new ≡ text self.now (R.as_record rec) }
    {
        let copied = rec.to_rec();
        let size = self.shape_recorded(&copied).size as usize;
        self.put(&copied, &mut out[..size]);
    }

    /// The shape of an accepted record.
    fn shape_recorded<R: Recorded>(&self, rec: R) -> Shape
        requires { IsTrue (accepted self.now (R.as_record rec)) }
        ensures { Some result ≡ shape_of self.now (R.as_record rec).epid }
    {
        let Some(shape) = self.shape(rec.epid()) else {
            unreachable!()
        };
        shape
    }

    /// The record with this stamp and these values, which stand where they are; None where there are more than eight values, or the
    /// record isn't one of the schema's.
    fn borrowed<'a>(&self, epid: u32, stamp: u64, values: &'a [u64]) -> Option<BorrowedRec<'a>>
        ensures due { IsSome result ↔ IsTrue (nat_le (length values.now) 8
            && accepted self.now (record { epid = epid; stamp = stamp; values = values.now })) }
        ensures holds { IfSome result (λ r. borrowed_record r ≡ record { epid = epid; stamp = stamp; values = values.now }) }
    {
        let rec = BorrowedRec::of(epid, stamp, values)?;
        if !self.accepts_recorded(rec) {
            return None;
        }
        Some(rec)
    }

    /// The record at the front and its size in bytes, or the first fault in this order: Truncated for fewer
    /// bytes than an EPID, Padding for EPID 0, UnknownEpid, Truncated for fewer bytes than the shape's size,
    /// GapNotZero where these are no accepted record's text. Misaligned is never answered.
    fn get(&self, bytes: &[u8]) -> Result<(Rec, usize), ReadKind>
        ensures { Answers (shape_of self.now) (accepted self.now) (text self.now) bytes.now result };

    /// EPID 0 has no shape, so that four zero bytes are no record.
    ghost zero_has_none: { (s : Self) → shape_of s 0 ≡ None };

    /// Sizes and alignments stay within what a buffer can reserve.
    ghost shapes_fit: { (s : Self) (e : ℕ) (h : Shape) → shape_of s e ≡ Some h → IsShape h };

    /// The text of an accepted record has the size of its EPID's shape, and begins with that EPID.
    ghost texts_fit: { (s : Self) (r : Record) → IsTrue (accepted s r) → IsTextOf (shape_of s) r (text s r) };

    /// Bytes begin with the text of one accepted record at most.
    ghost texts_differ: { (s : Self) (q r : Record) (x y : List ℕ) → IsTrue (accepted s q) → IsTrue (accepted s r)
        → text s q ++ x ≡ text s r ++ y → q ≡ r };
}
