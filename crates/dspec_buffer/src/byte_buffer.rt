use crate::TraceBuffer;
use crate::reader::next_of_text;
use crate::reserving::{aligned, pad, place_for, put_after, shape_in};
use dspec_record::{Rec, Recorded, Schema, Shape};
use std::alloc::{AllocError, Global};
use std::fmt;
use std::marker::Model;

/// How many bytes there are after the size: a record may be written in whole words of eight bytes.
const SLACK: usize = 16;

/// A buffer of bytes, as a consumer reads it: the text of its pieces up to the offset. Bytes after the offset are
/// left over from before, and never read.
#[derive(Drop)]
pub struct ByteBuffer {
    bytes: Vec<u8>,
    size: u32,
    offset: u32,
    count: u32,
}

impl Model for ByteBuffer {
    ghost use Rattle.dspec_buffer.specs.Stored.{Stored};

    ghost Value = { Stored };

    ghost use Rattle.dspec_buffer.specs.ByteFields.{stored_of, IsInside};

    ghost view = { stored_of };

    ghost invariant = { IsInside };
}

impl ByteBuffer {
    ghost use Rattle.std.specs.Prelude.{◌≡◌, ◌≤◌, ◌==◌, [], length};

    /// The text of the pieces.
    pub fn bytes(&self) -> &[u8]
        ensures { result.now ≡ self.now.text }
    {
        &self.bytes[..self.offset as usize]
    }

    /// The size in bytes that `make` was asked for.
    pub fn size(&self) -> u32
        ensures { result ≡ self.now.size }
    {
        self.size
    }

    /// How far the pieces reach, in bytes.
    #[inline]
    pub fn offset(&self) -> u32
        ensures text { result ≡ length self.now.text }
        ensures within { result ≤ self.now.size }
    {
        self.offset
    }

    /// How many records there are, those in blocks among them.
    #[inline]
    pub fn count(&self) -> u32
        ensures { result ≡ self.now.count }
    {
        self.count
    }

    /// Whether there is no record.
    #[inline]
    pub fn is_empty(&self) -> bool
        ensures { result ≡ (self.now.count == 0) }
    {
        self.count == 0
    }

    /// Throws all pieces away.
    #[inline]
    pub fn clear(&mut self)
        ensures { self.new ≡ record { text = []; count = 0; size = self.old.size } }
    {
        self.offset = 0;
        self.count = 0;
    }
}

/// How many records there are, how far they reach and of how many bytes.
impl fmt::Debug for ByteBuffer {
    fn fmt<W: fmt::Write>(&self, f: &mut fmt::Formatter<W>) -> fmt::Result {
        let (count, offset, size) = (self.count(), self.offset(), self.size());
        write!(
            f,
            "ByteBuffer {{ count: {count}, offset: {offset}, size: {size} }}"
        )
    }
}

impl<S: Schema> TraceBuffer<S> for ByteBuffer {
    ghost use Rattle.std.proofs.Common.{refl, inl};
    ghost use Rattle.dspec_buffer.specs.{Laws.Emptiness.stored_too, Stored.HasPieces, Stored.HasAhead, Walking.IsAhead};

    ghost capacity = { λ b. b.size };

    ghost has = { λ b s ps. HasPieces (S.shape_of s) (S.accepted s) (S.text s) b ps };

    ghost has_ahead = { λ b s place rs.
        IsAhead (HasPieces (S.shape_of s) (S.accepted s) (S.text s) b)
        (HasAhead (S.shape_of s) (S.accepted s) (S.text s) b.text) place rs };

    ghost begins = { λ b s ps h. inl (ps, (h, refl, refl)) };

    ghost takes_nothing = { λ b s ps h. stored_too (S.shape_of s) (S.accepted s) (S.text s) b ps h };

    fn make(alloc: Global, size: u32) -> Result<Self, AllocError> {
        Ok(ByteBuffer {
            bytes: vec![in alloc; 0; size as usize + SLACK]?,
            size,
            offset: 0,
            count: 0,
        })
    }

    fn fits(&self, align: u32, size: u32) -> bool {
        size == 0 || place_for(self.offset, self.size(), align, size).is_some()
    }

    #[inline(always)]
    fn push(&mut self, schema: &S, rec: &Rec) -> bool {
        self.push_recorded(schema, rec)
    }

    #[inline(always)]
    fn push_recorded<R: Recorded>(&mut self, schema: &S, rec: R) -> bool {
        let Shape { size, align } = shape_in(schema, rec);
        let place = aligned(self.offset, align);
        let end = place + size;
        if end > self.size {
            return false;
        }
        let from = self.offset as usize;
        // counted before the bytes are written, so that no register holds what the counting needs meanwhile
        self.count += 1;
        let bytes = self.bytes.as_mut_slice();
        put_after(schema, rec, bytes, from, place as usize, end as usize);
        // what a reader of this memory goes by comes last: where the thread is stopped in between, the record isn't there
        self.offset = end;
        true
    }

    fn push_block(&mut self, other: &Self) -> bool {
        let offset = self.offset;
        let size = other.offset;
        if size == 0 {
            return true;
        }
        let Some(place) = place_for(offset, self.size(), 8, size) else {
            return false;
        };
        let end = place + size;
        let bytes = self.bytes.as_mut_slice();
        pad(bytes, offset as usize, place as usize);
        bytes[place as usize..end as usize].copy_from_slice(other.bytes());
        self.offset = end;
        self.count += other.count;
        true
    }

    fn clear(&mut self) {
        self.clear();
    }

    fn offset(&self) -> u32 {
        self.offset()
    }

    fn count(&self) -> u32 {
        self.count()
    }

    fn is_empty(&self) -> bool {
        self.is_empty()
    }

    fn next(&self, schema: &S, place: usize) -> Option<(Rec, usize)> {
        next_of_text(schema, self.bytes(), place)
    }
}
