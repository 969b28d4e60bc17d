use crate::TraceBuffer;
use crate::reserving::place_for;
use dspec_record::{Rec, Recorded, Schema};
use std::alloc::{AllocError, Global};
use std::fmt;
use std::marker::Model;

/// The most bytes of a record.
const LONGEST: usize = 128;

/// A buffer of records that are never laid out: it answers as a `ByteBuffer` of its size, but keeps the texts of its
/// records one after another, without the padding that comes before them in a text, so that reading them back knows
/// nothing of padding. A walk's place is how many bytes of these texts are before it. For models and tests.
#[derive(Drop)]
pub struct ListBuffer {
    texts: Vec<u8>,
    count: u32,
    offset: u32,
    size: u32,
}

impl Model for ListBuffer {
    ghost use Rattle.dspec_buffer.specs.Listed.{ListView};

    ghost Value = { ListView };

    ghost use Rattle.dspec_buffer.specs.ListFields.{listed_of, IsListed};

    ghost view = { listed_of };

    ghost invariant = { IsListed };
}

/// How many records there are, how far they would reach and of how many bytes.
impl fmt::Debug for ListBuffer {
    fn fmt<W: fmt::Write>(&self, f: &mut fmt::Formatter<W>) -> fmt::Result {
        let (count, offset, size) = (self.count, self.offset, self.size);
        write!(
            f,
            "ListBuffer {{ count: {count}, offset: {offset}, size: {size} }}"
        )
    }
}

impl<S: Schema> TraceBuffer<S> for ListBuffer {
    ghost use Rattle.dspec_buffer.specs.{Laws.Emptiness.listed_too, Laws.Listed.has_texts, Listed.HasListed, Listed.HasTexts};

    ghost capacity = { λ b. b.size };

    ghost has = { λ b s ps. HasListed (S.shape_of s) (S.accepted s) (S.text s) b ps };

    ghost has_ahead = { λ b s place rs. HasTexts (S.accepted s) (S.text s) b.texts place rs };

    ghost begins = { λ b s ps h. has_texts (S.shape_of s) (S.accepted s) (S.text s) b ps h };

    ghost takes_nothing = { λ b s ps h. listed_too (S.shape_of s) (S.accepted s) (S.text s) b ps h };

    fn make(alloc: Global, size: u32) -> Result<Self, AllocError> {
        // room that is taken and not written takes no memory of the machine until records come
        Ok(ListBuffer {
            texts: Vec::with_capacity(alloc, size as usize)?,
            count: 0,
            offset: 0,
            size,
        })
    }

    fn fits(&self, align: u32, size: u32) -> bool {
        size == 0 || place_for(self.offset, self.size, align, size).is_some()
    }

    #[inline(always)]
    fn push(&mut self, schema: &S, rec: &Rec) -> bool {
        self.push_recorded(schema, rec)
    }

    fn push_recorded<R: Recorded>(&mut self, schema: &S, rec: R) -> bool {
        let shape = schema.shape_recorded(rec);
        let Some(place) = place_for(self.offset, self.size, shape.align, shape.size) else {
            return false;
        };
        let mut room = [0; LONGEST];
        let text = &mut room[..shape.size as usize];
        schema.put(&rec.to_rec(), text);
        self.texts.extend_from_slice(text).unwrap();
        self.count += 1;
        self.offset = place + shape.size;
        true
    }

    fn push_block(&mut self, other: &Self) -> bool {
        let size = other.offset;
        let offset = self.offset;
        if size == 0 {
            return true;
        }
        let Some(place) = place_for(offset, self.size, 8, size) else {
            return false;
        };
        self.texts.extend_from_slice(&other.texts).unwrap();
        self.count += other.count;
        self.offset = place + size;
        true
    }

    fn clear(&mut self) {
        self.texts.clear();
        self.count = 0;
        self.offset = 0;
    }

    fn offset(&self) -> u32 {
        self.offset
    }

    fn count(&self) -> u32 {
        self.count
    }

    fn is_empty(&self) -> bool {
        self.count == 0
    }

    fn next(&self, schema: &S, place: usize) -> Option<(Rec, usize)> {
        let texts = self.texts.get(place..)?;
        match schema.get(texts) {
            Ok(found) => Some((found.0, place + found.1)),
            Err(_) => None,
        }
    }
}
