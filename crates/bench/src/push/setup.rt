//! The buffers that a timed record is pushed into.
ghost use Rattle.std.specs.Prelude.{IsTrue};

use crate::push::way::{
    BLOCK_RECORDS, Way, push_blocks, push_often, read_nothing_often, read_once, read_through,
};
use dspec_buffer::{ByteBuffer, TraceBuffer};
use dspec_record::{Rec, Schema};
use std::alloc::{AllocError, Global};

/// The size of the buffer that records go into, in bytes: the largest that there is.
const PRINCIPAL_SIZE: u32 = 1_048_576;

/// The size of the buffer that soon refuses, and of the one that has a block, in bytes.
const FULL_SIZE: u32 = 8;

const BLOCK_SIZE: u32 = 1024;

/// A record with all that its ways need.
#[derive(Drop)]
pub struct Setup<S: Schema> {
    schema: S,
    rec: Rec,
    principal: ByteBuffer,
    full: ByteBuffer,
    block: ByteBuffer,
    ghost is_accepted: { IsTrue (S.accepted schema rec) },
}

/// What taking a way came to: the records that the buffer has then, how far they reach in bytes, and what reading
/// them added up to.
#[derive(Debug, Clone, Copy, PartialEq, Eq)]
pub struct WayResult {
    pub count: u32,
    pub offset: u32,
    pub sum: u64,
}

impl<S: Schema> Setup<S> {
    /// The setup for an accepted record: a block of twenty, and a buffer that refuses more of them; None for another.
    pub fn make(alloc: Global, schema: S, rec: Rec) -> Result<Option<Setup<S>>, AllocError> {
        if !schema.accepts(&rec) {
            return Ok(None);
        }
        let principal = <ByteBuffer as TraceBuffer<S>>::make(alloc, PRINCIPAL_SIZE)?;
        let mut full = <ByteBuffer as TraceBuffer<S>>::make(alloc, FULL_SIZE)?;
        push_often(&mut full, &schema, &rec, FULL_SIZE);
        let mut block = <ByteBuffer as TraceBuffer<S>>::make(alloc, BLOCK_SIZE)?;
        push_often(&mut block, &schema, &rec, BLOCK_RECORDS);
        Ok(Some(Setup {
            schema,
            rec,
            principal,
            full,
            block,
        }))
    }

    /// What stands before the way is taken by at most so many records: they are there to be read, or there is none.
    pub fn prepare(&mut self, way: Way, most: u32) {
        <ByteBuffer as TraceBuffer<S>>::clear(&mut self.principal);
        if way == Way::Read || way == Way::Once {
            push_often(&mut self.principal, &self.schema, &self.rec, most);
        }
    }

    /// Takes the way by so many records, or by as many whole blocks as they make.
    pub fn take(&mut self, way: Way, number: u32) -> WayResult {
        let mut sum = 0;
        match way {
            Way::Kept => push_often(&mut self.principal, &self.schema, &self.rec, number),
            Way::Refused => push_often(&mut self.full, &self.schema, &self.rec, number),
            Way::Block => push_blocks(
                &mut self.principal,
                &self.schema,
                &self.block,
                number / BLOCK_RECORDS,
            ),
            Way::Read | Way::Once | Way::Empty => sum = self.read(way, number),
        }
        let buffer = match way {
            Way::Refused => &self.full,
            _ => &self.principal,
        };
        WayResult {
            count: <ByteBuffer as TraceBuffer<S>>::count(buffer),
            offset: <ByteBuffer as TraceBuffer<S>>::offset(buffer),
            sum,
        }
    }

    /// Reads so many records, or so many times none: what came of it.
    fn read(&self, way: Way, number: u32) -> u64 {
        match way {
            Way::Empty => read_nothing_often(&self.schema, number),
            Way::Once => read_once(&self.schema, self.first_bytes(number)),
            _ => read_through(&self.schema, self.first_bytes(number)),
        }
    }

    /// The bytes of the first so many records, which all have one size; all bytes where there are fewer.
    fn first_bytes(&self, number: u32) -> &[u8] {
        let bytes = self.principal.bytes();
        let size = match self.schema.shape(self.rec.epid()) {
            Some(shape) => shape.size,
            None => 0,
        };
        match bytes.get(..u64::from(number).saturating_mul(u64::from(size)) as usize) {
            Some(first) => first,
            None => bytes,
        }
    }
}
