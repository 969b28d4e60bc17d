//! The ways that a record can take, each as one loop over many records.
ghost use Rattle.std.specs.Prelude.{IsTrue};

use dspec_buffer::{ByteBuffer, Reading, TraceBuffer, read_all};
use dspec_record::{Rec, Schema};

/// How many records a block has.
pub const BLOCK_RECORDS: u32 = 20;

/// What becomes of a record.
#[derive(Debug, Clone, Copy, PartialEq, Eq)]
pub enum Way {
    /// It is pushed and kept.
    Kept,
    /// It is pushed and refused, since the buffer is full.
    Refused,
    /// It is pushed with nineteen others, as a block.
    Block,
    /// It is read out of a buffer, by `read_all` and a walk over the records.
    Read,
    /// It is read out of a buffer by a `Reading`, which checks as it goes.
    Once,
    /// There is none: `read_all` reads a text of no bytes.
    Empty,
}

/// All of them, in the order in which they are told.
pub const WAYS: [Way; 6] = [
    Way::Kept,
    Way::Refused,
    Way::Block,
    Way::Read,
    Way::Once,
    Way::Empty,
];

impl Way {
    pub fn name(self) -> &'static str {
        match self {
            Way::Kept => "kept",
            Way::Refused => "refused",
            Way::Block => "block",
            Way::Read => "read",
            Way::Once => "once",
            Way::Empty => "empty",
        }
    }
}

/// One push, which stays a call, as it is one where a probe fires: a loop can't take a part of it out.
#[inline(never)]
fn push_one<S: Schema>(buffer: &mut ByteBuffer, schema: &S, rec: &Rec) -> bool
    requires { IsTrue (S.accepted schema.now rec.now) }
{
    buffer.push(schema, rec)
}

/// Pushes the record so many times, whether or not it is kept.
pub fn push_often<S: Schema>(buffer: &mut ByteBuffer, schema: &S, rec: &Rec, number: u32)
    requires { IsTrue (S.accepted schema.now rec.now) }
{
    for _ in 0..number {
        let _ = push_one(buffer, schema, rec);
    }
}

/// One push of a block, a call like `push_one`.
#[inline(never)]
fn push_block_once<S: Schema>(buffer: &mut ByteBuffer, _schema: &S, block: &ByteBuffer) -> bool {
    <ByteBuffer as TraceBuffer<S>>::push_block(buffer, block)
}

/// Pushes the block so many times.
pub fn push_blocks<S: Schema>(
    buffer: &mut ByteBuffer,
    schema: &S,
    block: &ByteBuffer,
    number: u32,
) {
    for _ in 0..number {
        let _ = push_block_once(buffer, schema, block);
    }
}

/// What a record adds to the sum of all that are read: its EPID and its last value.
#[inline]
fn told(rec: &Rec) -> u64 {
    let last = match rec.values().last() {
        Some(value) => *value,
        None => 0,
    };
    last.wrapping_add(u64::from(rec.epid()))
}

/// Reads all records, and adds up what they tell; 0 where the bytes are no text.
#[inline(never)]
pub fn read_through<S: Schema>(schema: &S, bytes: &[u8]) -> u64 {
    let mut sum: u64 = 0;
    let Ok(records) = read_all(schema, bytes) else {
        return sum;
    };
    for rec in records {
        sum = sum.wrapping_add(told(&rec));
    }
    sum
}

/// Reads the records up to the first fault, and adds up what they tell.
#[inline(never)]
pub fn read_once<S: Schema>(schema: &S, bytes: &[u8]) -> u64 {
    let mut sum: u64 = 0;
    let mut reading = Reading::new(schema, bytes);
    loop {
        let Ok(Some(rec)) = reading.next() else {
            return sum;
        };
        sum = sum.wrapping_add(told(&rec));
    }
}

/// One `read_all` of no bytes, which stays a call: whether the text could be read.
#[inline(never)]
fn read_nothing<S: Schema>(schema: &S) -> bool {
    read_all(schema, &[]).is_ok()
}

/// Reads no bytes so many times: how often they could be read.
pub fn read_nothing_often<S: Schema>(schema: &S, number: u32) -> u64 {
    let mut read: u64 = 0;
    for _ in 0..number {
        if read_nothing(schema) {
            read = read.wrapping_add(1);
        }
    }
    read
}
