ghost use Rattle.std.specs.Prelude.{◌≡◌, ◌+◌, ◌≤◌, ◌⊎◌, ◌++◌, [], length, take, drop, vec_len, vec_capacity, IfOk};
ghost use Rattle.dspec_parking.specs.Bytes.{ring_bytes};

use std::alloc::{AllocError, Global};
use std::marker::Model;

/// Bytes in a ring, the oldest first, in memory that is taken once. What was never used of that isn't touched.
#[derive(Drop)]
pub struct ByteRing {
    bytes: Vec<u8>,
    size: usize,
    /// Where the oldest byte is.
    start: usize,
    used: usize,
}

impl Model for ByteRing {
    ghost use Rattle.dspec_parking.specs.Bytes.{RingBytes};

    ghost Value = { RingBytes };

    ghost use Rattle.dspec_parking.specs.ByteFields.{bytes_shown, IsByteRing};

    ghost view = { bytes_shown };

    ghost invariant = { IsByteRing };
}

// These bytes are at a place, where others were, or none was yet.
#[inline(always)]
fn put_at(bytes: &mut Vec<u8>, at: usize, more: &[u8])
    requires place { at ≤ vec_len bytes.old }
    requires room { at + length more.now ≤ vec_capacity bytes.old }
    requires whole { (at + length more.now ≤ vec_len bytes.old) ⊎ (at ≡ vec_len bytes.old) }
    ensures items { bytes.new.items ≡ take at bytes.old.items ++ more.now ++ drop (at + length more.now) bytes.old.items }
    ensures capacity { vec_capacity bytes.old ≤ vec_capacity bytes.new }
{
    if at == bytes.len() {
        let Ok(()) = bytes.extend_from_slice(more) else {
            unreachable!()
        };
    } else {
        bytes.as_mut_slice()[at..at + more.len()].copy_from_slice(more);
    }
}

impl ByteRing {
    /// A ring of so many bytes, which has none.
    pub fn with_capacity(alloc: Global, size: usize) -> Result<ByteRing, AllocError>
        ensures { IfOk result (λ r. r ≡ ring_bytes [] size) }
    {
        Ok(ByteRing {
            bytes: Vec::with_capacity(alloc, size)?,
            size,
            start: 0,
            used: 0,
        })
    }

    /// How many bytes it has.
    pub fn len(&self) -> usize
        ensures len { result ≡ length self.now.items }
        ensures within { result ≤ self.now.capacity }
    {
        self.used
    }

    /// How many bytes it can have.
    pub fn capacity(&self) -> usize
        ensures capacity { result ≡ self.now.capacity }
        ensures within { length self.now.items ≤ result }
    {
        self.size
    }

    /// So many of the oldest bytes go.
    pub fn drop_front(&mut self, count: usize)
        requires { count ≤ length self.old.items }
        ensures { self.new ≡ ring_bytes (drop count self.old.items) self.old.capacity }
    {
        let rest = self.size - self.start;
        self.start = if count < rest {
            self.start + count
        } else {
            count - rest
        };
        self.used -= count;
    }

    /// More bytes, as the newest.
    pub fn extend(&mut self, more: &[u8])
        requires { length self.old.items + length more.now ≤ self.old.capacity }
        ensures { self.new ≡ ring_bytes (self.old.items ++ more.now) self.old.capacity }
    {
        let rest = self.size - self.start;
        let end = if self.used < rest {
            self.start + self.used
        } else {
            self.used - rest
        };
        let room = self.size - end;
        if more.len() <= room {
            put_at(&mut self.bytes, end, more);
        } else {
            put_at(&mut self.bytes, end, &more[..room]);
            put_at(&mut self.bytes, 0, &more[room..]);
        }
        self.used += more.len();
    }

    /// Its bytes, in two parts: up to the end of the memory, and from its beginning on.
    pub fn as_slices(&self) -> (&[u8], &[u8])
        ensures { result.0.now ++ result.1.now ≡ self.now.items }
    {
        let rest = self.size - self.start;
        if self.used <= rest {
            (
                &self.bytes[self.start..self.start + self.used],
                &self.bytes[..0],
            )
        } else {
            (&self.bytes[self.start..], &self.bytes[..self.used - rest])
        }
    }
}
