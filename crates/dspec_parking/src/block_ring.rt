use crate::byte_ring::ByteRing;
use crate::parking_entry::ParkingEntry;
use crate::parking_key::ParkingKey;
use circular_buffer::HeapCircularBuffer;
use std::alloc::{AllocError, Global};
use std::marker::Model;

/// Blocks of bytes in a ring, with what it knows of each.
#[derive(Drop)]
pub struct BlockRing {
    pub(crate) bytes: ByteRing,
    pub(crate) entries: HeapCircularBuffer<ParkingEntry>,
    /// How many bytes the tail has passed, modulo 2^64.
    pub(crate) passed: usize,
}

impl Model for BlockRing {
    ghost use Rattle.dspec_parking.specs.Blocks.{ParkingRing};

    ghost Value = { ParkingRing };

    ghost use Rattle.dspec_parking.specs.Stored.{ring_shown, IsRing};

    ghost view = { ring_shown };

    ghost invariant = { IsRing };
}

impl BlockRing {
    ghost use Rattle.std.specs.Prelude.{◌≡◌, ◌↔◌, length, IfOk, IsTrue};
    ghost use Rattle.dspec_parking.specs.{Blocks.FitsBeside, Blocks.IsInBounds, Blocks.empty_ring, Parkings.CanHold, Parkings.with_block};

    /// A ring of so many bytes, and so many places at the most.
    pub fn new(alloc: Global, bytes: usize, most: usize) -> Result<BlockRing, AllocError>
        ensures { IfOk result (λ r. r ≡ empty_ring bytes most) }
    {
        let bytes = ByteRing::with_capacity(alloc, bytes)?;
        let entries = HeapCircularBuffer::with_capacity(alloc, most)?;
        Ok(BlockRing {
            bytes,
            entries,
            passed: 0,
        })
    }

    /// How many places it has, those of kept blocks with them.
    pub fn len(&self) -> usize
        ensures count { result ≡ length self.now.places }
        ensures within { IsInBounds self.now }
    {
        self.entries.len()
    }

    /// Whether a block of so many bytes fits where the ring is empty.
    pub fn can_hold(&self, length: usize) -> bool
        ensures { IsTrue result ↔ CanHold self.now length }
    {
        length <= self.bytes.capacity() && self.entries.capacity() > 0
    }

    /// Whether a block of so many bytes fits beside what is there.
    pub fn has_room(&self, length: usize) -> bool
        ensures { IsTrue result ↔ FitsBeside self.now length }
    {
        length <= self.bytes.capacity() - self.bytes.len()
            && self.entries.len() < self.entries.capacity()
    }

    /// A block is there, as the newest.
    pub fn push(&mut self, key: ParkingKey, stamp: u64, bytes: &[u8])
        requires { FitsBeside self.old (length bytes.now) }
        ensures { self.new ≡ with_block (record { key = key; stamp = stamp; bytes = bytes.now }) self.old }
    {
        let entry = ParkingEntry {
            key,
            stamp,
            start: self.passed.wrapping_add(self.bytes.len()),
            length: bytes.len(),
            is_kept: false,
        };
        self.bytes.extend(bytes);
        let Ok(()) = self.entries.try_push_back(entry) else {
            unreachable!()
        };
    }
}
