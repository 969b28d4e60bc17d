use crate::block_ring::BlockRing;
use crate::parked_block::ParkedBlock;
use crate::parking_counts::ParkingCounts;
use std::alloc::{AllocError, Global};
use std::marker::Model;

/// Blocks that are parked by key in a ring of bytes. It takes no memory after it is made.
#[derive(Drop)]
pub struct Parking {
    pub(crate) ring: BlockRing,
    pub(crate) parked: u64,
    pub(crate) kept: u64,
    pub(crate) evicted: u64,
    pub(crate) expired: u64,
}

impl Model for Parking {
    ghost use Rattle.dspec_parking.specs.Parkings.{ParkingState};

    ghost Value = { ParkingState };

    ghost use Rattle.dspec_parking.specs.Shown.{parking_shown, IsParking};

    ghost view = { parking_shown };

    ghost invariant = { IsParking };
}

impl Parking {
    ghost use Rattle.std.specs.Prelude.{◌≡◌, length, slice_get, IfOk};
    ghost use Rattle.dspec_parking.specs.{Blocks.IsInBounds, Parkings.AreSums, Parkings.nothing_parked, Parkings.told_at};

    /// A ring of so many bytes, and so many blocks at the most, those that were kept since with them.
    pub fn new(alloc: Global, bytes: usize, most_blocks: usize) -> Result<Parking, AllocError>
        ensures { IfOk result (λ p. p ≡ nothing_parked bytes most_blocks) }
    {
        let ring = BlockRing::new(alloc, bytes, most_blocks)?;
        Ok(Parking {
            ring,
            parked: 0,
            kept: 0,
            evicted: 0,
            expired: 0,
        })
    }

    /// How many places there are, the oldest first. That of a kept block is there until newer blocks need its room.
    pub fn places(&self) -> usize
        ensures places { result ≡ length self.now.ring.places }
        ensures bounds { IsInBounds self.now.ring }
    {
        self.ring.len()
    }

    /// What became of the blocks that were parked.
    pub fn counts(&self) -> ParkingCounts
        ensures counts { result ≡ self.now.counts }
        ensures sums { AreSums result }
    {
        ParkingCounts {
            parked: self.parked,
            kept: self.kept,
            evicted: self.evicted,
            expired: self.expired,
            standing: self.parked - self.kept - self.evicted - self.expired,
        }
    }

    /// The block that stands at a place. None: there is no such place, or its block was kept already.
    pub fn at(&self, place: usize) -> Option<ParkedBlock>
        ensures { result ≡ told_at (slice_get self.now.ring.places place) }
    {
        self.ring.at(place)
    }
}
