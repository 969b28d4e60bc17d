//! What C reads of a ring of parked blocks.

ghost use Rattle.std.specs.Prelude.{◌≡◌};
ghost use Rattle.dspec_c.specs.Shows.{told_block, told_counts, told_passed};

use dspec_parking::{ParkedBlock, ParkingCounts, PassedPlaces};

/// A block that is parked.
#[repr(C)]
#[derive(Drop)]
pub struct CParked {
    /// The first eight bytes of its key.
    pub key_high: u64,
    /// The last eight.
    pub key_low: u64,
    /// When it was parked, in the unit of whoever parked it.
    pub stamp: u64,
    /// How many bytes it has.
    pub length: usize,
}

impl CParked {
    pub(crate) fn of(block: &ParkedBlock) -> CParked
        ensures { result ≡ told_block block.now }
    {
        CParked {
            key_high: block.key.high,
            key_low: block.key.low,
            stamp: block.stamp,
            length: block.length,
        }
    }
}

/// What the tail of a ring passed.
#[repr(C)]
#[derive(Drop)]
pub struct CPassed {
    /// How many of the oldest places.
    pub places: usize,
    /// How many of their blocks stood there still.
    pub blocks: usize,
}

impl CPassed {
    pub(crate) fn of(gone: PassedPlaces) -> CPassed
        ensures { result ≡ told_passed gone }
    {
        CPassed {
            places: gone.places,
            blocks: gone.blocks,
        }
    }
}

/// What became of the blocks that were parked.
#[repr(C)]
#[derive(Drop)]
pub struct CParkedCounts {
    /// All that were parked: the sum of the others.
    pub parked: u64,
    /// Those that came out.
    pub kept: u64,
    /// Those that made room for newer ones.
    pub evicted: u64,
    /// Those that were too old.
    pub expired: u64,
    /// Those that are there still.
    pub standing: u64,
}

impl CParkedCounts {
    pub(crate) fn of(counts: ParkingCounts) -> CParkedCounts
        ensures { result ≡ told_counts counts }
    {
        CParkedCounts {
            parked: counts.parked,
            kept: counts.kept,
            evicted: counts.evicted,
            expired: counts.expired,
            standing: counts.standing,
        }
    }
}
