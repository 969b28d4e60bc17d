//! Parked blocks by key, in a ring that takes no memory after it is made.
//!
//! A path that is over here, and undecided elsewhere, is parked: its records, a block of bytes, stand in the ring under a key of 16 bytes.
//! What becomes of each block is promised on one page (`specs/ParkingPage.antt`). What comes out was parked, whole and under that key, and
//! comes out once. Each block has one end: it is kept, evicted for newer ones, the oldest first, expired, or left when the ring goes. The
//! counts are the sums of these ends.
//!
//! | File | What is in it |
//! |---|---|
//! | `parking_key.rt`, `parked_block.rt`, `parked.rt`, `passed_places.rt`, `parking_counts.rt` | a key; what is told of a block; what came of one; what the tail passed; the counts |
//! | `parking.rt` | `Parking`: how it is made, what is asked of it |
//! | `parking_calls.rt` | a block that is parked, or comes out; those that expire; the end of the ring |
//! | `parking_entry.rt`, `block_ring.rt` | what a ring knows of a place; `BlockRing`: blocks in order, over their bytes and a ring of the kit |
//! | `byte_ring.rt` | `ByteRing`: bytes in order, copied in at once |
//! | `passing.rt`, `lending.rt` | how its tail passes the oldest; how a block is read |
//! | `laws.rt` | that each call keeps the page, and that the oldest go first |
#![tactic(auto)]

mod block_ring;
mod byte_ring;
mod laws;
mod lending;
mod parked;
mod parked_block;
mod parking;
mod parking_calls;
mod parking_counts;
mod parking_entry;
mod parking_key;
mod passed_places;
mod passing;

pub use laws::{
    beginning_keeps_page, expiring_keeps_page, leaving_ends_all, oldest_go_first,
    parking_keeps_page, taking_keeps_page,
};
pub use parked::Parked;
pub use parked_block::ParkedBlock;
pub use parking::Parking;
pub use parking_counts::ParkingCounts;
pub use parking_key::ParkingKey;
pub use passed_places::PassedPlaces;
