use crate::parking_key::ParkingKey;

/// What a ring tells of a block that stands there.
#[derive(Debug, Clone, Copy, PartialEq, Eq)]
pub struct ParkedBlock {
    /// The key under which it was parked.
    pub key: ParkingKey,
    /// When it was parked, in the unit of whoever parked it.
    pub stamp: u64,
    /// How many bytes it has.
    pub length: usize,
}
