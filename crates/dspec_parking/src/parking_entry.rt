use crate::parking_key::ParkingKey;

/// What a ring knows of a place beside the bytes of its block.
#[derive(Debug, Clone, Copy, PartialEq, Eq)]
pub struct ParkingEntry {
    pub key: ParkingKey,
    pub stamp: u64,
    /// How many bytes came into the ring before it, modulo 2^64.
    pub start: usize,
    /// How many bytes it has.
    pub length: usize,
    pub is_kept: bool,
}
