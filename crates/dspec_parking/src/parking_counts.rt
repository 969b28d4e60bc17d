/// What became of the blocks that were parked in a ring, each counted once.
#[derive(Debug, Clone, Copy, PartialEq, Eq)]
pub struct ParkingCounts {
    /// How many there were.
    pub parked: u64,
    /// How many came out.
    pub kept: u64,
    /// How many had to make room for newer ones.
    pub evicted: u64,
    /// How many were too old.
    pub expired: u64,
    /// How many stand there still; of a ring that is gone, how many were left there.
    pub standing: u64,
}
