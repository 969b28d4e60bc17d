/// The key under which a path is parked: 16 bytes, as of a trace-id of W3C.
#[derive(Debug, Clone, Copy, PartialEq, Eq)]
pub struct ParkingKey {
    /// Its first eight bytes.
    pub high: u64,
    /// Its last eight bytes.
    pub low: u64,
}
