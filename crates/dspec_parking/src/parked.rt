use crate::passed_places::PassedPlaces;

/// What came of a block that was to be parked.
#[derive(Debug, Clone, Copy, PartialEq, Eq)]
pub enum Parked {
    /// It stands in the ring. So many of the oldest places made room for it, and their blocks were evicted.
    Stands(PassedPlaces),
    /// It is larger than the ring, or the ring has no places: nothing has changed.
    Refused,
    /// As many blocks were parked before as a count can tell: nothing has changed.
    Worn,
}
