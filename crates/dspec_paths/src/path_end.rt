use dspec_deeds::Decided;

/// What came of a path that is to be kept.
#[derive(Debug, Clone, Copy, PartialEq, Eq)]
pub enum PathEnd {
    /// No path of this name is open.
    Over,
    /// It is open still: the principal buffer has no room for it yet. This call copied so many records: of its older ones, or none.
    Waits(u32),
    /// It is open still, and decided: so many older records were copied, and its last ones are kept by a further call.
    GoesOn(u32),
    /// It is over. This call copied so many of its older records, and decided its last ones so.
    Ended(u32, Decided),
    /// It is over, and lost as a whole: its older records had no room. So many of its last ones were thrown away.
    Lost(u32),
}
