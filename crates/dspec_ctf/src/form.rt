/// The two forms of a trace. Records of a committed block stand after others that were offered later, and tools that merge
/// streams by a clock refuse a clock that goes back, so that only a sorted trace has one.
#[derive(Debug, Clone, Copy, PartialEq, Eq)]
pub enum Form {
    /// Records in the order in which their batches were taken, without a clock. A stamp is a field of each event.
    AsTaken,
    /// Records with stamps, sorted by them. The stamps are a clock's, of so many ticks a second.
    ByTime(u64),
}
