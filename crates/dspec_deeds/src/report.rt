use std::fmt;

/// The counts of one CPU. Each offered record is in exactly one of accepted, dropped, specdropped, lost, discarded,
/// void and held; the others count events.
#[derive(Clone, Copy, Debug, Default, PartialEq, Eq)]
pub struct Report {
    /// Records handed to trace or speculate, by calls that weren't worn.
    pub offered: u64,
    /// Records that the principal buffers took: traced ones, and those of copied blocks.
    pub accepted: u64,
    /// Traced records that the principal buffer had no room for.
    pub dropped: u64,
    /// Records that a speculative buffer had no room for.
    pub specdropped: u64,
    /// Records of committed blocks that the principal buffer had no room for, each block whole.
    pub lost: u64,
    /// Records thrown away by a discard.
    pub discarded: u64,
    /// Records offered after a stop, or to a speculation that wasn't open.
    pub void: u64,
    /// Records that wait in speculative buffers for a decision, or for this CPU to settle it.
    pub held: u64,
    /// Reservations that the principal buffer refused: one for each dropped record and for each lost block.
    pub drops: u64,
    /// Calls of speculation that were answered Unavailable.
    pub unavailable: u64,
    /// Calls of speculation that were answered Busy.
    pub busy: u64,
    /// Calls that were answered Stopped.
    pub stopped: u64,
    /// Calls that were answered Worn, of which nothing else is counted; no more are counted than 64 bits hold.
    pub worn: u64,
}

/// Each count after its name, as a play's reports tell them after the number of the CPU.
impl fmt::Display for Report {
    fn fmt<W: fmt::Write>(&self, f: &mut fmt::Formatter<W>) -> fmt::Result {
        let Report {
            offered,
            accepted,
            ..
        } = *self;
        write!(f, "offered {offered} accepted {accepted} ")?;
        let Report {
            dropped,
            specdropped,
            lost,
            ..
        } = *self;
        write!(
            f,
            "dropped {dropped} specdropped {specdropped} lost {lost} "
        )?;
        let Report {
            discarded,
            void,
            held,
            ..
        } = *self;
        write!(f, "discarded {discarded} void {void} held {held} ")?;
        let Report {
            drops,
            unavailable,
            busy,
            ..
        } = *self;
        write!(f, "drops {drops} unavailable {unavailable} busy {busy} ")?;
        let Report { stopped, worn, .. } = *self;
        write!(f, "stopped {stopped} worn {worn}")
    }
}
