ghost use Rattle.dspec_c.specs.Shows.{TellsReport};

use dspec_deeds::Report;

/// A CPU's counts, as C reads them.
#[repr(C)]
#[derive(Drop)]
pub struct CReport {
    /// Records handed to trace or speculate.
    pub offered: u64,
    /// Records that the principal buffers took.
    pub accepted: u64,
    /// Traced records without room.
    pub dropped: u64,
    /// Offered records without room.
    pub specdropped: u64,
    /// Records of commits without room.
    pub lost: u64,
    /// Records thrown away.
    pub discarded: u64,
    /// Records after a stop, or of no open speculation.
    pub void: u64,
    /// Records that wait for a decision.
    pub held: u64,
    /// Refused reservations.
    pub drops: u64,
    /// Openings where no slot was free.
    pub unavailable: u64,
    /// Openings where a slot waited for its release.
    pub busy: u64,
    /// Calls after a stop.
    pub stopped: u64,
    /// Calls beyond the most.
    pub worn: u64,
    /// Records that the schema refused, which weren't offered.
    pub refused: u64,
}

impl CReport {
    /// The same counts, and how many records were refused.
    pub(crate) fn of(report: &Report, refused: u64) -> CReport
        ensures { TellsReport result report.now refused }
    {
        CReport {
            offered: report.offered,
            accepted: report.accepted,
            dropped: report.dropped,
            specdropped: report.specdropped,
            lost: report.lost,
            discarded: report.discarded,
            void: report.void,
            held: report.held,
            drops: report.drops,
            unavailable: report.unavailable,
            busy: report.busy,
            stopped: report.stopped,
            worn: report.worn,
            refused,
        }
    }
}
