use dspec_deeds::Report;
use dspec_ring::Batch;

/// What is left of one CPU when its session has ended: the batch that it sealed and nobody took, its last active buffer, and
/// its report.
#[derive(Drop)]
pub struct Left {
    pub(crate) rest: Option<Batch>,
    pub(crate) last: Batch,
    pub(crate) report: Report,
}
