use crate::logging::Log;
use dspec_buffer::ReadFault;
use dspec_deeds::{Config, Report};
use dspec_record::Rec;

/// What the text of a batch says.
#[derive(Debug, Drop)]
pub struct BatchContents {
    /// The CPU that the batch names.
    pub cpu: u32,
    /// The refused reservations that it tells of.
    pub drops: u64,
    pub records: Vec<Rec>,
    /// Why the text can't be read, where it can't.
    pub fault: Option<ReadFault>,
}

/// What came of a CPU.
#[derive(Debug, Drop)]
pub struct CpuBatches {
    /// What its batches say, in order, the last of them what was left in its active buffer.
    pub parts: Vec<BatchContents>,
}

/// All that is known of a session that has ended.
#[derive(Debug, Drop)]
pub struct Story {
    pub config: Config,
    /// The calls of each CPU.
    pub logs: Vec<Log>,
    /// What came of each CPU, and what was left.
    pub streams: Vec<CpuBatches>,
    pub reports: Vec<Report>,
    /// How many batches were refused when they were given back.
    pub refused: u64,
}
