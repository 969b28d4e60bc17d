use dspec_cpu_state::CpuState;
use dspec_interleaving::{CpuProgress, Series};
use dspec_record::Rec;

/// What a machine keeps of one CPU: its call in flight, its side, its second principal buffer, and what was accepted and taken.
#[derive(Drop)]
pub struct Cpu<B> {
    /// The call in flight, and what the consumer asked, took and gave back.
    pub progress: CpuProgress,
    /// What the CPU holds by its own deeds.
    pub side: CpuState<B>,
    /// The other principal buffer, wherever it is.
    pub second: B,
    /// The drops of the batch sealed last.
    pub sealed_drops: u64,
    /// What the principal buffers accepted, in order.
    pub accepted: Series<Rec>,
    /// What the consumer has taken, in order.
    pub taken: Series<Rec>,
}
