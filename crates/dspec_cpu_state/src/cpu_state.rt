ghost use Rattle.std.specs.Prelude.{◌≡◌, ℕ, [], None, IfOk};
ghost use Rattle.dspec_deeds.specs.Ranges.{start_fault};
ghost use Rattle.dspec_cpu_state.specs.CpuStates.{ShowsList};

use crate::counts::Counts;
use crate::marks::Marks;
use dspec_buffer::TraceBuffer;
use dspec_deeds::Config;
use dspec_record::Schema;
use std::alloc::{AllocError, Global};

/// What one CPU holds by its own deeds: the active principal buffer, of each slot a speculative buffer with its drops, a mark
/// and an acknowledgement, and what it has counted.
#[derive(Drop)]
pub struct CpuState<B> {
    /// The calls that count towards the most that the CPU may make.
    pub calls: u64,
    /// How many batches it sealed.
    pub seals: u64,
    /// Whether a slot missed since the last scan was decided.
    pub missed_busy: bool,
    /// For each slot one more than the issue that was settled last; 0 where none was.
    pub acks: Vec<u64>,
    /// For each slot one more than the issue last granted to the CPU, or 0.
    pub marks: Marks,
    /// For each slot how many records were dropped from its buffer since that issue was granted first.
    pub specdrops: Vec<u64>,
    /// A speculative buffer for each slot.
    pub speculative: Vec<B>,
    /// The principal buffer that is written.
    pub active: B,
    /// The drops since the last seal.
    pub drops: u64,
    /// What became of the CPU's records, and events.
    pub counts: Counts,
}

impl<B> CpuState<B> {
    /// The side of a CPU before its first call: all buffers empty. It takes all memory that its calls will need.
    pub fn make<S: Schema>(alloc: Global, config: &Config) -> Result<CpuState<B>, AllocError>
    where
        B: TraceBuffer<S>,
        requires fine { start_fault config.now ≡ None }
        ensures shows { IfOk result (λ side. (s : S) (c : ℕ) → ShowsList (λ b. B.has b s) B.capacity config.now c [] side) }
        ensures worn { IfOk result (λ side. side.counts.worn ≡ 0) }
    {
        let mut speculative = Vec::new(alloc);
        for _ in 0..config.nspec {
            speculative.push(B::make(alloc, config.specsize)?)?;
        }
        let acks = vec![in alloc; 0; config.nspec as usize]?;
        let specdrops = vec![in alloc; 0; config.nspec as usize]?;
        Ok(CpuState {
            calls: 0,
            seals: 0,
            drops: 0,
            counts: Counts::zero(),
            missed_busy: false,
            active: B::make(alloc, config.bufsize)?,
            speculative,
            marks: Marks::none(config.nspec),
            specdrops,
            acks,
        })
    }
}
