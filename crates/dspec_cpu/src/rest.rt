use dspec_buffer::ByteBuffer;
use dspec_cpu_state::CpuState;
use dspec_deeds::Config;
use dspec_record::Schema;
use dspec_ring::Batch;

/// What is left of a CPU at the close of its session, once its seat and its end of the rings are taken off: all that it kept of
/// its own calls but the spare buffer.
#[derive(Drop)]
pub struct CpuRest<S: Schema> {
    pub(crate) schema: S,
    pub(crate) config: Config,
    pub(crate) cpu: u32,
    pub(crate) side: CpuState<ByteBuffer>,
    pub(crate) held_back: Option<Batch>,
}
