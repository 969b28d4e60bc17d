use dspec_buffer::ByteBuffer;
use dspec_cpu_state::CpuState;
use dspec_deeds::Config;
use dspec_record::Schema;
use dspec_ring::{Batch, CpuEnd};
use dspec_table::CpuSeat;

/// One CPU of a session: its seat at the words, its end of the rings, and what it holds by its own deeds.
#[derive(Drop)]
pub struct CpuParts<S: Schema> {
    pub(crate) schema: S,
    pub(crate) config: Config,
    pub(crate) cpu: u32,
    pub(crate) seat: CpuSeat,
    pub(crate) end: CpuEnd,
    pub(crate) side: CpuState<ByteBuffer>,
    /// The buffer that is active next.
    pub(crate) spare: Option<ByteBuffer>,
    /// A batch whose hand-over was refused.
    pub(crate) held_back: Option<Batch>,
}
