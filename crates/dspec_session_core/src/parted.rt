use dspec_cpu::KeptRest;
use dspec_ring::CpuEnd;

/// A CPU that has parted from its seat, until the words are closed: its end of the rings, and what is left of it.
#[derive(Drop)]
pub(crate) struct Parted {
    pub(crate) end: CpuEnd,
    pub(crate) rest: KeptRest,
}
