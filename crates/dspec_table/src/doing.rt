use dspec_deeds::CpuOp;

/// The call of a CPU that is in flight: whether its record or block would fit, the number of records in its block, and
/// whether the CPU is a caller of the speculation. By it and by what a step showed, the deed is known.
#[derive(Clone, Copy, Debug, PartialEq, Eq)]
pub struct Doing {
    /// The call.
    pub op: CpuOp,
    /// Whether its record or block would fit.
    pub fits: bool,
    /// The number of records in its block.
    pub count: u32,
    /// Whether the CPU is a caller of the speculation.
    pub mine: bool,
}
