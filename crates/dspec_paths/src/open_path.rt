use dspec_word::SpecId;

/// A path that is open on a CPU.
#[derive(Debug, Clone, Copy, PartialEq, Eq)]
pub struct OpenPath {
    /// Its number, which its records have.
    pub number: u32,
    /// The thread that recorded last, as the caller numbers threads.
    pub thread: u32,
    /// The stamp of its first record.
    pub begun: u64,
    /// The speculation that its records go into.
    pub newest: SpecId,
    /// The one before, which is full: where a path keeps its last records.
    pub older: Option<SpecId>,
    /// Its older records were kept, and the others wait for room: the path is decided.
    pub is_kept: bool,
    /// How many of its first records were thrown away for later ones.
    pub cut: u32,
}
