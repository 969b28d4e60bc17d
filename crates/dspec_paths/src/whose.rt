/// Whose open paths are meant.
#[derive(Debug, Clone, Copy, PartialEq, Eq)]
pub enum WhosePaths {
    /// All.
    All,
    /// Those of this thread, as the caller numbers threads.
    Thread(u32),
}
