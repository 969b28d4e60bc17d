use dspec_word::SpecId;

/// How the caller names an open path. It changes where the path goes on in a new speculation.
#[derive(Debug, Clone, Copy, PartialEq, Eq)]
pub struct PathKey {
    /// Its place in the table, below `MAX_PATHS`.
    pub place: u32,
    /// The speculation that its records go into.
    pub newest: SpecId,
}
