use dspec::Handed;

/// What is to become of a path that was handed on.
#[derive(Clone, Copy, Debug, PartialEq, Eq)]
pub struct Verdict {
    /// The path.
    pub path: Handed,
    /// Whether it is to be kept; else it is to be thrown away.
    pub keep: bool,
}
