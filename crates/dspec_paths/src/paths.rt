ghost use Rattle.std.specs.Prelude.{◌≡◌, length};

use crate::open_path::OpenPath;
use crate::path_counts::PathCounts;

/// The most paths that are open on a CPU.
pub const MAX_PATHS: usize = 64;

/// The open paths of a CPU, and how many there were.
#[derive(Debug, Clone, Copy)]
pub struct Paths {
    pub(crate) places: [Option<OpenPath>; MAX_PATHS],
    pub(crate) counts: PathCounts,
    ghost many: { length places ≡ 64 },
}
