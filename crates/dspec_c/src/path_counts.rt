ghost use Rattle.dspec_c.specs.Shows.{TellsPathCounts};

use dspec_paths::PathCounts;

/// A table's counts of its paths, as C reads them.
#[repr(C)]
#[derive(Drop)]
pub struct CPathCounts {
    /// How many began.
    pub began: u64,
    /// How many were kept.
    pub kept: u64,
    /// How many were thrown away.
    pub thrown_away: u64,
    /// How many are lost.
    pub lost: u64,
}

impl CPathCounts {
    pub(crate) fn of(counts: &PathCounts) -> CPathCounts
        ensures { TellsPathCounts result counts.now }
    {
        CPathCounts {
            began: counts.began,
            kept: counts.kept,
            thrown_away: counts.thrown_away,
            lost: counts.lost,
        }
    }
}
