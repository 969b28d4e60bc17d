ghost use Rattle.std.specs.Prelude.{◌≡◌};
ghost use Rattle.dspec_probe.specs.declared.fault.ProbeFault.TheVariants.{Memory};

use std::alloc::{AllocError, AllocFailed};
use thiserror::Error;

/// Why a probe isn't declared.
#[derive(Debug, Clone, Copy, PartialEq, Eq, Error)]
pub enum ProbeFault {
    /// There aren't as many names as fields.
    #[error("not a name for each field")]
    FieldCount,
    /// There aren't as many lists of labels as fields.
    #[error("not a list of labels for each field")]
    LabelCount,
    /// There are 64 probes already.
    #[error("too many probes")]
    TooMany,
    /// A growth was refused.
    #[error("out of memory")]
    Memory,
}

impl<T: Drop> From<AllocFailed<T>> for ProbeFault {
    ghost from_gives = { λ _ fault. fault ≡ Memory };

    fn from(_refused: AllocFailed<T>) -> Self {
        ProbeFault::Memory
    }
}

impl From<AllocError> for ProbeFault {
    ghost from_gives = { λ _ fault. fault ≡ Memory };

    fn from(_refused: AllocError) -> Self {
        ProbeFault::Memory
    }
}
