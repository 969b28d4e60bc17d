use crate::parts::CpuParts;
use dspec_record::Schema;

/// Whether the parts of a CPU can be called by those who share these words.
pub(crate) trait Callable {
    ghost use Rattle.dspec_table.specs.declared.seats.Words.{Words};

    ghost is_ready: { Words → Self → Type 0 };
}

impl<S: Schema> Callable for CpuParts<S> {
    ghost use Rattle.dspec_cpu.specs.Lists.{IsReady};

    ghost is_ready = { λ words cpu. IsReady (S.shape_of cpu.schema) (S.accepted cpu.schema) (S.text cpu.schema) words cpu };
}
