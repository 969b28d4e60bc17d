use crate::rest::CpuRest;
use dspec_record::Schema;

/// Which lists of its own deeds what is left of a CPU has, the latest first, where the CPU's end of the rings had handed on
/// these batches.
pub trait Rested {
    ghost use Rattle.std.specs.Prelude.{List};
    ghost use Rattle.dspec_deeds.specs.declared.deed.Deed.{Deed};
    ghost use Rattle.dspec_ring.specs.declared.batch.Batch.{Batch};

    ghost has_list: { Self → List Batch → List Deed → Type 0 };
}

impl<S: Schema> Rested for CpuRest<S> {
    ghost use Rattle.dspec_cpu.specs.Rests.{RestHasList};

    ghost has_list = { λ rest handed p. RestHasList (S.shape_of rest.schema) (S.accepted rest.schema) (S.text rest.schema) rest handed p };
}
