use crate::cpu::Cpu;
use dspec_record::Schema;

/// Which lists of its own deeds a CPU has, the latest first, and which are shown by what it holds beside its seat.
pub trait Listed {
    ghost use Rattle.std.specs.Prelude.{List};
    ghost use Rattle.dspec_deeds.specs.declared.deed.Deed.{Deed};

    ghost has_list: { Self → List Deed → Type 0 };

    ghost is_shown: { Self → List Deed → Type 0 };
}

impl<S: Schema> Listed for Cpu<S> {
    ghost use Rattle.dspec_cpu.specs.Lists.{HasList, IsShown};

    ghost has_list = { λ cpu p. HasList (S.shape_of cpu.schema) (S.accepted cpu.schema) (S.text cpu.schema) cpu p };

    ghost is_shown = { λ cpu p. IsShown (S.shape_of cpu.schema) (S.accepted cpu.schema) (S.text cpu.schema) cpu p };
}
