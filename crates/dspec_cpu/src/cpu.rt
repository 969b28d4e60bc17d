use crate::parts::CpuParts;
use dspec_record::Schema;
use std::marker::Model;

/// One CPU of a session. Between two of its calls, it can be called by those who share the words that its seat is at.
#[derive(Drop)]
pub struct Cpu<S: Schema> {
    pub(crate) parts: CpuParts<S>,
}

impl<S: Schema> Model for Cpu<S> {
    ghost use Rattle.dspec_cpu.specs.{Lists.IsSteady, declared.parts.CpuParts.CpuParts};

    ghost Value = { CpuParts S };

    ghost view = { λ c. c.parts };

    ghost invariant = { λ c. IsSteady (S.shape_of c.parts.schema) (S.accepted c.parts.schema) (S.text c.parts.schema) c.parts };
}
