use crate::codec::read_epid;
use crate::{ReadKind, Rec, Recorded, Schema, Shape};

/// The default action (Solaris Dynamic Tracing Guide, "Speculative Tracing"): every EPID but zero, alone,
/// in 4 bytes.
#[derive(Debug, Clone, Copy, PartialEq, Eq)]
pub struct DefaultAction;

impl Schema for DefaultAction {
    ghost use Rattle.dspec_record.specs.{Laws.Tables.default_fields-IsLimited, Laws.Tables.table-shapes_fit, Laws.Tables.table-texts_fit, Laws.Tables.table-texts_differ, Schemas.default_fields};
    ghost use Rattle.dspec_record.specs.{Schemas.table_shape, Schemas.table_accepts, Schemas.table_text, declared.header.Header.TheVariants.One};
    ghost use Rattle.std.specs.Prelude.{refl};

    ghost shape_of = { λ _. table_shape One default_fields };

    ghost accepted = { λ _. table_accepts One default_fields };

    ghost text = { λ _. table_text One default_fields };

    ghost zero_has_none = { λ _. refl };

    ghost shapes_fit = { λ _. table-shapes_fit One default_fields default_fields-IsLimited };

    ghost texts_fit = { λ _. table-texts_fit One default_fields };

    ghost texts_differ = { λ _. table-texts_differ One default_fields };

    fn shape(&self, epid: u32) -> Option<Shape> {
        match epid {
            0 => None,
            _ => Some(Shape { size: 4, align: 4 }),
        }
    }

    fn accepts(&self, rec: &Rec) -> bool {
        rec.epid() != 0 && rec.stamp() == 0 && rec.values().is_empty()
    }

    #[inline(always)]
    fn put(&self, rec: &Rec, out: &mut [u8]) {
        out.copy_from_slice(&rec.epid().to_le_bytes());
    }

    #[inline(always)]
    fn shape_recorded<R: Recorded>(&self, _rec: R) -> Shape {
        Shape { size: 4, align: 4 }
    }

    #[inline(always)]
    fn get(&self, bytes: &[u8]) -> Result<(Rec, usize), ReadKind> {
        let epid = read_epid(bytes)?;
        let Some(rec) = Rec::new(epid, &[]) else {
            unreachable!()
        };
        Ok((rec, 4))
    }
}
