use crate::codec::{fits_header, put_header, read_epid, read_record};
use crate::{Header, ReadKind, Rec, Recorded, Schema, Shape};

/// How many bytes a record has: its EPID and its stamp.
const SIZE: usize = 12;

/// How many bytes its stores need, which have eight each.
const ROOM: usize = 16;

/// The default action with a stamp on each record: every EPID but zero, without fields, in 12 bytes.
#[derive(Debug, Clone, Copy, PartialEq, Eq)]
pub struct StampedAction;

impl Schema for StampedAction {
    ghost use Rattle.dspec_record.specs.{Laws.Tables.default_fields-IsLimited, Laws.Tables.table-shapes_fit, Laws.Tables.table-texts_fit, Laws.Tables.table-texts_differ, Schemas.default_fields};
    ghost use Rattle.dspec_record.specs.{Schemas.table_shape, Schemas.table_accepts, Schemas.table_text, declared.header.Header.TheVariants.Two};
    ghost use Rattle.std.specs.Prelude.{refl};

    ghost shape_of = { λ _. table_shape Two default_fields };

    ghost accepted = { λ _. table_accepts Two default_fields };

    ghost text = { λ _. table_text Two default_fields };

    ghost zero_has_none = { λ _. refl };

    ghost shapes_fit = { λ _. table-shapes_fit Two default_fields default_fields-IsLimited };

    ghost texts_fit = { λ _. table-texts_fit Two default_fields };

    ghost texts_differ = { λ _. table-texts_differ Two default_fields };

    fn shape(&self, epid: u32) -> Option<Shape> {
        match epid {
            0 => None,
            _ => Some(Shape { size: 12, align: 4 }),
        }
    }

    fn accepts(&self, rec: &Rec) -> bool {
        rec.epid() != 0 && fits_header(Header::Two, rec.stamp()) && rec.values().is_empty()
    }

    #[inline(always)]
    fn put(&self, rec: &Rec, out: &mut [u8]) {
        let mut room = [0; ROOM];
        put_header(Header::Two, rec, &mut room);
        out.copy_from_slice(&room[..SIZE]);
    }

    #[inline(always)]
    fn shape_recorded<R: Recorded>(&self, _rec: R) -> Shape {
        Shape { size: 12, align: 4 }
    }

    #[inline(always)]
    fn get(&self, bytes: &[u8]) -> Result<(Rec, usize), ReadKind> {
        let epid = read_epid(bytes)?;
        if bytes.len() < SIZE {
            return Err(ReadKind::Truncated);
        }
        match read_record(Header::Two, &[], epid, &bytes[..SIZE]) {
            Some(rec) => Ok((rec, SIZE)),
            None => Err(ReadKind::GapNotZero),
        }
    }
}
