use crate::codec::{fits_fields, fits_header, put_record, read_epid, read_record};
use crate::{BorrowedRec, Enablings, Header, ReadKind, Rec, Recorded, Schema, Shape};

/// How many bytes the longest text has that a buffer can reserve, and eight after it.
const ROOM: usize = 136;

impl Schema for Enablings {
    ghost use Rattle.dspec_record.specs.Laws.Tables.{enabled-IsLimited, table-shapes_fit, table-texts_fit, table-texts_differ};
    ghost use Rattle.dspec_record.specs.Schemas.{enabled, table_shape, table_accepts, table_text};
    ghost use Rattle.std.specs.Prelude.{refl};

    ghost shape_of = { λ s. table_shape s.header (enabled s.rows) };

    ghost accepted = { λ s. table_accepts s.header (enabled s.rows) };

    ghost text = { λ s. table_text s.header (enabled s.rows) };

    ghost zero_has_none = { λ s. refl };

    ghost shapes_fit = { λ s. table-shapes_fit s.header (enabled s.rows) (enabled-IsLimited s.rows) };

    ghost texts_fit = { λ s. table-texts_fit s.header (enabled s.rows) };

    ghost texts_differ = { λ s. table-texts_differ s.header (enabled s.rows) };

    fn shape(&self, epid: u32) -> Option<Shape> {
        match self.enabling(epid) {
            Some(enabling) => Some(enabling.shape(self.header(), self.stamp_size())),
            None => None,
        }
    }

    #[inline(always)]
    fn accepts(&self, rec: &Rec) -> bool {
        self.accepts_recorded(rec)
    }

    #[inline(always)]
    fn put(&self, rec: &Rec, out: &mut [u8]) {
        let mut room = [0; ROOM];
        self.put_recorded(rec, &mut room);
        let size = out.len();
        out.copy_from_slice(&room[..size]);
    }

    fn accepts_recorded<R: Recorded>(&self, rec: R) -> bool {
        let Some(values) = rec.values() else {
            let copy = rec.to_rec();
            return self
                .borrowed(copy.epid(), copy.stamp(), copy.values())
                .is_some();
        };
        self.borrowed(rec.epid(), rec.stamp(), values).is_some()
    }

    #[inline(always)]
    fn put_recorded<R: Recorded>(&self, rec: R, out: &mut [u8]) {
        let enabling = self.row(rec.epid());
        // the writing once for each header, so that none of it asks which one it is
        match self.header() {
            Header::One => put_record(Header::One, enabling.fields(), enabling.places(), rec, out),
            Header::Two => put_record(Header::Two, enabling.fields(), enabling.places(), rec, out),
        }
    }

    #[inline(always)]
    fn shape_recorded<R: Recorded>(&self, rec: R) -> Shape {
        self.row(rec.epid()).shape(self.header(), self.stamp_size())
    }

    #[inline(always)]
    fn borrowed<'a>(&self, epid: u32, stamp: u64, values: &'a [u64]) -> Option<BorrowedRec<'a>> {
        let enabling = self.enabling(epid)?;
        if !fits_header(self.header(), stamp) {
            return None;
        }
        // as many values as the enabling has fields, which are eight at most
        if !fits_fields(enabling.fields(), enabling.limits(), values) {
            return None;
        }
        Some(BorrowedRec::few(epid, stamp, values))
    }

    #[inline(always)]
    fn get(&self, bytes: &[u8]) -> Result<(Rec, usize), ReadKind> {
        let header = self.header();
        let epid = read_epid(bytes)?;
        let Some(enabling) = self.enabling(epid) else {
            return Err(ReadKind::UnknownEpid);
        };
        let size = enabling.shape(header, self.stamp_size()).size as usize;
        if bytes.len() < size {
            return Err(ReadKind::Truncated);
        }
        match read_record(header, enabling.fields(), epid, &bytes[..size]) {
            Some(rec) => Ok((rec, size)),
            None => Err(ReadKind::GapNotZero),
        }
    }
}
