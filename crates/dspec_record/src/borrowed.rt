ghost use Rattle.std.specs.Prelude.{◌≤◌, length};

use crate::record::MAX_VALUES;
use crate::{Rec, Recorded, Shape};

/// A record whose values stand elsewhere, at most eight as in a `Rec`: to make it and to pass it on, none of them is copied.
#[derive(Debug, Clone, Copy)]
pub struct BorrowedRec<'a> {
    epid: u32,
    stamp: u64,
    values: &'a [u64],
    ghost few: { length values.now ≤ 8 },
}

impl<'a> BorrowedRec<'a> {
    ghost use Rattle.std.specs.Prelude.{◌≡◌, ◌≤◌, ◌↔◌, length, IfSome, IsSome};
    ghost use Rattle.dspec_record.specs.Borrowed.{borrowed_record};

    /// The record with this stamp and these values; None for more than eight values.
    #[inline(always)]
    pub fn of(epid: u32, stamp: u64, values: &'a [u64]) -> Option<BorrowedRec<'a>>
        ensures present { IsSome result ↔ (length values.now ≤ 8) }
        ensures holds { IfSome result (λ r. borrowed_record r ≡ record { epid = epid; stamp = stamp; values = values.now }) }
    {
        if values.len() > MAX_VALUES {
            return None;
        }
        Some(BorrowedRec::few(epid, stamp, values))
    }

    // The record with these values, which are eight at most.
    #[inline(always)]
    pub(crate) fn few(epid: u32, stamp: u64, values: &'a [u64]) -> BorrowedRec<'a>
        requires few { length values.now ≤ 8 }
        ensures { borrowed_record result ≡ record { epid = epid; stamp = stamp; values = values.now } }
    {
        BorrowedRec {
            epid,
            stamp,
            values,
        }
    }
}

impl<'a> Recorded for BorrowedRec<'a> {
    ghost use Rattle.std.specs.Prelude.{None};
    ghost use Rattle.dspec_record.specs.Borrowed.{borrowed_record};

    ghost as_record = { borrowed_record };

    ghost laid_as = { λ _. None };

    #[inline(always)]
    fn epid(&self) -> u32 {
        self.epid
    }

    #[inline(always)]
    fn stamp(&self) -> u64 {
        self.stamp
    }

    #[inline(always)]
    fn values(&self) -> Option<&[u64]> {
        Some(self.values)
    }

    #[inline(always)]
    fn to_rec(&self) -> Rec {
        Rec::few(self.epid, self.stamp, self.values)
    }

    #[inline(always)]
    fn laid_shape(&self) -> Option<Shape> {
        None
    }

    #[inline(always)]
    fn put_laid(&self, _out: &mut [u8]) -> bool {
        false
    }
}
