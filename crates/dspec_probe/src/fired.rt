ghost use Rattle.std.specs.Prelude.{◌≡◌, IsTrue, length, replicate};
ghost use Rattle.dspec_record.specs.{Packing.ArePacked, RecordText.fits};

use crate::{Fields, Probe};
use dspec_record::laid_out::{laid_shape, put_packed};
use dspec_record::{Enablings, Header, KnownHeader, Rec, Recorded, Schema, Shape};
use std::alloc::AllocError;
use std::marker::PhantomData;

/// A record of a probe whose header and whose fields are known when a program is compiled: its shape and its bytes are looked up
/// nowhere. Its values stand in words of eight bytes, each at its place in a record without a stamp.
pub struct Fired<F: Fields, H: KnownHeader> {
    epid: u32,
    stamp: u64,
    values: F,
    words: [u64; 9],
    end: usize,
    header: PhantomData<H>,
    ghost fit: { IsTrue (fits F.fields_are (F.numbers_of values)) },
    ghost nine: { length words ≡ 9 },
    ghost packed: { ArePacked 4 F.fields_are (F.numbers_of values) (replicate 9 0) end words },
}

impl<F: Fields, H: KnownHeader> Copy for Fired<F, H> {}

impl<F: Fields, H: KnownHeader> Clone for Fired<F, H> {
    fn clone(&self) -> Result<Fired<F, H>, AllocError> {
        Ok(Fired {
            epid: self.epid,
            stamp: self.stamp,
            values: self.values,
            words: self.words,
            end: self.end,
            header: PhantomData,
        })
    }
}

impl<F: Fields, H: KnownHeader> Fired<F, H> {
    ghost use Rattle.std.specs.Prelude.{◌≡◌, IsTrue};
    ghost use Rattle.dspec_record.specs.EnablingRows.{EnabledRows};
    ghost use Rattle.dspec_probe.specs.Probes.{IsProbeOf, IsLaidByProbe, epid_of_probe, header_of_probe, probed_record};

    /// The record of a probe with these values; the stamp is left out where records have none. Each schema that has the probe accepts
    /// it.
    #[inline(always)]
    pub fn of(probe: Probe<F>, stamp: u64, values: F) -> Fired<F, H>
        requires { header_of_probe probe ≡ H.header_is }
        ensures rec { ⟦<Fired<F, H> as Recorded>⟧.as_record result ≡ probed_record probe stamp (F.numbers_of values) }
        ensures accepted { (schema : EnabledRows) → IsProbeOf F.fields_are probe schema
            → IsTrue (⟦<Enablings as Schema>⟧.accepted schema (⟦<Fired<F, H> as Recorded>⟧.as_record result)) }
        ensures laid { IsLaidByProbe H.header_is (epid_of_probe probe) F.fields_are (⟦<Fired<F, H> as Recorded>⟧.as_record result) (⟦<Fired<F, H> as Recorded>⟧.laid_as result) }
    {
        let mut words = [0; 9];
        let end = values.pack(&mut words);
        let stamp = match H::header() {
            Header::One => 0,
            Header::Two => stamp,
        };
        Fired {
            epid: probe.epid(),
            stamp,
            values,
            words,
            end,
            header: PhantomData,
        }
    }
}

impl<F: Fields, H: KnownHeader> Recorded for Fired<F, H> {
    ghost use Rattle.std.specs.Prelude.{Some};
    ghost use Rattle.dspec_record.specs.{Layout.layout, RecordText.record_text};

    ghost as_record = { λ f. record { epid = f.epid; stamp = f.stamp; values = F.numbers_of f.values } };

    ghost laid_as = { λ f. Some (record { shape = layout H.header_is F.fields_are; text = record_text H.header_is F.fields_are (record { epid = f.epid; stamp = f.stamp; values = F.numbers_of f.values }) }) };

    #[inline(always)]
    fn epid(&self) -> u32 {
        self.epid
    }

    #[inline(always)]
    fn stamp(&self) -> u64 {
        self.stamp
    }

    #[inline(always)]
    fn values(&self) -> Option<&[u64]> {
        None
    }

    #[inline(always)]
    fn to_rec(&self) -> Rec {
        self.values.rec(self.epid, self.stamp)
    }

    #[inline(always)]
    fn laid_shape(&self) -> Option<Shape> {
        Some(laid_shape(H::header(), F::fields().as_slice()))
    }

    // a hint alone: what `always` puts into its callers is what stands here before it is simplified, and callers that would grow
    // too large by it become calls themselves
    #[inline]
    fn put_laid(&self, out: &mut [u8]) -> bool {
        let count = (self.end + 7) / 8;
        put_packed(
            H::header(),
            self.epid,
            self.stamp,
            &self.words[..count],
            out,
        );
        true
    }
}
