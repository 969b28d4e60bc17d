ghost use Rattle.std.specs.Prelude.{◌≡◌, ◌≤◌, ◌<◌, length, take};
ghost use Rattle.dspec_record.specs.{Layout.layout, Packing.words_in, Packing.masked_words, Packing.packed_record, Packing.IsClean, declared.header.Header.TheVariants.One};

use crate::codec::fits_header;
use crate::enabling::{Enabling, MAX_FIELDS, MAX_WORDS};
use crate::laid_out::{HALF, put_packed};
use crate::{Enablings, Field, Header, KnownHeader, Rec, Recorded, Schema, Shape};
use std::alloc::AllocError;
use std::marker::PhantomData;

/// A record whose text its caller packed into words of eight bytes: they are stored as they are, so that no field is looked at.
/// What is no field is cleared from them; EPID and stamp stand beside.
pub struct Packed<H: KnownHeader> {
    epid: u32,
    stamp: u64,
    fields: [Field; MAX_FIELDS],
    len: u32,
    shape: Shape,
    count: usize,
    words: [u64; MAX_WORDS],
    header: PhantomData<H>,
    ghost few: { len ≤ 8 },
    ghost laid: { shape ≡ layout One (take len fields) },
    ghost some: { 0 < count },
    ghost many: { count ≡ words_in (take len fields) },
    ghost eight: { length fields ≡ 8 },
    ghost nine: { length words ≡ 9 },
    ghost clean: { IsClean (take len fields) (take count words) },
}

impl<H: KnownHeader> Copy for Packed<H> {}

impl<H: KnownHeader> Clone for Packed<H> {
    fn clone(&self) -> Result<Packed<H>, AllocError> {
        Ok(Packed {
            epid: self.epid,
            stamp: self.stamp,
            fields: self.fields,
            len: self.len,
            shape: self.shape,
            count: self.count,
            words: self.words,
            header: PhantomData,
        })
    }
}

impl Enablings {
    ghost use Rattle.std.specs.Prelude.{◌≡◌, ◌↔◌, ◌%◌, ◌^◌, IsTrue, length, IfSome, IsSome};
    ghost use Rattle.dspec_record.specs.{LaidOut.IsLaidBy, PackedFields.packed_of, PackedFields.laid_of, Packing.claimed, Packing.packed_record, RecordText.stamp_fits};

    /// The record of the claimed EPID with this stamp, whose fields stand in these words. None where the claim is true of no
    /// enabling, the number of words is another than its fields have, the enablings have another header, or it has no stamp and
    /// one is given that isn't 0. Bits that are of no field count for nothing.
    #[inline(always)]
    pub fn packed<H: KnownHeader>(&self, claim: u64, stamp: u64, words: &[u64]) -> Option<Packed<H>>
        ensures due { IsSome result ↔ ((self.now.header ≡ H.header_is) × IsTrue (stamp_fits H.header_is stamp)
            × IsSome (claimed self.now.rows claim (length words.now))) }
        ensures holds { IfSome result (λ p. IfSome (claimed self.now.rows claim (length words.now))
            (λ fs. packed_of p ≡ packed_record (claim % 2 ^ 32) stamp fs words.now)) }
        ensures accepted { IfSome result (λ p. IsTrue (⟦<Enablings as Schema>⟧.accepted self.now (packed_of p))) }
        ensures laid { IfSome result (λ p. IsLaidBy (⟦<Enablings as Schema>⟧.shape_of self.now)
            (⟦<Enablings as Schema>⟧.text self.now) (packed_of p) (laid_of H.header_is p)) }
    {
        let row = self.claimed_row(claim, words.len())?;
        if !self.header().is(H::header()) || !fits_header(H::header(), stamp) {
            return None;
        }
        Some(Packed::of((claim % HALF) as u32, stamp, row, words))
    }
}

impl<H: KnownHeader> Packed<H> {
    ghost use Rattle.std.specs.Prelude.{◌≡◌, ◌≤◌, ◌<◌, ◌%◌, ◌^◌, length, slice_index_or};
    ghost use Rattle.dspec_record.specs.{PackedFields.packed_fields, PackedFields.packed_words, PackedFields.packed_of, Packing.words_in, Packing.packed_record};

    #[inline(always)]
    fn of(epid: u32, stamp: u64, row: &Enabling, words: &[u64]) -> Packed<H>
        requires some { 0 < length words.now }
        requires many { length words.now ≡ words_in row.now }
        ensures fields { packed_fields result ≡ row.now }
        ensures holds { packed_of result ≡ packed_record epid stamp row.now words.now }
        ensures few { length row.now ≤ 8 }
    {
        Packed {
            epid,
            stamp,
            fields: row.held(),
            len: row.len(),
            shape: shape_of_words(row, words.len()),
            count: words.len(),
            words: masked(words, row.masks()),
            header: PhantomData,
        }
    }

    /// The words that hold the text, of which the first has zeros in its lower half.
    #[inline(always)]
    fn words(&self) -> &[u64]
        ensures words { result.now ≡ packed_words self.now }
        ensures many { length result.now ≡ self.now.count }
        ensures zeros { slice_index_or result.now 0 0 % 2 ^ 32 ≡ 0 }
    {
        &self.words[..self.count]
    }
}

/// The record with these fields, each cut out of its word.
#[inline(always)]
fn unpacked(epid: u32, stamp: u64, fields: &[Field], words: &[u64]) -> Rec
    requires few { length fields.now ≤ 8 }
    requires many { length words.now ≡ words_in fields.now }
    ensures { result ≡ packed_record epid stamp fields.now words.now }
{
    let mut rec = Rec::bare(epid, stamp);
    let mut end = Header::One.fields_start();
    for i in 0..fields.len() {
        let field = fields[i];
        let place = field.place(end);
        rec.add((words[place / 8] >> (place % 8 * 8) as u32) & field.limit());
        end = place + field.width();
    }
    rec
}

/// The shape of records of this enabling, whose text has so many words without a stamp.
#[inline(always)]
fn shape_of_words(row: &Enabling, count: usize) -> Shape
    requires many { count ≡ words_in row.now }
    ensures { result ≡ layout One row.now }
{
    // one word has one shape: where the caller knows the number of words nothing is looked up
    if count == 1 {
        return Shape { size: 8, align: 4 };
    }
    row.shape(Header::One, 0)
}

/// The words without the bits that the masks don't have.
#[inline(always)]
fn masked(words: &[u64], masks: &[u64; MAX_WORDS]) -> [u64; MAX_WORDS]
    requires { length words.now ≤ 9 }
    ensures masked { take (length words.now) result ≡ masked_words words.now masks.now }
    ensures nine { length result ≡ 9 }
{
    let mut kept = [0; MAX_WORDS];
    for i in 0..words.len() {
        kept[i] = words[i] & masks[i];
    }
    kept
}

impl<'a, H: KnownHeader> Recorded for &'a Packed<H> {
    ghost use Rattle.dspec_record.specs.PackedFields.{packed_of, laid_of};

    ghost as_record = { λ p. packed_of p.now };

    ghost laid_as = { λ p. laid_of H.header_is p.now };

    #[inline(always)]
    fn stamp(&self) -> u64 {
        self.stamp
    }

    #[inline(always)]
    fn epid(&self) -> u32 {
        self.epid
    }

    #[inline(always)]
    fn values(&self) -> Option<&[u64]> {
        None
    }

    // where nothing asks for the copy, no code is left of it: its loop goes over copies, so that words that are written need no place
    // in memory
    #[inline(always)]
    fn to_rec(&self) -> Rec {
        let (fields, words) = (self.fields, self.words);
        unpacked(
            self.epid,
            self.stamp,
            &fields[..self.len as usize],
            &words[..self.count],
        )
    }

    #[inline(always)]
    fn laid_shape(&self) -> Option<Shape> {
        Some(Shape {
            size: self.shape.size + H::header().stamp_size() as u32,
            align: self.shape.align,
        })
    }

    #[inline(always)]
    fn put_laid(&self, out: &mut [u8]) -> bool {
        put_packed(H::header(), self.epid, self.stamp, self.words(), out);
        true
    }
}
