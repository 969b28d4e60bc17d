ghost use Rattle.std.specs.Prelude.{◌≡◌, ◌≤◌, ◌<◌, ◌+◌, ◌-◌, ◌%◌, ◌^◌, ◌⊎◌, ◌++◌, length, take, replicate, IsTrue, Some, MatchOption};
ghost use Rattle.dspec_record.specs.{LaidOut.IsLaidBy, Layout.rounded_up, Layout.after};

use dspec_record::{Recorded, Schema, Shape};

/// The bytes of a padding word.
const PADDING: [u8; 4] = [0; 4];

/// The first place after `offset` that is a multiple of the alignment.
#[inline(always)]
pub(crate) fn aligned(offset: u32, align: u32) -> u32
    requires aligned { (align ≡ 4) ⊎ (align ≡ 8) }
    requires whole_words { offset % 4 ≡ 0 }
    requires within { offset ≤ 2 ^ 20 }
    ensures is { result ≡ rounded_up offset align }
    ensures near { result ≤ offset + 4 }
{
    // offsets are whole words: a word of padding comes where the offset has the bit that an alignment of eight forbids
    offset + (offset & (align - 4))
}

/// Where a piece stands that is reserved after `offset`, if it ends within `limit`.
pub(crate) fn place_for(offset: u32, limit: u32, align: u32, size: u32) -> Option<u32>
    requires aligned { (align ≡ 4) ⊎ (align ≡ 8) }
    requires whole_words { offset % 4 ≡ 0 }
    requires within { offset ≤ 2 ^ 20 }
    ensures { MatchOption result (limit < after offset align size)
        (λ place. (place ≡ rounded_up offset align) × (place + size ≤ limit)) }
{
    let place = aligned(offset, align);
    if u64::from(place) + u64::from(size) <= u64::from(limit) {
        Some(place)
    } else {
        None
    }
}

/// Writes the padding word between `from` and `to`, if there is room for one.
pub(crate) fn pad(bytes: &mut [u8], from: usize, to: usize)
    requires gap { (to ≡ from) ⊎ (to ≡ from + 4) }
    requires within { to ≤ length bytes.old }
    ensures { take to bytes.new ≡ take from bytes.old ++ replicate (to - from) 0 }
{
    if from < to {
        bytes[from..to].copy_from_slice(&PADDING);
    }
}

/// Writes an accepted record, as the record knows its text or else the schema, and the padding word before it. That word is always
/// written: where there is no padding, the record goes over it.
#[inline(always)]
pub(crate) fn put_after<S: Schema, R: Recorded>(
    schema: &S,
    rec: R,
    bytes: &mut [u8],
    from: usize,
    place: usize,
    end: usize,
)
    requires accepted { IsTrue (S.accepted schema.now (R.as_record rec)) }
    requires laid { IsLaidBy (S.shape_of schema.now) (S.text schema.now) (R.as_record rec) (R.laid_as rec) }
    requires gap { (place ≡ from) ⊎ (place ≡ from + 4) }
    requires end { end ≡ place + length (S.text schema.now (R.as_record rec)) }
    requires room { end + 8 ≤ length bytes.old }
    ensures { take end bytes.new ≡ take from bytes.old ++ (replicate (place - from) 0 ++ S.text schema.now (R.as_record rec)) }
{
    bytes[from..from + 4].copy_from_slice(&PADDING);
    let out = &mut bytes[place..];
    if !rec.put_laid(out) {
        schema.put_recorded(rec, out);
    }
}

/// The shape of an accepted record, which the record itself knows or the schema.
#[inline(always)]
pub(crate) fn shape_in<S: Schema, R: Recorded>(schema: &S, rec: R) -> Shape
    requires accepted { IsTrue (S.accepted schema.now (R.as_record rec)) }
    requires laid { IsLaidBy (S.shape_of schema.now) (S.text schema.now) (R.as_record rec) (R.laid_as rec) }
    ensures { Some result ≡ S.shape_of schema.now (R.as_record rec).epid }
{
    match rec.laid_shape() {
        Some(shape) => {
            // a trial build stops here, where nobody has shown that the EPID has records of this shape; what is proved doesn't look
            let is_known = schema.shape(rec.epid()) == Some(shape);
            prove!(is_known);
            shape
        }
        None => schema.shape_recorded(rec),
    }
}
