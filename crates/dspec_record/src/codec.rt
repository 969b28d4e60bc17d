ghost use Rattle.std.specs.Prelude.{◌≡◌, ◌≢◌, ◌≤◌, ◌<◌, ◌+◌, ◌%◌, ◌++◌, ◌^◌, ◌↔◌, ℕ, List, ◌⊎◌, nat_le, IsTrue, IfSome, IfNone, IfOk, IfErr, length, map, take, drop, replicate};
ghost use Rattle.dspec_record.specs.{Layout.width, Layout.limit, Layout.rounded_up, Layout.after, Layout.field_places, Layout.fields_start, Layout.layout, Reading.front_epid, Record.Record};
ghost use Rattle.dspec_record.specs.{RecordText.little_endian, RecordText.gap, RecordText.stamp_text, RecordText.header_text, RecordText.record_text, RecordText.stamp_fits, RecordText.fits};
ghost use Rattle.dspec_record.specs.{RecordText.IsRead, Writing.IsClearAfter};

use crate::laid_out::put_word;
use crate::{Field, Header, ReadKind, Rec, Recorded};

/// How many bytes an EPID has.
const EPID_SIZE: usize = 4;

/// How many numbers a word of four bytes holds.
const WORD: u64 = 1 << 32;

/// Whether a record with this header can have this stamp: 0 alone where the header has none.
#[inline]
pub(crate) fn fits_header(header: Header, stamp: u64) -> bool
    ensures { result ≡ stamp_fits header stamp }
{
    match header {
        Header::One => stamp == 0,
        Header::Two => true,
    }
}

/// Whether there is a value for each field, and none is above the field's limit.
#[inline]
pub(crate) fn fits_fields(fields: &[Field], limits: &[u64], values: &[u64]) -> bool
    requires limits { limits.now ≡ map limit fields.now }
    ensures { result ≡ fits fields.now values.now }
{
    if fields.len() != values.len() {
        return false;
    }
    for (i, limit) in limits.iter().enumerate() {
        if values[i] > *limit {
            return false;
        }
    }
    true
}

/// Writes the record's text over the first bytes: its header, its values at the places of these fields, and zero between them.
/// The places are those without a stamp. Each store is one of eight bytes, for which there is room after the text too.
#[inline(always)]
pub(crate) fn put_record<R: Recorded>(
    header: Header,
    fields: &[Field],
    places: &[u8],
    rec: R,
    out: &mut [u8],
)
    requires few { length fields.now ≤ 8 }
    requires places { places.now ≡ field_places 4 fields.now }
    requires fit { IsTrue (fits fields.now (R.as_record rec).values) }
    requires room { (layout header fields.now).size + 8 ≤ length out.old }
    ensures { take (layout header fields.now).size out.new ≡ record_text header fields.now (R.as_record rec) }
{
    match rec.values() {
        Some(values) => put_values(header, fields, places, rec, values, out),
        None => {
            let copy = rec.to_rec();
            put_values(header, fields, places, &copy, copy.values(), out);
        }
    }
}

/// As `put_record`, where the record's values stand as numbers.
#[inline(always)]
fn put_values<R: Recorded>(
    header: Header,
    fields: &[Field],
    places: &[u8],
    rec: R,
    values: &[u64],
    out: &mut [u8],
)
    requires few { length fields.now ≤ 8 }
    requires places { places.now ≡ field_places 4 fields.now }
    requires values { values.now ≡ (R.as_record rec).values }
    requires fit { IsTrue (fits fields.now (R.as_record rec).values) }
    requires room { (layout header fields.now).size + 8 ≤ length out.old }
    ensures { take (layout header fields.now).size out.new ≡ record_text header fields.now (R.as_record rec) }
{
    let mut end = put_header(header, rec, out);
    let moved = header.stamp_size();
    // each place is known: no running code is left of the ends
    for (i, value) in values.iter().enumerate() {
        let place = places[i] as usize + moved;
        end = put_field(fields[i], *value, end, place, out);
    }
}

/// Writes what stands before the fields; answers where they begin.
#[inline(always)]
pub(crate) fn put_header<R: Recorded>(header: Header, rec: R, out: &mut [u8]) -> usize
    requires room { fields_start header + 4 ≤ length out.old }
    ensures end { result ≡ fields_start header }
    ensures put { take (fields_start header) out.new ≡ header_text header (R.as_record rec) }
    ensures clear { IsClearAfter (fields_start header) out.new }
{
    let epid = u64::from(rec.epid());
    match header {
        Header::One => {
            put_word(epid, 0, out);
            EPID_SIZE
        }
        Header::Two => {
            let stamp = rec.stamp();
            put_word(epid + stamp % WORD * WORD, 0, out);
            put_word(stamp / WORD, 8, out);
            EPID_SIZE + 8
        }
    }
}

/// Writes a value at the field's place after `end`, and zeros after it; answers where the field ends. What is between is zero
/// already, and so is what is after the field, up to the next multiple of eight: no gap is longer.
#[inline(always)]
fn put_field(field: Field, value: u64, _end: usize, place: usize, out: &mut [u8]) -> usize
    requires holds { value < 256 ^ width field }
    requires place { place ≡ rounded_up _end (width field) }
    requires room { place + 8 ≤ length out.old }
    requires clear { IsClearAfter _end out.old }
    ensures end { result ≡ after _end (width field) (width field) }
    ensures put { take result out.new
        ≡ take _end out.old ++ (gap _end (width field) ++ little_endian (width field) value) }
    ensures clear { IsClearAfter result out.new }
{
    put_word(value, place, out);
    place + field.width()
}

/// The EPID at the front; Truncated for fewer than its four bytes, Padding for EPID 0.
#[inline(always)]
pub(crate) fn read_epid(bytes: &[u8]) -> Result<u32, ReadKind>
    ensures read { IfOk result (λ epid. 4 ≤ length bytes.now × epid ≡ front_epid bytes.now × epid ≢ 0) }
    ensures truncated { (result ≡ Err ReadKind.Truncated) ↔ (length bytes.now < 4) }
    ensures padding { (result ≡ Err ReadKind.Padding) ↔ (4 ≤ length bytes.now × front_epid bytes.now ≡ 0) }
    ensures none_else { IfErr result (λ e. (e ≡ ReadKind.Truncated) ⊎ (e ≡ ReadKind.Padding)) }
{
    if bytes.len() < EPID_SIZE {
        return Err(ReadKind::Truncated);
    }
    match u32::from_le_bytes([bytes[0], bytes[1], bytes[2], bytes[3]]) {
        0 => Err(ReadKind::Padding),
        epid => Ok(epid),
    }
}

/// The stamp in the header at the front; 0 where the header has none.
#[inline(always)]
fn read_stamp(header: Header, text: &[u8]) -> u64
    requires { fields_start header ≤ length text.now }
    ensures fits { IsTrue (stamp_fits header result) }
    ensures written { drop 4 (take (fields_start header) text.now) ≡ stamp_text header result }
{
    match header {
        Header::One => 0,
        Header::Two => Field::Four.read(&text[4..8]) + Field::Four.read(&text[8..12]) * WORD,
    }
}

/// The record with this EPID, header and fields whose text the bytes are; None where a byte between the fields
/// or after the last isn't zero.
#[inline(always)]
pub(crate) fn read_record(header: Header, fields: &[Field], epid: u32, text: &[u8]) -> Option<Rec>
    requires few { length fields.now ≤ 8 }
    requires exact { length text.now ≡ (layout header fields.now).size }
    requires epid { take 4 text.now ≡ little_endian 4 epid }
    ensures read { IfSome result (λ r. IsRead header fields.now epid text.now r) }
    ensures unread { IfNone result
        ((r : Record) → IsTrue (stamp_fits header r.stamp) → IsTrue (fits fields.now r.values)
        → text.now ≢ record_text header fields.now r) }
{
    let mut rec = Rec::bare(epid, read_stamp(header, text));
    let mut end = header.fields_start();
    for field in fields {
        let place = field.place(end);
        let next = place + field.width();
        if !is_zero(&text[end..place]) {
            return None;
        }
        rec.add(field.read(&text[place..next]));
        end = next;
    }
    if !is_zero(&text[end..]) {
        return None;
    }
    Some(rec)
}

/// Whether each of these bytes is zero.
#[inline(always)]
fn is_zero(bytes: &[u8]) -> bool
    ensures { IsTrue result ↔ (bytes.now ≡ replicate (length bytes.now) 0) }
{
    bytes.iter().all(|byte| *byte == 0)
}
