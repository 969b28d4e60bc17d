ghost use Rattle.std.specs.Prelude.{◌≡◌, ◌↔◌, IsTrue, if◌then◌else◌, nat_lt, ◌≤◌, ◌<◌, ◌+◌, ◌%◌, ◌==◌, ◌≢◌, ◌⊎◌, ℕ, List, [], length, drop, take, IfOk, IfErr, OnErr, Option, Some, None, MatchOption};
ghost use Rattle.std.specs.Prelude.{MatchResult};
ghost use Rattle.dspec_record.specs.{Reading.front_epid, Record.Record};
ghost use Rattle.dspec_buffer.specs.{BufferText.BufferText, Faults.FaultHere, Faults.StopsAt, ReadingOn.NoGapAt, ReadingOn.SkipsGap, ReadingOn.ReadsNext, ReadingOn.ReadsHere, Remaining.StepsOn};

use crate::{ReadFault, Records};
use dspec_record::{ReadKind, Rec, Schema};

/// The EPID at the front of these bytes, if there are four.
#[inline(always)]
fn epid_of(bytes: &[u8]) -> Option<u32>
    ensures { result ≡ (if nat_lt (length bytes.now) 4 then None else Some (front_epid bytes.now)) }
{
    if bytes.len() < 4 {
        return None;
    }
    Some(u32::from_le_bytes([bytes[0], bytes[1], bytes[2], bytes[3]]))
}

/// The place after the padding word that stands at `place`, if one may stand there and something follows it.
#[inline(always)]
fn skip_padding(text: &[u8], place: usize) -> usize
    requires { place ≤ length text.now }
    ensures { SkipsGap text.now place result }
{
    if place % 8 == 4 && text.len() - place > 4 && epid_of(&text[place..]) == Some(0) {
        place + 4
    } else {
        place
    }
}

/// Whether a place is a multiple of an alignment. 8 and 4 are told apart, since a division is slow.
#[inline(always)]
fn is_aligned(at: usize, align: u32) -> bool
    requires { (align ≡ 4) ⊎ (align ≡ 8) }
    ensures { result ≡ (at % align == 0) }
{
    if align == 8 { at % 8 == 0 } else { at % 4 == 0 }
}

/// Whether the EPID at the front of these bytes has a shape that may not stand at this place.
#[inline(always)]
fn is_misaligned<S: Schema>(schema: &S, bytes: &[u8], at: usize) -> bool
    ensures { IsTrue result ↔ FaultHere (S.shape_of schema.now) (S.accepted schema.now) (S.text schema.now) ReadKind.Misaligned at bytes.now }
{
    let Some(epid) = epid_of(bytes) else {
        return false;
    };
    match schema.shape(epid) {
        Some(shape) => !is_aligned(at, shape.align),
        None => false,
    }
}

/// The record at a place that no padding word stands at, and the place after it.
#[inline(always)]
fn read_record<S: Schema>(schema: &S, text: &[u8], at: usize) -> Result<(Rec, usize), ReadFault>
    requires within { at < length text.now }
    requires no_gap { NoGapAt at (drop at text.now) }
    ensures { ReadsHere (S.shape_of schema.now) (S.accepted schema.now) (S.text schema.now) text.now at result }
{
    let bytes = &text[at..];
    if is_misaligned(schema, bytes, at) {
        return Err(ReadFault {
            kind: ReadKind::Misaligned,
            at,
        });
    }
    let (rec, size) = match schema.get(bytes) {
        Ok(found) => found,
        Err(kind) => return Err(ReadFault { kind, at }),
    };
    Ok((rec, at + size))
}

/// The next record from a place on, which may stand after a padding word, and the place after it; None at the end.
///
/// It is inlined into each loop that calls it, so that the check of a text, which keeps no record, makes none.
#[inline(always)]
pub(crate) fn read_next<S: Schema>(
    schema: &S,
    text: &[u8],
    place: usize,
) -> Result<Option<(Rec, usize)>, ReadFault>
    requires { place ≤ length text.now }
    ensures { ReadsNext (S.shape_of schema.now) (S.accepted schema.now) (S.text schema.now) text.now place result }
{
    if place == text.len() {
        return Ok(None);
    }
    let at = skip_padding(text, place);
    Ok(Some(read_record(schema, text, at)?))
}

/// The next record of bytes that are known to be a text from this place on, and the place after it; None at the end.
#[inline]
pub(crate) fn next_of_text<S: Schema>(schema: &S, text: &[u8], place: usize) -> Option<(Rec, usize)>
    ensures { StepsOn (S.shape_of schema.now) (S.accepted schema.now) (S.text schema.now) text.now place result }
{
    if place > text.len() {
        return None;
    }
    match read_next(schema, text, place) {
        Ok(step) => step,
        Err(_) => None,
    }
}

/// All records of a text, or its first fault. The whole text is checked first; the records are then read from it
/// again one by one, in no memory of their own.
pub fn read_all<'a, S: Schema>(schema: &'a S, text: &'a [u8]) -> Result<Records<'a, S>, ReadFault>
    ensures records { IfOk result
        (λ records. BufferText (S.shape_of schema.now) (S.accepted schema.now) (S.text schema.now) 0 text.now records) }
    ensures fault { IfErr result
        (λ fault. StopsAt (S.shape_of schema.now) (S.accepted schema.now) (S.text schema.now) text.now fault) }
    ensures unreadable { OnErr result ((rs : List Record)
        → ¬ BufferText (S.shape_of schema.now) (S.accepted schema.now) (S.text schema.now) 0 text.now rs) }
{
    let mut place = 0;
    while let Some(found) = read_next(schema, text, place)? {
        place = found.1;
    }
    Ok(Records {
        schema,
        text,
        place: 0,
    })
}
