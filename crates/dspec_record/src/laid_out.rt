//! The parts of writing a record whose fields are known when a program is compiled: its shape, the words that hold its values, and
//! its text.

ghost use Rattle.std.specs.List.{list_any};
ghost use Rattle.std.specs.Prelude.{◌≡◌, ◌≤◌, ◌<◌, ◌+◌, ◌*◌, ◌%◌, ◌^◌, ◌++◌, length, take, slice_index_or};
ghost use Rattle.dspec_record.specs.{Layout.width, Layout.rounded_up, Layout.after, Layout.fields_start, Layout.layout, Layout.is_eight, Packing.number_of_words, Packing.BeginsWithWords};
ghost use Rattle.dspec_record.specs.{RecordText.little_endian};

use crate::enabling::MAX_WORDS;
use crate::{Field, Header, Shape};

/// How many numbers half a word holds.
pub(crate) const HALF: u64 = 1 << 32;

/// The shape of these fields after this header: each at the first multiple of its width after the field before it, and the size
/// rounded up to a multiple of 4.
#[inline(always)]
pub fn laid_shape(header: Header, fields: &[Field]) -> Shape
    requires { length fields.now ≤ 8 }
    ensures { result ≡ layout header fields.now }
{
    let mut end = header.fields_start();
    for field in fields {
        end = field.place(end) + field.width();
    }
    Shape {
        size: Field::Four.place(end) as u32,
        align: if has_eight(fields) { 8 } else { 4 },
    }
}

#[inline(always)]
fn has_eight(fields: &[Field]) -> bool
    ensures { result ≡ list_any is_eight fields.now }
{
    fields.iter().any(|field| matches!(field, Field::Eight))
}

/// Adds a value to words that hold nothing from `end` on, at the field's place after `end`; answers where the field ends.
#[inline(always)]
pub fn pack_after(field: Field, value: u64, end: usize, words: &mut [u64; MAX_WORDS]) -> usize
    requires holds { value < 256 ^ width field }
    requires near { rounded_up end 8 ≤ 64 }
    requires below { number_of_words words.old < 256 ^ end }
    ensures end { result ≡ after end (width field) (width field) }
    ensures added { number_of_words words.new ≡ number_of_words words.old + value * 256 ^ rounded_up end (width field) }
    ensures below { number_of_words words.new < 256 ^ result }
{
    let place = field.place(end);
    words[place / 8] += value << (place % 8 * 8) as u32;
    place + field.width()
}

/// Writes the text of a record over the first bytes: of fields that stand in these words, in which nothing else is. The EPID comes
/// into the zeros before them, or half of the stamp where the header has one.
#[inline(always)]
pub fn put_packed(header: Header, epid: u32, stamp: u64, words: &[u64], out: &mut [u8])
    requires some { 0 < length words.now }
    requires zeros { slice_index_or words.now 0 0 % 2 ^ 32 ≡ 0 }
    requires room { fields_start header + 8 * length words.now ≤ length out.old + 4 }
    ensures { BeginsWithWords header epid stamp words.now out.new }
{
    let low = u64::from(epid);
    // what comes into the zeros of the first word, and where that word stands
    let (low, at) = match header {
        Header::One => (low, 0),
        Header::Two => {
            put_word(low + stamp % HALF * HALF, 0, out);
            (stamp / HALF, 8)
        }
    };
    put_word(words[0] + low, at, out);
    for i in 1..words.len() {
        put_word(words[i], at + i * 8, out);
    }
}

/// Writes a word of eight bytes at `at`.
#[inline(always)]
pub(crate) fn put_word(word: u64, at: usize, out: &mut [u8])
    requires { at + 8 ≤ length out.old }
    ensures { take (at + 8) out.new ≡ take at out.old ++ little_endian 8 word }
{
    let bytes = word.to_le_bytes();
    // byte by byte these are one store; of slices the compiler would ask whether they overlap
    for i in 0..8 {
        out[at + i] = bytes[i];
    }
}
