//! The parts of a text: fixed texts, words, texts in quotes and numbers.

ghost use Rattle.std.specs.Option.{option_map};
ghost use Rattle.std.specs.Prelude.{◌≡◌, ◌↔◌, ◌≤◌, ◌<◌, ◌^◌, ◌+◌, ◌*◌, ◌-◌, ℕ, true, false, length, take, drop, Option, IsTrue, MatchOption};
ghost use Rattle.dspec_ctf_reading.specs.Parts.{Gives, test_of};
ghost use Rattle.dspec_ctf_reading.specs.ReadingMetadata.{digits_number, read_decimal, read_quoted, read_run, read_word, rest_past, run_of};

use crate::fault::{Expected, ReadStop};

/// What is after this text, where the bytes begin with it.
pub(crate) fn after<'t>(bytes: &'t [u8], text: &str) -> Option<&'t [u8]>
    ensures { option_map (λ rest. rest.now) result ≡ rest_past text.now bytes.now }
{
    bytes.strip_prefix(text.as_bytes())
}

/// How many bytes are left from the first on that is another than the text's.
fn left_from(bytes: &[u8], text: &str) -> usize {
    for (place, (byte, wanted)) in bytes.iter().zip(text.as_bytes()).enumerate() {
        if *byte != *wanted {
            return bytes.len() - place;
        }
    }
    bytes.len().saturating_sub(text.len())
}

/// What is after this text, with which the bytes have to begin.
pub(crate) fn past<'t>(
    bytes: &'t [u8],
    text: &'static str,
    expected: Expected,
) -> Result<&'t [u8], ReadStop>
    ensures { Gives result (λ rest. rest.now) (rest_past text.now bytes.now) }
{
    match after(bytes, text) {
        Some(rest) => Ok(rest),
        None => Err(ReadStop::Unread {
            left: left_from(bytes, text),
            expected,
        }),
    }
}

/// What is after a short text, with which the bytes have to begin.
pub(crate) fn past_text<'t>(bytes: &'t [u8], text: &'static str) -> Result<&'t [u8], ReadStop>
    ensures { Gives result (λ rest. rest.now) (rest_past text.now bytes.now) }
{
    past(bytes, text, Expected::Text(text))
}

/// A set of bytes that texts are made of.
#[derive(Debug, Clone, Copy)]
pub(crate) enum Set {
    /// Decimal digits.
    Digits,
    /// English letters, digits and underscores.
    Word,
    /// Printable ASCII without quotes and backslashes.
    Quoted,
}

impl Set {
    /// Whether the byte is of the set.
    #[tactic(auto, unfolding(crate::specs::ReadingMetadata::is_digit, crate::specs::ReadingMetadata::is_word, crate::specs::ReadingMetadata::is_quoted))]
    fn has(self, byte: u8) -> bool
        ensures { result ≡ test_of self byte }
    {
        match self {
            Set::Digits => byte.is_ascii_digit(),
            Set::Word => byte.is_ascii_alphanumeric() || byte == b'_',
            Set::Quoted => (b' '..=b'~').contains(&byte) && byte != b'"' && byte != b'\\',
        }
    }
}

/// How many bytes of the set the bytes begin with.
fn run_len(set: Set, bytes: &[u8]) -> usize
    ensures parts { run_of (test_of set) bytes.now ≡ (take result bytes.now, drop result bytes.now) }
    ensures within { result ≤ length bytes.now }
{
    for (place, byte) in bytes.iter().enumerate() {
        if !set.has(*byte) {
            return place;
        }
    }
    bytes.len()
}

/// The bytes of the set with which the bytes begin, one or more, as text, and those after them.
pub(crate) fn run<'t>(set: Set, bytes: &'t [u8]) -> Option<(&'t str, &'t [u8])>
    ensures { option_map (λ p. (p.0.now, p.1.now)) result ≡ read_run (test_of set) bytes.now }
{
    let count = run_len(set, bytes);
    if count == 0 {
        return None;
    }
    let (front, rest) = bytes.split_at(count);
    let Ok(text) = str::from_utf8(front) else {
        return None;
    };
    Some((text, rest))
}

/// A word, and the bytes after it.
pub(crate) fn word(bytes: &[u8]) -> Result<(&str, &[u8]), ReadStop>
    ensures { Gives result (λ p. (p.0.now, p.1.now)) (read_word bytes.now) }
{
    match run(Set::Word, bytes) {
        Some(part) => Ok(part),
        None => Err(ReadStop::Unread {
            left: bytes.len(),
            expected: Expected::Name,
        }),
    }
}

/// A text that stands in quotes, after the first of them, and the bytes after it.
pub(crate) fn quoted(bytes: &[u8]) -> Result<(&str, &[u8]), ReadStop>
    ensures { Gives result (λ p. (p.0.now, p.1.now)) (read_quoted bytes.now) }
{
    match run(Set::Quoted, bytes) {
        Some(part) => Ok(part),
        None => Err(ReadStop::Unread {
            left: bytes.len(),
            expected: Expected::Quoted,
        }),
    }
}

/// The number with a digit more; None where it has more than 64 bits.
fn with_digit(number: u64, digit: u8) -> Option<u64>
    ensures { MatchOption result (2 ^ 64 ≤ 10 * number + (digit - 48)) (λ n. n ≡ 10 * number + (digit - 48)) }
{
    number
        .checked_mul(10)?
        .checked_add(u64::from(digit.saturating_sub(b'0')))
}

/// The number that digits make; None where it has more than 64 bits.
fn number_of(digits: &[u8]) -> Option<u64>
    ensures { MatchOption result (2 ^ 64 ≤ digits_number 0 digits.now) (λ n. n ≡ digits_number 0 digits.now) }
{
    let mut number = 0u64;
    for digit in digits {
        let Some(next) = with_digit(number, *digit) else {
            return None;
        };
        number = next;
    }
    Some(number)
}

/// A number by its digits, and the bytes after it.
pub(crate) fn decimal(bytes: &[u8]) -> Result<(u64, &[u8]), ReadStop>
    ensures { Gives result (λ p. (p.0, p.1.now)) (read_decimal bytes.now) }
{
    let left = bytes.len();
    let Some((digits, rest)) = run(Set::Digits, bytes) else {
        return Err(ReadStop::Unread {
            left,
            expected: Expected::Number,
        });
    };
    match number_of(digits.as_bytes()) {
        Some(number) => Ok((number, rest)),
        None => Err(ReadStop::TooLarge { left }),
    }
}
