//! Numbers in the bytes of an event.

ghost use Rattle.std.specs.{Option.option_map, Prelude.◌≡◌, Prelude.◌≤◌, Prelude.◌<◌, Prelude.length, Prelude.IfSome};
ghost use Rattle.dspec_record.specs.Layout.{width as bytes_of};
ghost use Rattle.dspec_ctf_reading.specs.Reading.{read_number, read_stamp};

use dspec_record::Field;

/// A number of one byte, and the bytes after it.
fn one(bytes: &[u8]) -> Option<(u8, &[u8])>
    ensures read { option_map (λ p. (p.0, p.1.now)) result ≡ read_number 1 bytes.now }
    ensures shorter { IfSome result (λ p. length p.1.now < length bytes.now) }
{
    let (chunk, rest) = bytes.split_first_chunk::<1>()?;
    Some((chunk[0], rest))
}

/// A number of two bytes, and those after it.
fn two(bytes: &[u8]) -> Option<(u16, &[u8])>
    ensures read { option_map (λ p. (p.0, p.1.now)) result ≡ read_number 2 bytes.now }
    ensures shorter { IfSome result (λ p. length p.1.now < length bytes.now) }
{
    let (chunk, rest) = bytes.split_first_chunk::<2>()?;
    Some((u16::from_le_bytes(*chunk), rest))
}

/// A number of four bytes, and those after it.
pub(crate) fn four(bytes: &[u8]) -> Option<(u32, &[u8])>
    ensures read { option_map (λ p. (p.0, p.1.now)) result ≡ read_number 4 bytes.now }
    ensures shorter { IfSome result (λ p. length p.1.now < length bytes.now) }
{
    let (chunk, rest) = bytes.split_first_chunk::<4>()?;
    Some((u32::from_le_bytes(*chunk), rest))
}

/// A number of eight bytes, and those after it.
fn eight(bytes: &[u8]) -> Option<(u64, &[u8])>
    ensures read { option_map (λ p. (p.0, p.1.now)) result ≡ read_number 8 bytes.now }
    ensures shorter { IfSome result (λ p. length p.1.now < length bytes.now) }
{
    let (chunk, rest) = bytes.split_first_chunk::<8>()?;
    Some((u64::from_le_bytes(*chunk), rest))
}

/// A number of the field's width, and the bytes after it.
pub(crate) fn number(width: Field, bytes: &[u8]) -> Option<(u64, &[u8])>
    ensures read { option_map (λ p. (p.0, p.1.now)) result ≡ read_number (bytes_of width) bytes.now }
    ensures shorter { IfSome result (λ p. length p.1.now < length bytes.now) }
{
    match width {
        Field::One => {
            let (number, rest) = one(bytes)?;
            Some((u64::from(number), rest))
        }
        Field::Two => {
            let (number, rest) = two(bytes)?;
            Some((u64::from(number), rest))
        }
        Field::Four => {
            let (number, rest) = four(bytes)?;
            Some((u64::from(number), rest))
        }
        Field::Eight => eight(bytes),
    }
}

/// A stamp, where there is a clock, and the bytes after it.
pub(crate) fn stamp(timed: bool, bytes: &[u8]) -> Option<(Option<u64>, &[u8])>
    ensures read { option_map (λ p. (p.0, p.1.now)) result ≡ read_stamp timed bytes.now }
    ensures within { IfSome result (λ p. length p.1.now ≤ length bytes.now) }
{
    if !timed {
        return Some((None, bytes));
    }
    let (stamp, rest) = eight(bytes)?;
    Some((Some(stamp), rest))
}
