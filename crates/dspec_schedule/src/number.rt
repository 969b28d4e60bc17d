ghost use Rattle.std.specs.Prelude.{◌≡◌, ◌↔◌, IsTrue, slice_index, is_ok, map};
ghost use Rattle.dspec_schedule.specs.LineWords.{numbers_of, small_number_of, wide_number_of};

use crate::fault::LineKind;

/// Whether a word begins with a plus, which `parse` would take as part of a number.
fn has_plus(word: &str) -> bool
    ensures { IsTrue result ↔ (slice_index word.now 0 ≡ 43) }
{
    word.starts_with('+')
}

/// The number that a word of decimal digits alone stands for, up to 64 bits.
pub fn number(word: &str) -> Result<u64, LineKind>
    ensures { result ≡ wide_number_of word.now }
{
    if has_plus(word) {
        return Err(LineKind::BadNumber);
    }
    word.parse::<u64>().map_err(|_| LineKind::BadNumber)
}

/// The same up to 32 bits, which a CPU, a probe identifier and the sizes of a configuration have.
pub fn small_number(word: &str) -> Result<u32, LineKind>
    ensures { result ≡ small_number_of word.now }
{
    if has_plus(word) {
        return Err(LineKind::BadNumber);
    }
    word.parse::<u32>().map_err(|_| LineKind::BadNumber)
}

/// Whether all words are numbers of 64 bits.
pub fn are_numbers(words: &[&str]) -> bool
    ensures { result ≡ is_ok (numbers_of (map (λ word. word.now) words.now)) }
{
    for word in words {
        if number(word).is_err() {
            return false;
        }
    }
    true
}
