ghost use Rattle.std.specs.{List.list_all, Prelude.◌≡◌, Prelude.false, Prelude.map, Prelude.IfOk, Prelude.IfSome, Prelude.MatchOption, Prelude.true};
ghost use Rattle.dspec_schedule.specs.LineWords.{is_printable, pieces_of, words_of_line};

use std::alloc::{AllocError, Global};

/// Whether the line has no byte but spaces and graphic characters of ASCII.
fn has_printable_bytes(line: &[u8]) -> bool
    ensures { result ≡ list_all is_printable line.now }
{
    line.iter().all(|byte| (b' '..=b'~').contains(byte))
}

/// The line as text; None where it isn't printable.
pub fn printable_text(line: &[u8]) -> Option<&str>
    ensures told { MatchOption result (list_all is_printable line.now ≡ false) (λ _. list_all is_printable line.now ≡ true) }
    ensures same { IfSome result (λ text. text.now ≡ line.now) }
{
    if has_printable_bytes(line) {
        str::from_utf8(line).ok()
    } else {
        None
    }
}

/// What stands between the spaces of a line.
fn pieces<'a>(alloc: Global, line: &'a str) -> Result<Vec<&'a str>, AllocError>
    ensures { IfOk result (λ found. map (λ word. word.now) found.items ≡ pieces_of line.now) }
{
    line.split(' ')
        .filter(|word| !word.is_empty())
        .collect(alloc)
}

/// The words of a line, which one or more spaces separate; none for a comment, whose first byte is `#`.
pub fn words<'a>(alloc: Global, line: &'a str) -> Result<Vec<&'a str>, AllocError>
    ensures { IfOk result (λ found. map (λ word. word.now) found.items ≡ words_of_line line.now) }
{
    if line.starts_with('#') {
        Ok(Vec::new(alloc))
    } else {
        pieces(alloc, line)
    }
}
