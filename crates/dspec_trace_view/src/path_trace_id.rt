//! The numbers that a path has among those of other programs: of its trace, its own, and that of the span that called it.

use std::alloc::{AllocError, Global};

/// Of which trace a path is, and which span called it, in digits of base 16.
#[derive(Debug, Clone, Copy, PartialEq, Eq)]
pub(crate) struct CallerText<'t> {
    /// The trace: 32 digits.
    pub trace: &'t str,
    /// The span: 16 digits.
    pub span: &'t str,
}

/// Whether a text is so many digits of base 16, in small letters, and not all of them 0.
fn is_number_of(text: &str, digits: usize) -> bool {
    let bytes = text.as_bytes();
    bytes.len() == digits
        && bytes.iter().all(|byte| byte.is_ascii_digit() || (*byte >= b'a' && *byte <= b'f'))
        && bytes.iter().any(|byte| *byte != b'0')
}

/// What a text in the form of W3C's header `traceparent` tells, as `00-TRACE-SPAN-01`; None where it isn't one.
pub(crate) fn caller_in(text: &str) -> Option<CallerText<'_>> {
    let (_, rest) = text.split_once('-')?;
    let (trace, rest) = rest.split_once('-')?;
    let (span, _) = rest.split_once('-')?;
    if is_number_of(trace, 32) && is_number_of(span, 16) {
        return Some(CallerText { trace, span });
    }
    None
}

/// A number that tells nothing of the one that it is made of; of two numbers never the same.
pub(crate) fn mixed(number: u64) -> u64 {
    let mut one = number.wrapping_add(0x9E37_79B9_7F4A_7C15);
    one = (one ^ (one >> 30)).wrapping_mul(0xBF58_476D_1CE4_E5B9);
    one = (one ^ (one >> 27)).wrapping_mul(0x94D0_49BB_1331_11EB);
    one ^ (one >> 31)
}

/// The number of a run, by its trace's uuid.
pub(crate) fn run_number(uuid: &[u8; 16]) -> u64 {
    let mut number = 0u64;
    for byte in uuid {
        number = mixed(number ^ u64::from(*byte));
    }
    number
}

/// The number of a path's span: of the run and of its own number, never 0.
pub(crate) fn span_number(run: u64, path: u64) -> u64 {
    mixed(run ^ path).max(1)
}

/// The number of a trace that is made of the run and of the path's number, in 32 digits.
pub(crate) fn made_trace(alloc: Global, run: u64, path: u64) -> Result<String, AllocError> {
    let (run, own) = (run.max(1), span_number(run, path));
    format!(in alloc; "{run:016x}{own:016x}")
}
