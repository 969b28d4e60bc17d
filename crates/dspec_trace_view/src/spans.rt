//! Spans of time, as they are written on a command line.

/// The units of spans, with their nanoseconds: one that ends in another stands before it.
const UNITS: [(&str, u64); 4] = [
    ("ns", 1),
    ("us", 1000),
    ("ms", 1_000_000),
    ("s", 1_000_000_000),
];

/// The nanoseconds of a span in whole units, as `5ms`; None where it isn't one, or too long.
pub fn span_of_words(text: &str) -> Option<u64> {
    for (unit, nanoseconds) in &UNITS {
        if let Some(digits) = text.strip_suffix(*unit) {
            return digits.parse::<u64>().ok()?.checked_mul(*nanoseconds);
        }
    }
    None
}
