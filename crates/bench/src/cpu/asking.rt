//! What the arguments ask.
use crate::cpu::taking::Size;
use crate::cpu::way::{WAYS, Way};
use dspec_samples::{Subject, UNSTAMPED};

/// The most records that one run takes: so many of 24 bytes have room in a small buffer.
const MOST_RECORDS: u32 = 20_000;

/// One way, which so many records take in buffers of a size.
#[derive(Debug, Clone, Copy, PartialEq, Eq)]
pub struct WayRun {
    pub way: Way,
    pub subject: Subject,
    pub size: Size,
    pub number: u32,
}

/// The run that four words ask for; None where they ask for nothing that the program does.
pub fn run_of(way: &str, subject: &str, size: &str, number: &str) -> Option<WayRun> {
    Some(WayRun {
        way: WAYS.iter().find(|known| known.name() == way).copied()?,
        subject: UNSTAMPED
            .iter()
            .find(|known| known.name() == subject)
            .copied()?,
        size: size_of(size)?,
        number: count_of(number)?,
    })
}

fn size_of(word: &str) -> Option<Size> {
    match word {
        "small" => Some(Size::Small),
        "large" => Some(Size::Large),
        _ => None,
    }
}

fn count_of(word: &str) -> Option<u32> {
    word.parse::<u32>()
        .ok()
        .filter(|count| *count <= MOST_RECORDS)
}
