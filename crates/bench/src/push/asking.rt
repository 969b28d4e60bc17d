//! What the arguments ask.

use crate::push::way::{WAYS, Way};
use dspec_samples::{SUBJECTS, Subject};

/// The most records that one run takes: the largest buffer has room for so many of 24 bytes.
pub const MOST_RECORDS: u32 = 40_000;

/// The most rounds in which all ways are timed.
const MOST_ROUNDS: u32 = 10_000;

#[derive(Debug, Clone, Copy, PartialEq, Eq)]
pub enum PushTask {
    /// To time each way in so many rounds.
    Times(u32),
    /// To take one way by so many records.
    Count {
        way: Way,
        subject: Subject,
        number: u32,
    },
}

/// What the words after `push` ask; None where it is nothing that is done here.
pub fn ask_of(words: &[String]) -> Option<PushTask> {
    match words {
        [word, rounds] if word.as_str() == "times" => {
            Some(PushTask::Times(number_of(rounds.as_str(), MOST_ROUNDS)?))
        }
        [word, way, subject, number] if word.as_str() == "count" => Some(PushTask::Count {
            way: way_of(way.as_str())?,
            subject: subject_of(subject.as_str())?,
            number: number_of(number.as_str(), MOST_RECORDS)?,
        }),
        _ => None,
    }
}

/// A number from 1 to the most that there may be.
pub fn number_of(word: &str, most: u32) -> Option<u32> {
    match word.parse::<u32>() {
        Ok(number) if number > 0 && number <= most => Some(number),
        _ => None,
    }
}

fn way_of(word: &str) -> Option<Way> {
    for way in WAYS {
        if way.name() == word {
            return Some(way);
        }
    }
    None
}

fn subject_of(word: &str) -> Option<Subject> {
    for subject in SUBJECTS {
        if subject.name() == word {
            return Some(subject);
        }
    }
    None
}
