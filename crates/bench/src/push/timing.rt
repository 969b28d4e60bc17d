//! Times of the ways, in nanoseconds a record.

use crate::push::asking::MOST_RECORDS;
use crate::push::ready::Ready;
use crate::push::way::{WAYS, Way};
use dspec_samples::{SUBJECTS, Subject};
use std::alloc::Global;
use std::io;
use std::time::Instant;

/// The least and the median time of some rounds, in tenths of a nanosecond a record.
#[derive(Debug, Clone, Copy)]
struct Spread {
    least: u64,
    median: u64,
}

/// Times every way of every subject in so many rounds, and prints the table.
pub fn time_all(rt: &HostRuntime, rounds: u32) -> io::Result<()> {
    println!(rt; "nanoseconds a record, in {rounds} rounds of {MOST_RECORDS} records")?;
    println!(rt; "way      record      least  median")?;
    for way in WAYS {
        for subject in SUBJECTS {
            let spread = time(rt, way, subject, rounds)?;
            println!(rt;
                "{:8} {:10} {:>6} {:>7}",
                way.name(),
                subject.name(),
                tenths(rt.alloc(), spread.least)?,
                tenths(rt.alloc(), spread.median)?
            )?;
        }
    }
    Ok(())
}

fn time(rt: &HostRuntime, way: Way, subject: Subject, rounds: u32) -> io::Result<Spread> {
    let mut ready = Ready::make(rt.alloc(), subject)?;
    let mut times = Vec::new(rt.alloc());
    for _ in 0..rounds {
        ready.prepare(way, MOST_RECORDS);
        let start = Instant::now(rt)?;
        let _ = ready.take(way, MOST_RECORDS);
        let tenths = start.elapsed(rt)?.as_nanos() / u128::from(MOST_RECORDS / 10);
        times.push(u64::try_from(tenths).unwrap_or(u64::MAX))?;
    }
    times.sort_unstable();
    let middle = times.len() / 2;
    Ok(Spread {
        least: times.first().copied().unwrap_or(0),
        median: times.get(middle).copied().unwrap_or(0),
    })
}

/// A number of tenths with one digit after the point.
fn tenths(alloc: Global, number: u64) -> io::Result<String> {
    Ok(format!(in alloc; "{}.{}", number / 10, number % 10)?)
}
