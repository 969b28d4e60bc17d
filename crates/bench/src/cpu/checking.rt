//! How many records come out of each way as they should, the same on every machine.
use crate::cpu::asking::WayRun;
use crate::cpu::taking::{Size, take};
use crate::cpu::way::WAYS;
use dspec_samples::{Subject, UNSTAMPED};
use std::io;

/// How many records take each way.
const CHECK_RECORDS: u32 = 1_000;

/// Whether a subject's record has fields.
fn has_fields(subject: Subject) -> bool {
    matches!(subject, Subject::Enabled8 | Subject::Enabled24)
}

/// Takes every way of every subject once, in small buffers, and prints how many records came out of it so.
pub fn check_all(rt: &HostRuntime) -> io::Result<()> {
    for way in WAYS {
        for subject in UNSTAMPED {
            if way.is_typed() && !has_fields(subject) {
                continue;
            }
            let run = WayRun {
                way,
                subject,
                size: Size::Small,
                number: CHECK_RECORDS,
            };
            let count = take(rt.alloc(), run).unwrap_or(0);
            println!(rt; "cpu {} {}: {count}", way.name(), subject.name())?;
        }
    }
    Ok(())
}
