//! What becomes of the records on each way, the same on every machine.

use crate::push::ready::Ready;
use crate::push::way::WAYS;
use dspec_samples::SUBJECTS;
use std::io;

/// How many records take each way.
const CHECK_RECORDS: u32 = 1_000;

/// Takes every way of every subject once, and prints what each came to.
pub fn check_all(rt: &HostRuntime) -> io::Result<()> {
    for way in WAYS {
        for subject in SUBJECTS {
            let mut ready = Ready::make(rt.alloc(), subject)?;
            ready.prepare(way, CHECK_RECORDS);
            let taken = ready.take(way, CHECK_RECORDS);
            println!(rt;
                "push {} {}: records {}, bytes {}, sum {}",
                way.name(),
                subject.name(),
                taken.count,
                taken.offset,
                taken.sum
            )?;
        }
    }
    Ok(())
}
