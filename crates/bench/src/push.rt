//! What one record costs on its way into a buffer and out of it. Stands on `dspec_record` and `dspec_buffer`.
mod asking;
mod checking;
mod ready;
mod setup;
mod timing;
mod way;

pub use asking::number_of;
use asking::{MOST_RECORDS, PushTask, ask_of};
pub use checking::check_all;
use dspec_samples::Subject;
use ready::Ready;
use std::io;
use way::Way;

/// Takes one way by so many records. What is prepared doesn't depend on their number.
fn take_once(rt: &HostRuntime, way: Way, subject: Subject, number: u32) -> io::Result<()> {
    let mut ready = Ready::make(rt.alloc(), subject)?;
    ready.prepare(way, MOST_RECORDS);
    let _ = ready.take(way, number);
    Ok(())
}

/// Does what the words ask for; false where it is nothing that is done here.
pub fn run(rt: &HostRuntime, words: &[String]) -> io::Result<bool> {
    match ask_of(words) {
        Some(PushTask::Times(rounds)) => timing::time_all(rt, rounds)?,
        Some(
            PushTask::Count {
                way,
                subject,
                number,
            },
        ) => take_once(rt, way, subject, number)?,
        None => return Ok(false),
    }
    Ok(true)
}
