//! What a CPU's calls cost: a record that is traced and kept or dropped, one of a speculation of twenty that is opened, kept and
//! committed, and a service of 32 slots with nothing to do. Stands on `dspec_cpu`.
mod asking;
mod checking;
mod lane;
mod probed;
mod starting;
mod taking;
mod way;

use asking::run_of;
pub use checking::check_all;
use std::io;
use taking::take;

/// Takes the way that the words ask for; false where they ask for none.
pub fn run(rt: &HostRuntime, words: &[String]) -> io::Result<bool> {
    let asked = match words {
        [way, subject, size, number] => run_of(
            way.as_str(),
            subject.as_str(),
            size.as_str(),
            number.as_str(),
        ),
        _ => None,
    };
    let Some(run) = asked else {
        return Ok(false);
    };
    let _ = take(rt.alloc(), run);
    Ok(true)
}
