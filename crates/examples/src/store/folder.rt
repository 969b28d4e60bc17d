//! The session, with a trace that is written while the workers run, where a folder is named.

use crate::fault::{ExampleFault, in_folder};
use crate::store::serving::{Server, WORKERS};
use dspec::{Closed, Config, Probes, RecordSink, trace};
use dspec_ctf_sink::ClockStart;
use dspec_trace_reading::{FolderPlace, StampClock, trace_to_timed_folder};
use std::thread::Threads;
use std::time::SystemTime;

/// Stamps are in microseconds.
const HERTZ: u64 = 1_000_000;

/// The clock of the stamps. The workers make up their time, from 0 on, so it is placed at the system's time when the trace begins, where
/// the system tells that.
fn stamp_clock(rt: &HostRuntime) -> StampClock {
    let start = match SystemTime::now(rt) {
        Ok(now) => Some(ClockStart::at(now, HERTZ)),
        Err(_) => None,
    };
    StampClock {
        hertz: HERTZ,
        start,
    }
}

/// Makes all transfers, and gives what is left of the session, and what was kept, which is written to the folder of that path too, if one
/// is asked for.
pub fn serve<'a, R: Threads + Sync>(
    rt: &'a HostRuntime,
    threads: &R,
    path: Option<&'a str>,
    declared: &Probes<'_>,
    server: &Server,
) -> Result<(Closed, RecordSink), ExampleFault<'a>> {
    let kept = RecordSink::new(rt.alloc());
    let config = Config::of(WORKERS, 16, 16384, 512);
    let Some(path) = path else {
        let (mut sink, schema) = (kept, declared.enablings());
        let closed = trace(threads, rt.alloc(), &config, schema, server, &mut sink)?;
        return Ok((closed, sink));
    };
    let (name, clock) = ("store", stamp_clock(rt));
    let place = FolderPlace { path, name };
    let (kept, traced) = trace_to_timed_folder(
        rt, threads, &config, declared, place, clock, server, kept,
    );
    Ok((in_folder(path, traced)?, kept))
}
