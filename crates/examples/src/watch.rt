//! `examples watch [--ctf FOLDER] [SEED]` is a request server in miniature, which shows what speculations are for. Four workers, each on
//! a lane of its own, handle made-up requests; the steps of each are recorded speculatively, and kept of those requests alone that fail.
//! A fifth thread drains what was kept. At the end the path of each failed request is printed, and what was recorded is compared with
//! what the generator knows: a failed request's path is there whole, or its steps are counted as lost, and of a request that succeeded no
//! step is there. With `--ctf` what is kept is written to a folder too, as it is taken, while the workers run.
//!
//! That what was recorded is what the generator made isn't promised: the program compares it, and ends with status 1 where it isn't. With
//! 2 it ends for want of memory, with 3 for a fault of input or output, and with 4 for words that it doesn't know.
//!
//! | File | What is in it |
//! |---|---|
//! | `watch/arguments.rt`, `fault.rt` | what the words ask; statuses |

mod arguments;
mod paths;
mod probes;
mod requests;
mod serving;

use crate::fault::{ExampleFault, in_folder};
use crate::watch::arguments::{WatchAsk, WatchTask, ask_of};
use crate::watch::paths::{compare, tell};
use crate::watch::probes::ServerProbes;
use crate::watch::requests::WORKERS;
use crate::watch::serving::Server;
use dspec::{Closed, Config, Probes, RecordSink, closed_cpus, trace};
use dspec_command::{ended, output_fault, print_text};
use dspec_trace_reading::{FolderPlace, trace_to_folder};
use std::process::ExitCode;
use std::thread::Threads;

/// Serves all requests, and gives what is left of the session, and what was kept, which is written to the folder of that path too, if one is asked for.
fn serve<'a, R: Threads + Sync>(
    rt: &'a HostRuntime,
    threads: &R,
    declared: &Probes<'_>,
    path: Option<&'a str>,
    server: &Server,
) -> Result<(Closed, RecordSink), ExampleFault<'a>> {
    let config = Config::of(WORKERS, 16, 8192, 128);
    let mut kept = RecordSink::new(rt.alloc());
    let Some(path) = path else {
        let schema = declared.enablings();
        let closed = trace(threads, rt.alloc(), &config, schema, server, &mut kept)?;
        return Ok((closed, kept));
    };
    let name = "watch";
    let place = FolderPlace { path, name };
    let (kept, traced) = trace_to_folder(rt, threads, &config, declared, place, server, kept);
    Ok((in_folder(path, traced)?, kept))
}

/// Handles the requests of a seed, tells those that failed, and compares what was recorded of them.
fn watch<'a, R: Threads + Sync>(
    rt: &'a HostRuntime,
    threads: &R,
    ask: WatchAsk<'a>,
) -> Result<(), ExampleFault<'a>> {
    let seed = ask.seed;
    let mut declared = Probes::unstamped(rt.alloc());
    let probes = ServerProbes::declare(&mut declared)?;
    let server = Server { seed, probes };
    let (closed, kept) = serve(rt, threads, &declared, ask.folder, &server)?;
    let seen = kept.records()?;
    for cpu in closed_cpus(&closed) {
        if let Err(reason) = tell(rt, &server, cpu.number, seen.as_slice(), cpu.report) {
            return Err(ExampleFault::Command(output_fault(reason)));
        }
        compare(&server, cpu.number, seen.as_slice(), cpu.report)?;
    }
    Ok(())
}

/// Watches requests, or prints the text that is asked for.
fn run<'a, R: Threads + Sync>(
    rt: &'a HostRuntime,
    threads: &R,
    words: &'a [String],
) -> Result<bool, ExampleFault<'a>> {
    match ask_of(rt.alloc(), words)? {
        WatchTask::Watch(ask) => watch(rt, threads, ask)?,
        WatchTask::Text(text) => print_text(rt, text.as_str())?,
    }
    Ok(true)
}

/// Watches by these words, the first of which is the program's name.
pub fn main<R: Threads + Sync>(rt: &HostRuntime, threads: &R, words: &[String]) -> ExitCode {
    ended(rt, "watch", run(rt, threads, words))
}
