//! `examples store [--ctf FOLDER]` is a store of accounts in miniature. Three workers, each on a lane of its own, make transfers between
//! their accounts; the steps of each are recorded speculatively, with stamps, and kept of those transfers alone that are aborted or slow.
//! At the end their paths are printed in order of time, and the board of all balances. With `--ctf` what is kept is written to a folder
//! too, as a trace by time, while the workers run.
//!
//! The stamps are of a clock that each worker counts for itself, so that the same is printed however the threads run; the trace says that
//! it began at the system's time. Its status is 0; 2 for want of memory, 3 for a fault of input or output, and 4 for words that it
//! doesn't know.
//!
//! | File | What is in it |
//! |---|---|
//! | `store/arguments.rt`, `fault.rt` | what the words ask; statuses |

mod arguments;
mod board;
mod folder;
mod probes;
mod serving;
mod telling;

use crate::fault::ExampleFault;
use crate::store::arguments::asked;
use crate::store::board::Board;
use crate::store::folder::serve;
use crate::store::probes::StoreProbes;
use crate::store::serving::Server;
use crate::store::telling::{tell_paths, tell_report};
use dspec::{Closed, Probes, Rec, closed_cpus};
use dspec_command::{ParsedCommand, ended, output_fault, print_text};
use std::io;
use std::process::ExitCode;
use std::thread::Threads;

/// Prints the paths of the records, which are in order of time, the board, and what the CPUs report.
fn tell_all<R: Print>(
    rt: &R,
    declared: &Probes<'_>,
    records: &[Rec],
    server: &Server,
    closed: &Closed,
) -> io::Result<()> {
    tell_paths(rt, declared, &server.probes, records)?;
    server.board.tell(rt)?;
    for cpu in closed_cpus(closed) {
        tell_report(rt, cpu.number, cpu.report)?;
    }
    Ok(())
}

/// Makes the transfers, with a trace where a folder is named, and tells what was kept.
fn transfers<'a, R: Threads + Sync>(
    rt: &'a HostRuntime,
    threads: &R,
    name: Option<&'a str>,
) -> Result<(), ExampleFault<'a>> {
    let mut declared = Probes::new(rt.alloc());
    let server = Server {
        board: Board::new(),
        probes: StoreProbes::declare(&mut declared)?,
    };
    let (closed, kept) = serve(rt, threads, name, &declared, &server)?;
    let mut records = kept.records()?;
    records.sort_by_key(|rec: &Rec| rec.stamp())?;
    match tell_all(rt, &declared, &records, &server, &closed) {
        Ok(()) => Ok(()),
        Err(reason) => Err(ExampleFault::Command(output_fault(reason))),
    }
}

/// Makes the transfers, or prints the text that is asked for.
fn run<'a, R: Threads + Sync>(
    rt: &'a HostRuntime,
    threads: &R,
    words: &'a [String],
) -> Result<bool, ExampleFault<'a>> {
    match asked(rt.alloc(), words)? {
        ParsedCommand::Found(found) => transfers(rt, threads, found.get_str("ctf"))?,
        ParsedCommand::Text(text) => print_text(rt, text.as_str())?,
    }
    Ok(true)
}

/// Makes the transfers by these words, the first of which is the program's name.
pub fn main<R: Threads + Sync>(rt: &HostRuntime, threads: &R, words: &[String]) -> ExitCode {
    ended(rt, "store", run(rt, threads, words))
}
