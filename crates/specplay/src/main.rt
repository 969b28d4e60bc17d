//! `specplay` reads a schedule of calls from standard input, plays it, and prints the answers, the reports and the
//! streams; its exit status and one line of standard error tell why it did not. `specplay threads` runs a session of four CPUs
//! in threads instead, and prints a line for each.
//!
//! It promises, for any reader and any writer (`runner::run`), that nothing is written before the whole play has
//! succeeded, and that an input over the limit never succeeds (specs/Runs.antt). What is written is the print of the
//! play of the schedule that the input's bytes say, and a line that is told is the first one at which they say none, or
//! the one whose turn the play refuses (specs/Schedules.antt). Stands on `dspec_replay`, which reads the input and plays the
//! schedule, and on `dspec_schedule`, which prints.
//!
//! | File | What is in it |
//! |---|---|
//! | `runner.rt`, `fault.rt`, `threads.rt` | `run`: what is written; why a run failed; the demonstration's lines |
//! | `specs/`: Schedules, Runs, Written, Threads, Lines | what a run prints, or tells; how far a text was written; what is printed of the demonstration, as a function of the answers |
#![tactic(auto)]

mod fault;
mod runner;
mod threads;

use fault::{RunFault, USAGE, USAGE_STATUS};
use runner::run;
use std::fmt::Display;
use std::process::ExitCode;
use std::{env, io};
use threads::run_threads;

/// Tells of a fault, and gives its exit status.
fn told<F: Display + Drop>(rt: &HostRuntime, fault: F, status: u8) -> ExitCode {
    let _ = eprintln!(rt; "specplay: {fault}");
    ExitCode::from(status)
}

/// Without arguments plays a schedule, with the one argument `threads` runs the demonstration. An argument that is no text asks
/// for nothing.
fn main(rt: HostRuntime) -> ExitCode {
    let mut words = match env::args(&rt) {
        Ok(words) => words,
        Err(error) if error.kind() == io::ErrorKind::OutOfMemory => {
            return told(&rt, RunFault::Memory, RunFault::Memory.status());
        }
        Err(_) => return told(&rt, USAGE, USAGE_STATUS),
    };
    let _program = words.next();
    let Some(word) = words.next() else {
        return match run(rt.alloc(), &mut rt.stdin(), &mut rt.stdout()) {
            Ok(()) => ExitCode::SUCCESS,
            Err(fault) => told(&rt, fault, fault.status()),
        };
    };
    if words.next().is_some() || word.as_str() != "threads" {
        return told(&rt, USAGE, USAGE_STATUS);
    }
    match run_threads(&rt, rt.alloc(), &mut rt.stdout()) {
        Ok(()) => ExitCode::SUCCESS,
        Err(fault) => told(&rt, fault, fault.status()),
    }
}
