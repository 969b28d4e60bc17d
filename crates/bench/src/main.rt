//! `bench` says what a record costs: on its way into a buffer and out of it, and through a CPU's calls; and what a trace's load of
//! activity costs.
//!
//! Without an argument it takes each way once, for every record that it knows, and prints what came of it, the same on every machine.
//!
//! - `bench push times ROUNDS` times the ways into and out of a buffer, and prints a table of nanoseconds a record; `bench push count
//!   WAY RECORD NUMBER` takes one of these ways by so many records.
//! - `bench cpu WAY RECORD SIZE NUMBER` takes one way through a CPU by so many records, in small or in large buffers.
//! - `bench loads NUMBER` makes so many loads of activity, and prints how many showed that the session runs; `bench loads times` times
//!   them, alone and beside another thread's exchanges on a slot's word.
//! - `bench together CPUS NUMBER` has so many CPUs at once make so many speculations of twenty records each, and prints what a record took;
//!   `bench apart CPUS NUMBER` does so without a consumer beside them.
//!
//! A tool that counts instructions runs a way twice: the difference of both counts is what the further records cost. Nothing is
//! promised of times.
//!
//! | File | What is in it |
//! |---|---|
//! | `push/`, `cpu/`, `loads/` | records into a buffer and out of it; a trace kept, dropped, a speculation committed, an idle service; loads of activity beside another thread. Each way is one loop round one call that stays a call |
//! | `instructions` | the script over callgrind; the same records by others |
#![tactic(auto)]

mod cpu;
mod loads;
mod push;
mod together;

use std::process::ExitCode;
use std::sync::Wait;
use std::thread::Threads;
use std::{env, io};

/// The exit status where the arguments ask nothing that the program does.
const USAGE_STATUS: u8 = 2;

/// Takes every way once, and prints what came of it.
fn check_all<R: Threads + Wait + Sync>(threads: &R, rt: &HostRuntime) -> io::Result<()> {
    push::check_all(rt)?;
    cpu::check_all(rt)?;
    loads::check(threads, rt)?;
    together::check(threads, rt)
}

/// What the words after the program's name ask for, if it's something that the program does.
fn run<R: Threads + Wait + Sync>(
    threads: &R,
    rt: &HostRuntime,
    words: &[String],
) -> io::Result<bool> {
    let Some((first, rest)) = words.split_first() else {
        check_all(threads, rt)?;
        return Ok(true);
    };
    match first.as_str() {
        "push" => push::run(rt, rest),
        "cpu" => cpu::run(rt, rest),
        "loads" => loads::run(threads, rt, rest),
        "together" => together::run(threads, rt, rest),
        "apart" => together::run_apart(threads, rt, rest),
        _ => Ok(false),
    }
}

fn main(rt: HostRuntime) -> io::Result<ExitCode> {
    let mut words = Vec::new(rt.alloc());
    for word in env::args(&rt)?.skip(1) {
        words.push(word)?;
    }
    if run(&rt, &rt, words.as_slice())? {
        return Ok(ExitCode::SUCCESS);
    }
    eprintln!(rt;
        "bench: usage: bench [push times ROUNDS | push count WAY RECORD NUMBER | cpu WAY RECORD SIZE NUMBER | loads NUMBER | loads times | together CPUS NUMBER | apart CPUS NUMBER]"
    )?;
    Ok(ExitCode::from(USAGE_STATUS))
}
