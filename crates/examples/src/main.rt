//! `examples NAME ..` is one of six programs over the library. Each stands in a file and a folder of its name, and is read as a whole from
//! its `main` on; the words after the name are its own.
//!
//! | Name | What it is |
//! |---|---|
//! | `watch [--ctf FOLDER] [SEED]` | a server: four workers keep the paths of the requests that fail |
//! | `store [--ctf FOLDER]` | a store of accounts with stamps: the paths of aborted and slow transfers |
//! | `kv [--ctf FOLDER]` | a key-value store by the system's clock, and a sink that tells while it runs |
//! | `relay` | requests that go over two workers, and a reader that decides by their time |
//! | `jobs` | jobs, each of which has one path over three workers |
//! | `pool` | a session on threads that exist already, stopped by its sink |
//!
//! A name that is none of these, or none: a line on standard error, and status 4.
#![tactic(auto)]

mod fault;
mod jobs;
mod kv;
mod pool;
mod relay;
mod store;
mod watch;

use dspec_command::{CommandFault, ended, words_of};
use std::process::{ExitCode, Termination};
use std::sync::Wait;
use std::thread::Threads;

/// How the program is called.
const USAGE: &str = "examples watch|store|kv|relay|jobs|pool ..";

/// Runs the example that the first of these words names, with the words from that on.
fn run<R: Threads + Wait + Copy + Send + Sync + 'static>(
    rt: &HostRuntime,
    threads: R,
    words: &[String],
) -> ExitCode {
    let Some(name) = words.first() else {
        return ended(rt, "examples", Err(CommandFault::Usage(USAGE)));
    };
    match name.as_str() {
        "watch" => watch::main(rt, &threads, words),
        "store" => store::main(rt, &threads, words),
        "kv" => kv::main(rt, &threads, words).report(rt),
        "relay" => relay::main(rt, &threads).report(rt),
        "jobs" => jobs::main(rt, &threads).report(rt),
        "pool" => pool::main(rt, threads).report(rt),
        _ => ended(rt, "examples", Err(CommandFault::Usage(USAGE))),
    }
}

/// Runs an example by the words of the command line.
fn main(rt: HostRuntime) -> ExitCode {
    match words_of(&rt) {
        Ok(words) => run(&rt, rt, words.get(1..).unwrap_or(&[])),
        Err(fault) => ended(&rt, "examples", Err(fault)),
    }
}
