//! Random calls on running threads, for one seed after the other.

use crate::arguments::{ThreadsTask, ask_of};
use crate::fault::ThreadFuzzFault;
use crate::planning::SeedPlan;
use crate::running::run;
use crate::telling::{tell, tell_sums};
use dspec_command::print_text;
use dspec_samples::{CheckFault, DAMAGES, Sums, check, found};
use std::alloc::{AllocError, Global};
use std::fs;
use std::thread::Threads;

/// Whether standard error is a terminal.
pub fn has_terminal(rt: &HostRuntime) -> bool {
    let Ok(path) = fs::read_link(rt, "/proc/self/fd/2") else {
        return false;
    };
    path.starts_with("/dev/pts") || path.starts_with("/dev/tty")
}

/// Runs one seed, and tells of its contradiction where there is one; whether there is none.
fn try_seed<'a, R: Threads + Print + Sync>(
    rt: &R,
    alloc: Global,
    seed: u64,
    sums: &mut Sums,
) -> Result<bool, ThreadFuzzFault<'a>> {
    let plan = SeedPlan::new(seed);
    let story = run(rt, alloc, &plan)?;
    match check(alloc, &story, sums) {
        Ok(()) => Ok(true),
        Err(CheckFault::Found(flaw)) => {
            tell(rt, seed, &story, &flaw)?;
            Ok(false)
        }
        Err(CheckFault::Memory) => Err(ThreadFuzzFault::Memory(AllocError)),
    }
}

/// Runs so many seeds, from the first on; how many passed.
fn try_seeds<'a, R: Threads + Print + Eprint + Sync>(
    rt: &R,
    alloc: Global,
    shows: bool,
    first: u64,
    count: u64,
) -> Result<u64, ThreadFuzzFault<'a>> {
    let mut sums = Sums::default();
    let mut passed = 0u64;
    for round in 0..count {
        if shows {
            let _ = eprint!(rt; "\rseed {round} of {count}");
        }
        if try_seed(rt, alloc, first.wrapping_add(round), &mut sums)? {
            passed = passed.saturating_add(1);
        }
    }
    if shows {
        let _ = eprintln!(rt; "\r{count} seeds           ");
    }
    tell_sums(rt, &sums)?;
    let failed = count.saturating_sub(passed);
    println!(rt; "{passed} passed, {failed} failed")?;
    Ok(passed)
}

/// Compares the made-up session, whole and with each damage.
fn try_made<'a, R: Print>(rt: &R, alloc: Global) -> Result<(), ThreadFuzzFault<'a>> {
    for (name, changes) in DAMAGES {
        match found(alloc, changes)? {
            Some(flaw) => println!(rt; "{name}: {flaw}")?,
            None => println!(rt; "{name}: agrees")?,
        }
    }
    Ok(())
}

/// Whether these words, after the program's name, ask for threads.
pub fn asks_for_threads(words: &[String]) -> bool {
    match words.first() {
        Some(word) => word.as_str() == "threads",
        None => false,
    }
}

/// Does what the words ask for, the first of which is `threads`, and says whether nothing was contradicted.
pub fn try_threads<'a, R: Threads + Print + Eprint + Sync>(
    rt: &R,
    alloc: Global,
    shows: bool,
    words: &'a [String],
) -> Result<bool, ThreadFuzzFault<'a>> {
    match ask_of(alloc, words)? {
        ThreadsTask::Made => {
            try_made(rt, alloc)?;
            Ok(true)
        }
        ThreadsTask::Seeds { first, count } => {
            let passed = try_seeds(rt, alloc, shows, first, count)?;
            Ok(passed == count)
        }
        ThreadsTask::Text(text) => {
            print_text(rt, text.as_str())?;
            Ok(true)
        }
    }
}
