//! What a trace's load of activity costs. Stands on `dspec_table`.
ghost use Rattle.std.specs.Prelude.{◌≡◌, IfSome};

mod loading;
mod stirring;
mod timing;

use dspec_deeds::{Config, Policy};
use dspec_record::Rec;
use dspec_table::Words;
use std::io;
use std::sync::Wait;
use std::thread::Threads;

/// Two CPUs and one slot, with room for as many speculations and calls as there may be.
fn config() -> Config
    ensures sizes { (result.nspec ≡ 1) × (result.max_issues ≡ 144115188075855872) }
{
    Config {
        cpus: 2,
        nspec: 1,
        bufsize: 64,
        specsize: 64,
        max_issues: 1 << 57,
        max_calls: 1 << 62,
        policy: Policy::Switch,
    }
}

/// What the words ask for.
#[derive(Debug, Clone, Copy, PartialEq, Eq)]
enum LoadTask {
    /// To time loads, alone and beside another thread's exchanges.
    Times,
    /// To make so many loads, and to print how many showed that the session runs.
    Count(u32),
}

fn ask_of(words: &[String]) -> Option<LoadTask> {
    match words {
        [word] if word.as_str() == "times" => Some(LoadTask::Times),
        [number] => number.as_str().parse::<u32>().ok().map(LoadTask::Count),
        _ => None,
    }
}

/// Makes one load.
pub fn check<R: Threads + Wait>(threads: &R, rt: &HostRuntime) -> io::Result<()> {
    answer(threads, rt, LoadTask::Count(1))
}

/// Does what the words ask for; false where it is nothing that is done here.
pub fn run<R: Threads + Wait>(threads: &R, rt: &HostRuntime, words: &[String]) -> io::Result<bool> {
    let Some(asked) = ask_of(words) else {
        return Ok(false);
    };
    answer(threads, rt, asked)?;
    Ok(true)
}

/// A session that didn't start has no loads.
fn no_session() -> io::Error {
    io::Error::from(io::ErrorKind::OutOfMemory)
}

fn answer<R: Threads + Wait>(threads: &R, rt: &HostRuntime, asked: LoadTask) -> io::Result<()> {
    let Ok((words, mut seats, consumer)) = Words::start(rt.alloc(), &config()) else {
        return Err(no_session());
    };
    let Some(other) = seats.pop() else {
        return Err(no_session());
    };
    let Some(mut seat) = seats.pop() else {
        return Err(no_session());
    };
    let Some(rec) = Rec::new(1, &[]) else {
        return Err(no_session());
    };
    match asked {
        LoadTask::Times => timing::time_all(threads, rt, &words, seat, other, consumer, rec),
        LoadTask::Count(number) => println!(rt;
            "loads: {}",
            loading::load_all(&words, &mut seat, rec, number)
        ),
    }
}
