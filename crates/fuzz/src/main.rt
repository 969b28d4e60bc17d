//! `fuzz SEED COUNT` plays so many random schedules of whole calls, each by the player and on a session, and compares what both
//! print, or how both refuse it; what is printed has the bytes of each batch and of what is left, which an encoder of this program
//! makes of the player's deeds (`encoding`). At the first difference it takes turns out of the schedule while the difference stays, prints
//! what is left, with what each of the two made of it, and ends with status 1. The last line counts. `fuzz made` plays a schedule that is
//! made up, at which both have to differ.
//!
//! `fuzz threads FIRST COUNT` makes random calls on running threads: for each of COUNT seeds from FIRST on, a session of two to eight
//! CPUs, each in a thread of its own, whose workers share identifiers, while the consumer makes its own calls in another. Once a
//! session has ended, all that its calls answered is compared with what was recorded and reported, and the first contradiction is
//! told, with the calls that it is about; the status is 1 then. `fuzz threads made` compares made-up sessions, one of them healthy.
//!
//! It promises that it ends, that the turns of a schedule are whole calls, that a schedule passes only where both printed the same text or
//! refused it alike, and that the threads give back the session that they were lent, so that it may be ended. That what the calls on threads
//! answered, what was recorded and what is reported agree isn't promised: the program compares it. One seed gives the same
//! schedules, and the same choices of threads, on every machine.
//!
//! | File | What is in it |
//! |---|---|
//! | `schedules.rt`, `options.rt` | schedules: what the words ask, plays and comparisons, statuses |
//! | `making.rt`, `records.rt`, `sample.rt`, `made.rt` | configurations, schemas, turns (identifiers are guessed); records, a few of them none of the schema; the schedule that is made up |
//! | `comparing.rt`, `encoding.rt`, `shortening.rt`, `writing.rt`, `tally.rt` | what both make of a schedule; the bytes of the player's deeds; turns taken out while both differ; a schedule as text. `specs/Comparing`: when both told the same, and what a session tells |
//! | `threads.rt`, `arguments.rt`, `fault.rt` | threads: what the words ask, seed after seed; statuses |
//! | `planning.rt`, `choosing.rt`, `sharing.rt`, `working.rt` | what a seed chooses; the calls of a CPU; the board that threads share; a worker |
//! | `taken.rt`, `consuming.rt`, `racing.rt`, `running.rt`, `telling.rt` | the consumer and what it took; the threads; a session from start to end. `specs/Lent`: what the threads are lent and give back |
#![tactic(auto)]

mod arguments;
mod choosing;
mod comparing;
mod consuming;
mod encoding;
mod fault;
mod made;
mod making;
mod options;
mod planning;
mod racing;
mod records;
mod running;
mod sample;
mod schedules;
mod sharing;
mod shortening;
mod taken;
mod tally;
mod telling;
mod threads;
mod working;
mod writing;

use dspec_command::{CommandFault, ended, words_of};
use schedules::compare_schedules;
use std::process::ExitCode;
use threads::{asks_for_threads, has_terminal, try_threads};

/// Does what the words of the command line ask for; a difference or a contradiction is status 1.
fn main(rt: HostRuntime) -> ExitCode {
    let words = match words_of(&rt) {
        Ok(words) => words,
        Err(fault) => return ended(&rt, "fuzz", Err::<bool, CommandFault<'_>>(fault)),
    };
    match words.as_slice().split_first() {
        Some((_, rest)) if asks_for_threads(rest) => {
            let shows = has_terminal(&rt);
            ended(&rt, "fuzz", try_threads(&rt, rt.alloc(), shows, rest))
        }
        _ => ended(&rt, "fuzz", compare_schedules(&rt, words.as_slice())),
    }
}
