//! What the command line asks for.

use clap::{Arg, ArgMatches, Command};
use dspec_command::{CommandFault, ParsedCommand, asked_of};
use std::alloc::{AllocError, Global};

/// How the program is called.
const USAGE: &str = "fuzz SEED COUNT, fuzz made, fuzz threads made, fuzz threads FIRST COUNT";

/// What a run is asked for by its arguments.
#[derive(Debug, Clone, Copy, PartialEq, Eq)]
pub struct Options {
    /// What the random numbers begin with.
    pub seed: u64,
    /// How many schedules are played.
    pub count: u32,
}

/// What there is to do.
#[derive(Debug, Drop)]
pub enum ScheduleTask {
    /// To play random schedules.
    Play(Options),
    /// To play the schedule that is made up.
    Made,
    /// To print this text, which was asked for by `--help`.
    Text(String),
}

/// The command line: a seed and a count.
fn command<'a>(alloc: Global) -> Result<Command<'a>, AllocError> {
    let seed = Arg::new(alloc, "seed")
        .value_name("SEED")
        .required(true)
        .help("what the random numbers begin with; or `made`, for a schedule that is made up");
    let count = Arg::new(alloc, "count")
        .value_name("COUNT")
        .value_parser(clap::value_parser!(u32))
        .help("how many schedules are played");
    Command::new(alloc, "fuzz")
        .about(
            "plays random schedules by the player and on a session, and compares what both print",
        )
        .arg(seed)?
        .arg(count)
}

/// What is asked for by what was found in the words, if it is anything.
fn ask_found(found: &ArgMatches<'_>) -> Option<ScheduleTask> {
    let first = found.get_str("seed")?;
    match found.get_one::<u32>("count") {
        Some(count) => Some(ScheduleTask::Play(Options {
            seed: first.parse::<u64>().ok()?,
            count,
        })),
        None if first == "made" => Some(ScheduleTask::Made),
        None => None,
    }
}

/// What these words ask for, the first of which is the program's name.
pub fn ask_of<'a>(alloc: Global, words: &'a [String]) -> Result<ScheduleTask, CommandFault<'a>> {
    match asked_of(alloc, command(alloc)?, USAGE, words)? {
        ParsedCommand::Found(found) => match ask_found(&found) {
            Some(ask) => Ok(ask),
            None => Err(CommandFault::Usage(USAGE)),
        },
        ParsedCommand::Text(text) => Ok(ScheduleTask::Text(text)),
    }
}
