//! What the command line asks for.

use clap::{Arg, ArgMatches, Command};
use dspec_command::{CommandFault, ParsedCommand, asked_of};
use std::alloc::{AllocError, Global};

/// How the program is called.
const USAGE: &str = "fuzz threads made, fuzz threads FIRST COUNT";

/// What there is to do.
#[derive(Debug, Drop)]
pub enum ThreadsTask {
    /// To compare the made-up sessions.
    Made,
    /// To run so many seeds, from the first on.
    Seeds { first: u64, count: u64 },
    /// To print this text, which was asked for by `--help`.
    Text(String),
}

/// The command line.
fn command<'a>(alloc: Global) -> Result<Command<'a>, AllocError> {
    let first = Arg::new(alloc, "first")
        .value_name("FIRST")
        .required(true)
        .help("the first seed; or `made`, for sessions that are made up");
    let count = Arg::new(alloc, "count")
        .value_name("COUNT")
        .value_parser(clap::value_parser!(u64))
        .help("how many seeds there are");
    Command::new(alloc, "fuzz threads")
        .about(
            "makes random calls on running threads, and compares what they answered with what was recorded",
        )
        .arg(first)?
        .arg(count)
}

/// What is asked for by what was found in the words, if it is anything.
fn ask_found(found: &ArgMatches<'_>) -> Option<ThreadsTask> {
    let first = found.get_str("first")?;
    match found.get_one::<u64>("count") {
        Some(count) => Some(ThreadsTask::Seeds {
            first: first.parse::<u64>().ok()?,
            count,
        }),
        None if first == "made" => Some(ThreadsTask::Made),
        None => None,
    }
}

/// What these words ask for, the first of which is `threads`.
pub fn ask_of<'a>(alloc: Global, words: &'a [String]) -> Result<ThreadsTask, CommandFault<'a>> {
    match asked_of(alloc, command(alloc)?, USAGE, words)? {
        ParsedCommand::Found(found) => ask_found(&found).ok_or(CommandFault::Usage(USAGE)),
        ParsedCommand::Text(text) => Ok(ThreadsTask::Text(text)),
    }
}
