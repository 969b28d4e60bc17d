//! What the words after `specview replay` ask for.

use crate::arguments::schedule_arg;
use clap::{Arg, ArgAction, ArgMatches, Command};
use std::alloc::{AllocError, Global};

/// A schedule to be replayed.
#[derive(Debug, Clone, Copy, PartialEq, Eq)]
pub struct ReplayAsk<'a> {
    /// The file of the schedule; standard input where none is named.
    pub schedule: Option<&'a str>,
    /// Whether the bytes of each batch and of what is left are printed too.
    pub bytes: bool,
}

/// The subcommand that replays.
pub fn replay_command<'a>(alloc: Global) -> Result<Command<'a>, AllocError> {
    let bytes = Arg::new(alloc, "bytes")
        .long("bytes")
        .action(ArgAction::SetTrue)
        .help("print the bytes of each batch and of what is left after its records");
    Command::new(alloc, "replay")
        .about("play a schedule of whole calls on a session, and print what the player prints")
        .arg(bytes)?
        .arg(schedule_arg(alloc))
}

/// What is asked for.
pub fn replay_ask<'a>(found: &ArgMatches<'a>) -> ReplayAsk<'a> {
    ReplayAsk {
        schedule: found.get_str("schedule"),
        bytes: found.get_flag("bytes"),
    }
}
