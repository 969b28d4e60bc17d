//! What the command line asks for.

use clap::{Arg, ArgMatches, Command};
use dspec_command::{CommandFault, ParsedCommand, asked_of, folder_arg};
use std::alloc::{AllocError, Global};

/// How the program is called.
const USAGE: &str = "examples watch [--ctf FOLDER] [SEED]";
/// The seed where none is named.
const SEED: u64 = 1;

/// Requests to be watched.
#[derive(Debug, Clone, Copy)]
pub struct WatchAsk<'a> {
    /// What the requests are made of.
    pub seed: u64,
    /// The folder of the trace, if one is to be written.
    pub folder: Option<&'a str>,
}

/// What there is to do.
#[derive(Debug, Drop)]
pub enum WatchTask<'a> {
    /// To watch requests.
    Watch(WatchAsk<'a>),
    /// To print this text, which was asked for by `--help`.
    Text(String),
}

/// The command line.
fn command<'a>(alloc: Global) -> Result<Command<'a>, AllocError> {
    let seed = Arg::new(alloc, "seed")
        .value_name("SEED")
        .value_parser(clap::value_parser!(u64))
        .help("what the requests are made of; 1 where none is named");
    Command::new(alloc, "watch")
        .bin_name("examples watch")?
        .about("handles made-up requests, and tells those that fail")
        .arg(folder_arg(alloc))?
        .arg(seed)
}

/// What was found in the words.
fn watch_ask<'a>(found: &ArgMatches<'a>) -> WatchAsk<'a> {
    WatchAsk {
        seed: found.get_one::<u64>("seed").unwrap_or(SEED),
        folder: found.get_str("ctf"),
    }
}

/// What these words ask for, the first of which is the program's name.
pub fn ask_of<'a>(alloc: Global, words: &'a [String]) -> Result<WatchTask<'a>, CommandFault<'a>> {
    match asked_of(alloc, command(alloc)?, USAGE, words)? {
        ParsedCommand::Found(found) => Ok(WatchTask::Watch(watch_ask(&found))),
        ParsedCommand::Text(text) => Ok(WatchTask::Text(text)),
    }
}
