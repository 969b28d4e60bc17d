//! What the command line asks for.

use clap::Command;
use dspec_command::{CommandFault, ParsedCommand, asked_of, folder_arg};
use std::alloc::{AllocError, Global};

/// How the program is called.
const USAGE: &str = "examples store [--ctf FOLDER]";

/// The command line.
fn command<'a>(alloc: Global) -> Result<Command<'a>, AllocError> {
    Command::new(alloc, "store")
        .bin_name("examples store")?
        .about("makes transfers between accounts, and tells those that are aborted or slow")
        .arg(folder_arg(alloc))
}

/// What these words ask for, the first of which is the program's name: the transfers, with a trace where `ctf` is found in them, or a text.
pub fn asked<'a>(
    alloc: Global,
    words: &'a [String],
) -> Result<ParsedCommand<'a>, CommandFault<'a>> {
    asked_of(alloc, command(alloc)?, USAGE, words)
}
