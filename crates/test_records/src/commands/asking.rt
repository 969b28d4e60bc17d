//! What words ask of a program.
use crate::same::same;
use clap::{Arg, Command};
use dspec_command::{ParsedCommand, asked_of};
use std::alloc::{AllocError, Global};
use std::test::Fail;

/// A program that takes a name.
fn command<'a>(alloc: Global) -> Result<Command<'a>, AllocError> {
    Command::new(alloc, "greet").arg(Arg::new(alloc, "name"))
}

/// The words of a command line.
fn words(alloc: Global, texts: &[&str]) -> Result<Vec<String>, AllocError> {
    let mut words = Vec::new(alloc);
    for text in texts {
        words.push(format!(in alloc; "{text}")?)?;
    }
    Ok(words)
}

/// What these words make of it: the name, a text that is asked for, or the fault with its status.
fn told(alloc: Global, texts: &[&str]) -> Result<String, AllocError> {
    let words = words(alloc, texts)?;
    match asked_of(alloc, command(alloc)?, "greet [NAME]", words.as_slice()) {
        Ok(ParsedCommand::Found(found)) => {
            let name = found.get_str("name").unwrap_or("nobody");
            format!(in alloc; "found {name}")
        }
        Ok(ParsedCommand::Text(_)) => format!(in alloc; "text"),
        Err(fault) => {
            let status = fault.status();
            format!(in alloc; "{status} {fault}")
        }
    }
}

#[test]
fn words_that_are_taken_or_refused(rt: HostRuntime) -> Result<(), Fail> {
    for (words, wanted) in [
        (["greet"].as_slice(), "found nobody"),
        (&["greet", "you"], "found you"),
        (&["greet", "--help"], "text"),
        (&["greet", "you", "too"], "4 usage: greet [NAME]"),
        (&["greet", "--loudly"], "4 usage: greet [NAME]"),
    ] {
        same(&rt, told(rt.alloc(), words)?.as_str(), wanted);
    }
    Ok(())
}
