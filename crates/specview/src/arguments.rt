//! What the command line asks for.

use crate::folder_asking::{FolderAsk, folder_ask, folder_command};
use crate::replay_asking::{ReplayAsk, replay_ask, replay_command};
use clap::{Arg, ArgMatches, Command};
use dspec_command::{CommandFault, ParsedCommand, asked_of};
use dspec_ctf::Form;
use std::alloc::{AllocError, Global};

/// The program's version, which `--version` prints.
const VERSION: &str = "0.1.0";

/// How the program is called.
const USAGE: &str =
    "specview ctf --output FOLDER [--by-time HERTZ] [SCHEDULE], specview picture [--output FILE] [SCHEDULE], specview steps [SCHEDULE], specview replay [--bytes] [SCHEDULE], specview folder [--check | --repair | --text | --json [--track FIELD] | --paths [--why LABEL] [--longer TIME] [--event NAME] [--since TIME] [--follow [--for SECONDS]] | --path NUMBER | --html FILE | --otlp] DIR ..";

/// A trace to be written.
#[derive(Debug, Clone, Copy)]
pub struct TraceAsk<'a> {
    /// The folder that it is written to.
    pub output: &'a str,
    /// As taken, or by time with its clock's ticks a second.
    pub form: Form,
    /// The file of the schedule; standard input where none is named.
    pub schedule: Option<&'a str>,
}

/// A picture to be drawn.
#[derive(Debug, Clone, Copy)]
pub struct PictureAsk<'a> {
    /// The file that it is written to; standard output where none is named.
    pub output: Option<&'a str>,
    /// The file of the schedule; standard input where none is named.
    pub schedule: Option<&'a str>,
}

/// What there is to do.
#[derive(Debug, Drop)]
pub enum ViewTask<'a> {
    /// To write a trace.
    Trace(TraceAsk<'a>),
    /// To draw a picture.
    Picture(PictureAsk<'a>),
    /// To tell the steps of a schedule's play, of this file, or of standard input where none is named.
    Steps(Option<&'a str>),
    /// To make a schedule's calls on a session.
    Replay(ReplayAsk<'a>),
    /// To show or mend trace folders.
    Folder(FolderAsk<'a>),
    /// To print this text, which was asked for by `--help` or `--version`.
    Text(String),
}

/// The subcommand that writes a trace.
fn ctf_command<'a>(alloc: Global) -> Result<Command<'a>, AllocError> {
    let output = Arg::new(alloc, "output")
        .long("output")
        .required(true)
        .value_name("FOLDER")
        .help("the folder of the trace, which is made, or is empty");
    let hertz = Arg::new(alloc, "by-time")
        .long("by-time")
        .value_name("HERTZ")
        .value_parser(clap::value_parser!(u64))
        .help("sort by stamp, with a clock that ticks so often in a second");
    Command::new(alloc, "ctf")
        .about("play a schedule, and write its streams as a trace of the Common Trace Format")
        .arg(output)?
        .arg(hertz)?
        .arg(schedule_arg(alloc))
}

/// The argument that names the schedule.
pub fn schedule_arg<'a>(alloc: Global) -> Arg<'a> {
    Arg::new(alloc, "schedule")
        .value_name("SCHEDULE")
        .help("the schedule's file; standard input where none is named")
}

/// The subcommand that draws a picture.
fn picture_command<'a>(alloc: Global) -> Result<Command<'a>, AllocError> {
    let output = Arg::new(alloc, "output")
        .long("output")
        .value_name("FILE")
        .help(
            "the file of the picture, which is made, or replaced once the schedule was played; standard output where none is named",
        );
    Command::new(alloc, "picture")
        .about("play a schedule, and draw its play as an SVG")
        .arg(output)?
        .arg(schedule_arg(alloc))
}

/// The subcommand that tells steps.
fn steps_command<'a>(alloc: Global) -> Result<Command<'a>, AllocError> {
    Command::new(alloc, "steps")
        .about("play a schedule, and tell each atomic step in a line")
        .arg(schedule_arg(alloc))
}

/// The whole command line: a subcommand for each thing that there is to do.
fn command<'a>(alloc: Global) -> Result<Command<'a>, AllocError> {
    Command::new(alloc, "specview")
        .version(VERSION)
        .about("shows plays and traces")
        .subcommand_required(true)
        .subcommand(ctf_command(alloc)?)?
        .subcommand(picture_command(alloc)?)?
        .subcommand(steps_command(alloc)?)?
        .subcommand(replay_command(alloc)?)?
        .subcommand(folder_command(alloc)?)
}

/// The trace that is asked for.
fn trace_ask<'a>(found: &ArgMatches<'a>) -> Option<TraceAsk<'a>> {
    let form = match found.get_one::<u64>("by-time") {
        Some(hertz) => Form::ByTime(hertz),
        None => Form::AsTaken,
    };
    Some(TraceAsk {
        output: found.get_str("output")?,
        form,
        schedule: found.get_str("schedule"),
    })
}

/// The picture that is asked for.
fn picture_ask<'a>(found: &ArgMatches<'a>) -> PictureAsk<'a> {
    PictureAsk {
        output: found.get_str("output"),
        schedule: found.get_str("schedule"),
    }
}

/// What is asked for by what was found in the words, if it is anything.
fn ask_found<'a>(
    alloc: Global,
    found: &ArgMatches<'a>,
) -> Result<Option<ViewTask<'a>>, AllocError> {
    if let Some(found) = found.subcommand_matches("folder") {
        return Ok(match folder_ask(alloc, found)? {
            Some(ask) => Some(ViewTask::Folder(ask)),
            None => None,
        });
    }
    if let Some(found) = found.subcommand_matches("picture") {
        return Ok(Some(ViewTask::Picture(picture_ask(found))));
    }
    if let Some(found) = found.subcommand_matches("steps") {
        return Ok(Some(ViewTask::Steps(found.get_str("schedule"))));
    }
    if let Some(found) = found.subcommand_matches("replay") {
        return Ok(Some(ViewTask::Replay(replay_ask(found))));
    }
    let Some(found) = found.subcommand_matches("ctf") else {
        return Ok(None);
    };
    match trace_ask(found) {
        Some(ask) => Ok(Some(ViewTask::Trace(ask))),
        None => Ok(None),
    }
}

/// What these words ask for, the first of which is the program's name.
pub fn ask_of<'a>(alloc: Global, words: &'a [String]) -> Result<ViewTask<'a>, CommandFault<'a>> {
    match asked_of(alloc, command(alloc)?, USAGE, words)? {
        ParsedCommand::Found(found) => ask_found(alloc, &found)?.ok_or(CommandFault::Usage(USAGE)),
        ParsedCommand::Text(text) => Ok(ViewTask::Text(text)),
    }
}
