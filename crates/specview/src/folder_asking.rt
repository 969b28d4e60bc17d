//! What the words after `specview folder` ask for.

use clap::{Arg, ArgAction, ArgMatches, Command};
use dspec_trace_view::{PathChoice, span_of_words};
use std::alloc::{AllocError, Global};

/// What is done with trace folders.
#[derive(Debug, Clone, Copy, PartialEq, Eq)]
pub enum FolderTask<'a> {
    /// What they have is counted.
    Count,
    /// All of their files are read, and what is wrong is told.
    Check,
    /// The same, and what comes after the last whole packet of a file is cut off.
    Repair,
    /// Their events are told, a line each.
    Text,
    /// Their events are written as a document that ui.perfetto.dev opens.
    Json,
    /// The same with a row for each value of a field.
    Tracks(&'a str),
    /// The kept paths that are chosen are told, a line each.
    Paths(PathChoice<'a>),
    /// The kept paths that are chosen are told as they come, for so many seconds; without a number until the process is ended.
    Follow(PathChoice<'a>, Option<u64>),
    /// The records of the path of this number are told.
    Path(u64),
    /// A page of the kept paths is written to this file.
    Page(&'a str),
    /// The kept paths are written as a collector of OpenTelemetry reads them.
    Spans,
}

/// Folders, and what is done with them.
#[derive(Debug, Drop)]
pub struct FolderAsk<'a> {
    /// What is done.
    pub task: FolderTask<'a>,
    /// Their paths.
    pub paths: Vec<&'a str>,
}

/// A flag that says what is done with the folders.
fn flag<'a>(alloc: Global, name: &'a str, help: &'a str) -> Arg<'a> {
    Arg::new(alloc, name)
        .long(name)
        .action(ArgAction::SetTrue)
        .help(help)
}

/// The flag of a check.
fn check_flag<'a>(alloc: Global) -> Arg<'a> {
    flag(
        alloc,
        "check",
        "read each packet of each file, and tell which file is wrong at which byte",
    )
}

/// The flag of a repair.
fn repair_flag<'a>(alloc: Global) -> Result<Arg<'a>, AllocError> {
    flag(
        alloc,
        "repair",
        "the same, and cut off what a stopped writer left after the last whole packet of a file; of folders that nobody writes to any more",
    )
    .conflicts_with("check")
}

/// The flag of lines.
fn text_flag<'a>(alloc: Global) -> Result<Arg<'a>, AllocError> {
    flag(
        alloc,
        "text",
        "tell all events, a line each; those of several folders by time, all of them in memory",
    )
    .conflicts_with("check")?
    .conflicts_with("repair")
}

/// The flag of a document.
fn json_flag<'a>(alloc: Global) -> Result<Arg<'a>, AllocError> {
    flag(
        alloc,
        "json",
        "the same as a document of Chrome's Trace Event form, which ui.perfetto.dev opens: each kept path is a bar in a row of its thread",
    )
    .conflicts_with("check")?
    .conflicts_with("repair")?
    .conflicts_with("text")
}

/// The flag of a table of paths.
fn paths_flag<'a>(alloc: Global) -> Result<Arg<'a>, AllocError> {
    flag(
        alloc,
        "paths",
        "tell the kept paths, a line each, the one that took longest first: its number, why it was kept, the thread that began it, when, how long it took, how many records it has, how many are cut, the first",
    )
    .conflicts_with("check")?
    .conflicts_with("repair")?
    .conflicts_with("text")?
    .conflicts_with("json")
}

/// The option of one path.
fn path_arg<'a>(alloc: Global) -> Result<Arg<'a>, AllocError> {
    Arg::new(alloc, "path")
        .long("path")
        .value_name("NUMBER")
        .value_parser(clap::value_parser!(u64))
        .help(
            "tell the records of the path of this number, and how long after its begin each was made",
        )
        .conflicts_with("check")?
        .conflicts_with("repair")?
        .conflicts_with("text")?
        .conflicts_with("json")?
        .conflicts_with("paths")
}

/// The option of a page.
fn html_arg<'a>(alloc: Global) -> Result<Arg<'a>, AllocError> {
    Arg::new(alloc, "html")
        .long("html")
        .value_name("FILE")
        .help(
            "write the kept paths into this file, as a page that a browser shows, and that asks for nothing from outside",
        )
        .conflicts_with("check")?
        .conflicts_with("repair")?
        .conflicts_with("text")?
        .conflicts_with("json")?
        .conflicts_with("paths")?
        .conflicts_with("path")
}

/// The flag of lines for a collector.
fn otlp_flag<'a>(alloc: Global) -> Result<Arg<'a>, AllocError> {
    flag(
        alloc,
        "otlp",
        "write the kept paths, a line each, as the receiver otlpjsonfile of the OpenTelemetry Collector reads them",
    )
    .conflicts_with("check")?
    .conflicts_with("repair")?
    .conflicts_with("text")?
    .conflicts_with("json")?
    .conflicts_with("paths")?
    .conflicts_with("path")?
    .conflicts_with("html")
}

/// The flags, of which one at most is given.
fn flags<'a>(alloc: Global, command: Command<'a>) -> Result<Command<'a>, AllocError> {
    command
        .arg(check_flag(alloc))?
        .arg(repair_flag(alloc)?)?
        .arg(text_flag(alloc)?)?
        .arg(json_flag(alloc)?)?
        .arg(paths_flag(alloc)?)?
        .arg(path_arg(alloc)?)?
        .arg(html_arg(alloc)?)?
        .arg(otlp_flag(alloc)?)
}

/// The option of `--json` that draws rows. A flag that is asked for is no longer wanted where another excludes it, so each of those is named.
fn track_arg<'a>(alloc: Global) -> Result<Arg<'a>, AllocError> {
    Arg::new(alloc, "track")
        .long("track")
        .value_name("FIELD")
        .help(
            "with --json: a row for each value of the field of this name, as that of a path's number, named `FIELD VALUE`, of all records that have it, in each folder; the other records stay in the rows of their CPUs",
        )
        .requires_arg("json")?
        .conflicts_with("check")?
        .conflicts_with("repair")?
        .conflicts_with("text")?
        .conflicts_with("paths")?
        .conflicts_with("path")?
        .conflicts_with("html")?
        .conflicts_with("otlp")
}

/// An argument that is given with `--paths` alone.
fn with_paths<'a>(arg: Arg<'a>) -> Result<Arg<'a>, AllocError> {
    arg.requires_arg("paths")?
        .conflicts_with("check")?
        .conflicts_with("repair")?
        .conflicts_with("text")?
        .conflicts_with("json")?
        .conflicts_with("path")?
        .conflicts_with("html")?
        .conflicts_with("otlp")
}

/// An option that chooses among paths.
fn choice_arg<'a>(
    alloc: Global,
    name: &'a str,
    value: &'a str,
    help: &'a str,
) -> Result<Arg<'a>, AllocError> {
    with_paths(
        Arg::new(alloc, name)
            .long(name)
            .value_name(value)
            .help(help),
    )
}

/// The options that choose among paths.
fn choices<'a>(alloc: Global, command: Command<'a>) -> Result<Command<'a>, AllocError> {
    let why = choice_arg(
        alloc,
        "why",
        "LABEL",
        "with --paths: those that were kept for this reason, as `failed`",
    )?;
    let longer = choice_arg(
        alloc,
        "longer",
        "TIME",
        "with --paths: those that took so long or longer, as `5ms`; in ns, us, ms or s",
    )?;
    let event = choice_arg(
        alloc,
        "event",
        "NAME",
        "with --paths: those with a record of this name",
    )?;
    let since = choice_arg(
        alloc,
        "since",
        "TIME",
        "with --paths: those that ended so long before the last event or later, as `5s`",
    )?;
    command.arg(why)?.arg(longer)?.arg(event)?.arg(since)
}

/// The options of `--paths` for a folder that is being written.
fn followings<'a>(alloc: Global, command: Command<'a>) -> Result<Command<'a>, AllocError> {
    let follow = with_paths(flag(
        alloc,
        "follow",
        "with --paths, of one folder: tell each path once as it comes, in order of their ends, until the process is ended; a trace with a bound is named without the number of a part, and one that isn't there yet is waited for",
    ))?;
    let seconds = with_paths(
        Arg::new(alloc, "for")
            .long("for")
            .value_name("SECONDS")
            .value_parser(clap::value_parser!(u64))
            .help("with --follow: for so many seconds; 0: what is there"),
    )?
    .requires_arg("follow")?;
    command.arg(follow)?.arg(seconds)
}

/// The subcommand that shows trace folders.
pub fn folder_command<'a>(alloc: Global) -> Result<Command<'a>, AllocError> {
    let command = Command::new(alloc, "folder").about(
        "sum up trace folders of the Common Trace Format: what each has, and when; or check, mend, tell or draw them. Several folders are merged by time where their clocks are one, or each tells when it began",
    );
    let folders = Arg::new(alloc, "folders")
        .value_name("DIR")
        .required(true)
        .action(ArgAction::Append)
        .num_args(1..)
        .help("a trace folder");
    let command = flags(alloc, command)?.arg(track_arg(alloc)?)?;
    let command = choices(alloc, command)?;
    followings(alloc, command)?.arg(folders)
}

/// The span of time that an option has, or what it is without one; None where its text isn't one.
fn span_in(found: &ArgMatches<'_>, name: &str, without: u64) -> Option<u64> {
    match found.get_str(name) {
        Some(text) => span_of_words(text),
        None => Some(without),
    }
}

/// The paths that are asked for; None where a time isn't one.
fn choice_of<'a>(found: &ArgMatches<'a>) -> Option<PathChoice<'a>> {
    Some(PathChoice {
        why: found.get_str("why"),
        longer: span_in(found, "longer", 0)?,
        event: found.get_str("event"),
        since: span_in(found, "since", u64::MAX)?,
    })
}

/// What is done, by the flags; None where a time isn't one.
fn task_of<'a>(found: &ArgMatches<'a>) -> Option<FolderTask<'a>> {
    if found.get_flag("check") {
        return Some(FolderTask::Check);
    }
    if found.get_flag("repair") {
        return Some(FolderTask::Repair);
    }
    if found.get_flag("text") {
        return Some(FolderTask::Text);
    }
    if let Some(field) = found.get_str("track") {
        return Some(FolderTask::Tracks(field));
    }
    if found.get_flag("json") {
        return Some(FolderTask::Json);
    }
    if found.get_flag("follow") {
        return Some(FolderTask::Follow(choice_of(found)?, found.get_one::<u64>("for")));
    }
    if found.get_flag("paths") {
        return Some(FolderTask::Paths(choice_of(found)?));
    }
    if let Some(number) = found.get_one::<u64>("path") {
        return Some(FolderTask::Path(number));
    }
    if found.get_flag("otlp") {
        return Some(FolderTask::Spans);
    }
    if let Some(file) = found.get_str("html") {
        return Some(FolderTask::Page(file));
    }
    Some(FolderTask::Count)
}

/// Whether a folder is followed.
fn is_follow(task: &FolderTask<'_>) -> bool {
    match task {
        FolderTask::Follow(_, _) => true,
        _ => false,
    }
}

/// A path without the slashes at its end.
fn trimmed<'a>(path: &'a str) -> &'a str {
    let short = path.trim_end_matches('/');
    if short.is_empty() { path } else { short }
}

/// What is asked for; None where a time isn't one, or several folders are to be followed.
pub fn folder_ask<'a>(
    alloc: Global,
    found: &ArgMatches<'a>,
) -> Result<Option<FolderAsk<'a>>, AllocError> {
    let Some(task) = task_of(found) else {
        return Ok(None);
    };
    let mut paths = Vec::new(alloc);
    if let Some(given) = found.get_strs("folders") {
        for path in given {
            paths.push(trimmed(*path))?;
        }
    }
    if is_follow(&task) && paths.len() > 1 {
        return Ok(None);
    }
    Ok(Some(FolderAsk { task, paths }))
}
