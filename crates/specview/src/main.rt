//! `specview` shows plays and traces. `specview ctf --output FOLDER [--by-time HERTZ] [SCHEDULE]` plays a schedule, of a file or of standard
//! input, and writes what each CPU's principal buffers accepted as a trace of the Common Trace Format, which other tools open: a
//! folder with the text `metadata` and one file a CPU.
//!
//! Nothing is written before the play has succeeded. The folder is made; one that is there has to be empty. `metadata` is written last,
//! and where a write fails what was begun is taken away: the trace is there whole, or not at all.
//!
//! `specview picture [--output FILE] [SCHEDULE]` plays a schedule, and draws its play as an SVG: into the file, which is made, or
//! replaced once the picture is whole, or on standard output. `specview steps [SCHEDULE]` tells each atomic step of the play in a line.
//!
//! `specview replay [--bytes] [SCHEDULE]` makes the calls of a schedule of whole calls on a session from one thread, where the consumer meets
//! each CPU after each call, ends the session, and prints what the player prints: the answers, the reports and the streams, which it reads
//! back from the texts of the batches taken and of what is left. So `examples/replay` shows that both answer alike. With `--bytes` it prints
//! more after that: for each CPU, and of it for each batch that was taken and for what is left, a line with the records and one with the
//! bytes, each in two digits of base 16: `batch cpu 0 drops 0 records 1: 7` and `bytes cpu 0: 07 00 00 00`, of what is left `rest` for
//! `batch`. A schedule that the player refuses it refuses with the player's line, and one with a line that is no whole call with a status of
//! its own.
//!
//! `specview folder [--check | --repair | --text | --json [--track FIELD] | --paths | --path NUMBER | --html FILE | --otlp] DIR ..` sums up trace
//! folders of ours, whoever wrote them; or checks them, by the definition of what their bytes say, and cuts off what a stopped writer left: both
//! are of the crate `dspec_folder_view`. Or it tells or draws all that they have, merged by time, or tells the paths that a tracer kept, in a
//! table, as a page, or as a collector of OpenTelemetry reads them: those are of `dspec_trace_view`. `--paths --follow` tells them as they come.
//!
//! | File | What is in it |
//! |---|---|
//! | `arguments.rt`, `main.rt`, `fault.rt`, `program.rt`, `replacing.rt` | what the words ask (a subcommand more is one function and one arm of `ViewTask`); statuses; how a picture takes the place of an old one |
//! | `clock.rt` | `see_clock`: what readers of a trace by time take (`specs/Clocks`) |
//! | `pictured.rt`, `stepped.rt` | `picture_of`: the picture of a text's play; `steps_of_text`: its steps; which text has them, and why another has none (`specs/Pictures`, `specs/Stepping`) |
//! | `replay_asking.rt`, `replaying.rt` | what is asked of a replay; `replay_text`: what is printed of a schedule that a session makes (`specs/Replays`), and why it isn't |
//! | `trace.rt`, `batches.rt`, `events.rt`, `folder.rt` | `trace_of`: a file as taken and by time; `shares_of`: a stream cut at the seals; the events; `TraceFiles` and `write_trace` |
//! | `folder_asking.rt` | what is asked of folders |
//! | `proofs/` | Cutting (a stream cut into batches), SmallPlays (what a play's packets tell is of 64 bits), Parts, AllFiles, Files, Taking |
#![tactic(auto)]

mod arguments;
mod batches;
mod clock;
mod events;
mod fault;
mod folder;
mod folder_asking;
mod pictured;
mod program;
mod replacing;
mod replay_asking;
mod replaying;
mod stepped;
mod trace;

use arguments::{PictureAsk, TraceAsk, ViewTask, ask_of};
use dspec_command::{Input, ended, open, print_text, words_of};
use dspec_folder_view::{FolderViewFault, count_folders, examine_folders};
use dspec_replay::read_whole;
use dspec_trace_view::{OutputFormat, PathChoice, follow_paths, page_of_folders, show_folders};
use fault::ViewFault;
use folder::{OutputFolder, write_trace};
use folder_asking::{FolderAsk, FolderTask};
use pictured::picture_of;
use program::ProgramFault;
use replacing::{see_other, write_file};
use replay_asking::ReplayAsk;
use replaying::replay_text;
use std::alloc::Global;
use std::io::Read;
use std::process::ExitCode;
use std::sync::Wait;
use stepped::steps_of_text;
use trace::trace_of;

/// The bytes of an input.
fn read_all<'a, R: Read + Drop>(
    alloc: Global,
    mut input: Input<'a, R>,
) -> Result<Vec<u8>, ProgramFault<'a>> {
    match read_whole(alloc, &mut input) {
        Ok(bytes) => Ok(bytes),
        Err(fault) => match input.fault() {
            Some(told) => Err(ProgramFault::Command(told)),
            None => Err(ProgramFault::from(ViewFault::from(fault))),
        },
    }
}

/// The bytes of a schedule: of the file that is named, else of standard input.
fn schedule_text<'a>(rt: &HostRuntime, name: Option<&'a str>) -> Result<Vec<u8>, ProgramFault<'a>> {
    match name {
        Some(name) => read_all(rt.alloc(), open(rt, name)?),
        None => read_all(rt.alloc(), Input::new("standard input", rt.stdin())),
    }
}

/// Plays a schedule and writes its trace.
fn run_ctf<'a>(rt: &'a HostRuntime, ask: &TraceAsk<'a>) -> Result<(), ProgramFault<'a>> {
    let text = schedule_text(rt, ask.schedule)?;
    let trace = trace_of(rt.alloc(), text.as_slice(), ask.form)?;
    let mut folder = OutputFolder::new(rt, ask.output)?;
    match write_trace(rt.alloc(), &mut folder, &trace) {
        Ok(()) => Ok(()),
        Err(fault) => match folder.fault() {
            Some(told) => Err(ProgramFault::Command(told)),
            None => Err(ProgramFault::from(fault)),
        },
    }
}

/// Plays a schedule and draws its picture.
fn run_picture<'a>(rt: &HostRuntime, ask: &PictureAsk<'a>) -> Result<(), ProgramFault<'a>> {
    let text = schedule_text(rt, ask.schedule)?;
    let picture = picture_of(rt.alloc(), text.as_slice())?;
    match ask.output {
        Some(name) => {
            see_other(rt, name, ask.schedule)?;
            Ok(write_file(rt, name, picture.as_str().as_bytes())?)
        }
        None => Ok(print_text(rt, picture.as_str())?),
    }
}

/// Plays a schedule and tells its steps.
fn run_steps<'a>(rt: &HostRuntime, schedule: Option<&'a str>) -> Result<(), ProgramFault<'a>> {
    let text = schedule_text(rt, schedule)?;
    let told = steps_of_text(rt.alloc(), text.as_slice())?;
    Ok(print_text(rt, told.as_str())?)
}

/// Makes a schedule's calls on a session.
fn run_replay<'a>(rt: &HostRuntime, ask: &ReplayAsk<'a>) -> Result<(), ProgramFault<'a>> {
    let text = schedule_text(rt, ask.schedule)?;
    let printed = replay_text(rt.alloc(), text.as_slice(), ask.bytes)?;
    Ok(print_text(rt, printed.as_str())?)
}

/// Writes the page of folders into a file, and says whether each of their files could be read to its end.
fn write_page<'a>(
    rt: &HostRuntime,
    paths: &[&'a str],
    file: &'a str,
) -> Result<bool, FolderViewFault<'a>> {
    let (page, is_sound) = page_of_folders(rt, paths)?;
    write_file(rt, file, page.as_slice())?;
    Ok(is_sound)
}

/// Tells the paths of a folder as they come.
fn follow_folder<'a, W: Wait>(
    waits: &W,
    rt: &HostRuntime,
    paths: &[&'a str],
    choice: PathChoice<'a>,
    seconds: Option<u64>,
) -> Result<bool, FolderViewFault<'a>> {
    match paths.first() {
        Some(folder) => follow_paths(waits, rt, folder, choice, seconds),
        None => Ok(true),
    }
}

/// Shows or mends trace folders, and says whether nothing is wrong with them.
fn run_folder<'a, W: Wait>(
    waits: &W,
    rt: &HostRuntime,
    ask: &FolderAsk<'a>,
) -> Result<bool, FolderViewFault<'a>> {
    let paths = ask.paths.as_slice();
    match ask.task {
        FolderTask::Count => count_folders(rt, paths),
        FolderTask::Check => examine_folders(rt, paths, false),
        FolderTask::Repair => examine_folders(rt, paths, true),
        FolderTask::Text => show_folders(rt, paths, OutputFormat::Text),
        FolderTask::Json => show_folders(rt, paths, OutputFormat::Json),
        FolderTask::Tracks(field) => show_folders(rt, paths, OutputFormat::Tracks(field)),
        FolderTask::Paths(choice) => show_folders(rt, paths, OutputFormat::Paths(choice)),
        FolderTask::Follow(choice, seconds) => follow_folder(waits, rt, paths, choice, seconds),
        FolderTask::Path(number) => show_folders(rt, paths, OutputFormat::Path(number)),
        FolderTask::Spans => show_folders(rt, paths, OutputFormat::Spans),
        FolderTask::Page(file) => write_page(rt, paths, file),
    }
}

/// Does what the words ask for, and says whether all is well.
fn run<'a, W: Wait>(
    waits: &W,
    rt: &'a HostRuntime,
    words: &'a [String],
) -> Result<bool, ProgramFault<'a>> {
    match ask_of(rt.alloc(), words)? {
        ViewTask::Trace(ask) => run_ctf(rt, &ask)?,
        ViewTask::Picture(ask) => run_picture(rt, &ask)?,
        ViewTask::Steps(schedule) => run_steps(rt, schedule)?,
        ViewTask::Replay(ask) => run_replay(rt, &ask)?,
        ViewTask::Folder(ask) => return Ok(run_folder(waits, rt, &ask)?),
        ViewTask::Text(text) => print_text(rt, text.as_str())?,
    }
    Ok(true)
}

/// Shows by the words of the command line.
fn main(rt: HostRuntime) -> ExitCode {
    match words_of(&rt) {
        Ok(words) => ended(&rt, "specview", run(&rt, &rt, words.as_slice())),
        Err(fault) => ended(&rt, "specview", Err(fault)),
    }
}
