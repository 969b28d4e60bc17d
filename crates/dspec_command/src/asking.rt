ghost use Rattle.std.specs.Prelude.{◌≡◌, IfErr, IsErrAnd, map, string_bytes, true};
ghost use Rattle.clap.specs.{Faults.fault_of, Faults.is_simple_and_free, Simple.app_of, Takes.takes, Values.kind_of, declared.error.kind.ErrorKind.TheVariants.OutOfMemory};
ghost use Rattle.dspec_command.specs.{Asking.IsAnswerTo, Asking.IsToldAs, Faults.IsAskFault, Faults.IsMistake, Faults.IsUsage, Faults.IsWordsFault, declared.fault.CommandFault.TheVariants.Memory};

use crate::fault::{CommandFault, words_fault};
use clap::error::ErrorKind;
use clap::{Arg, ArgMatches, Command, Error};
use std::alloc::Global;
use std::env;

/// What the words ask of a program.
#[derive(Debug, Drop)]
pub enum ParsedCommand<'a> {
    /// What was found in them.
    Found(ArgMatches<'a>),
    /// This text, which `--help` or `--version` asks for.
    Text(String),
}

/// The words of the command line, the program's name in front. Refused where one isn't UTF-8.
pub fn words_of<'a>(rt: &HostRuntime) -> Result<Vec<String>, CommandFault<'a>>
    ensures { IfErr result IsWordsFault }
{
    let mut words = Vec::new(rt.alloc());
    let found = match env::args(rt) {
        Ok(found) => found,
        Err(fault) => return Err(words_fault(&fault)),
    };
    for word in found {
        words.push(word)?;
    }
    Ok(words)
}

/// The argument `--ctf FOLDER` of a program that writes a trace of what it keeps, if it is asked for one.
pub fn folder_arg<'a>(alloc: Global) -> Arg<'a> {
    Arg::new(alloc, "ctf").long("ctf").value_name("FOLDER").help(
        "write what is kept to a folder too, which is made, or is empty",
    )
}

/// What these words ask, the first of which is the program's name. Words that the command doesn't take are refused, and `usage` is
/// told.
pub fn asked_of<'a>(
    alloc: Global,
    command: Command<'a>,
    usage: &'a str,
    words: &'a [String],
) -> Result<ParsedCommand<'a>, CommandFault<'a>>
    ensures fault { IfErr result (IsAskFault usage.entry.now) }
    ensures taken { takes (app_of command.entry) (map string_bytes words.entry.now) ≡ true → IfErr result (λ fault. fault ≡ Memory) }
    ensures refused { is_simple_and_free (app_of command.entry) ≡ true → IsAnswerTo usage.entry.now (fault_of (app_of command.entry) (map string_bytes words.entry.now)) result }
{
    match command.try_get_matches_from(words) {
        Ok(found) => Ok(ParsedCommand::Found(found)),
        Err(fault) => told(alloc, usage, fault),
    }
}

/// A text that is asked for is told; everything else is a fault.
fn told<'a>(
    alloc: Global,
    usage: &'a str,
    fault: Error,
) -> Result<ParsedCommand<'a>, CommandFault<'a>>
    ensures fault { IfErr result (IsAskFault usage.entry.now) }
    ensures memory { kind_of fault ≡ OutOfMemory → IsErrAnd result (λ told. told ≡ Memory) }
    ensures mistake { IsMistake (kind_of fault) → IsErrAnd result (IsUsage usage.entry.now) }
    ensures kind { IsToldAs usage.entry.now (kind_of fault) result }
{
    match fault.kind() {
        ErrorKind::DisplayHelp | ErrorKind::DisplayVersion => {
            Ok(ParsedCommand::Text(format!(in alloc; "{fault}")?))
        }
        ErrorKind::OutOfMemory => Err(CommandFault::Memory),
        _ => Err(CommandFault::Usage(usage)),
    }
}
