//! What is told of faults, and by which status.
use crate::same::same;
use dspec_command::{CommandFault, Input, ended, open, output_fault, print_text};
use std::alloc::AllocError;
use std::io::Read;
use std::process::ExitCode;
use std::test::Fail;
use std::{fs, io, process};

/// An input that a device refuses.
#[derive(Drop)]
struct Broken;

impl Read for Broken {
    fn read(&mut self, _buf: &mut [u8]) -> io::Result<usize> {
        Err(io::Error::new(io::ErrorKind::PermissionDenied, "not you"))
    }
}

#[test]
fn statuses(rt: HostRuntime) -> Result<(), Fail> {
    let memory = io::Error::from(io::ErrorKind::OutOfMemory);
    same(&rt, CommandFault::Memory.status(), 2);
    same(&rt, CommandFault::NotText.status(), 4);
    same(&rt, CommandFault::Usage("greet").status(), 4);
    same(&rt, output_fault(memory).status(), 2);
    Ok(())
}

#[test]
fn reasons_are_kept(rt: HostRuntime) -> Result<(), Fail> {
    let mut input = Input::new("a name", Broken);
    same(&rt, input.fault().is_none(), true);
    let mut buffer = [0u8; 8];
    same(&rt, input.read(&mut buffer).is_err(), true);
    let Some(fault) = input.fault() else {
        return Err(Fail::from(AllocError));
    };
    same(&rt, fault.status(), 3);
    let text = format!(in rt.alloc(); "{fault}")?;
    same(&rt, text.as_str(), "a name: not you");
    Ok(())
}

#[test]
fn programs_end(rt: HostRuntime) {
    let well: Result<bool, CommandFault<'_>> = Ok(true);
    same(&rt, ended(&rt, "greet", well), ExitCode::SUCCESS);
    let not_well: Result<bool, CommandFault<'_>> = Ok(false);
    same(&rt, ended(&rt, "greet", not_well), ExitCode::FAILURE);
    let refused = Err(CommandFault::Usage("greet [NAME]"));
    same(&rt, ended(&rt, "greet", refused), ExitCode::from(4));
}

/// A file that is there is read, and one that isn't is told by its name; a text is printed.
#[test]
fn files_are_opened(rt: HostRuntime) -> Result<(), Fail> {
    let id = process::id(rt.process());
    let path = format!(in rt.alloc(); "/tmp/test_records_{id}")?;
    fs::write(&rt, path.as_str(), "you")?;
    let mut buffer = [0u8; 8];
    let read = open(&rt, path.as_str())?.read(&mut buffer)?;
    fs::remove_file(&rt, path.as_str())?;
    same(&rt, buffer.get(..read), Some(b"you".as_slice()));
    let Err(fault) = open(&rt, path.as_str()) else {
        return Err(Fail::from("a file that isn't there"));
    };
    let text = format!(in rt.alloc(); "{fault}")?;
    same(&rt, text.as_str().starts_with(path.as_str()), true);
    same(&rt, print_text(&rt, "").is_ok(), true);
    Ok(())
}
