ghost use Rattle.std.specs.Prelude.{IfErr, IfOk};
ghost use Rattle.dspec_command.specs.{Faults.IsOfDevice, Inputs.IsToldOfInput, Inputs.IsUnread};

use crate::fault::{CommandFault, device_fault};
use std::fs::File;
use std::io;
use std::io::Read;

/// An input with its name, which keeps the system's reason where a read of it fails.
#[derive(Drop)]
pub struct Input<'a, R: Read + Drop> {
    name: &'a str,
    input: R,
    reason: Option<io::Error>,
}

impl<'a, R: Read + Drop> Input<'a, R> {
    /// An input of that name.
    pub fn new(name: &'a str, input: R) -> Input<'a, R>
        ensures { IsUnread name.entry.now result }
    {
        Input {
            name,
            input,
            reason: None,
        }
    }

    /// What is told of the last read that failed, if one did.
    pub fn fault(&self) -> Option<CommandFault<'a>>
        ensures { IsToldOfInput self.now result }
    {
        match self.reason {
            Some(reason) => Some(device_fault(self.name, reason)),
            None => None,
        }
    }
}

impl<'a, R: Read + Drop> Read for Input<'a, R> {
    ghost remaining = { λ i. R.remaining i.input };

    fn read(&mut self, buf: &mut [u8]) -> io::Result<usize> {
        let result = self.input.read(buf);
        if let Err(reason) = result {
            self.reason = Some(reason);
        }
        result
    }
}

/// Opens the file of that name to be read. Which file the system opens no clause can say.
pub fn open<'a>(rt: &HostRuntime, name: &'a str) -> Result<Input<'a, File>, CommandFault<'a>>
    ensures opened { IfOk result (IsUnread name.entry.now) }
    ensures refused { IfErr result (IsOfDevice name.entry.now) }
{
    match File::open(rt, name) {
        Ok(file) => Ok(Input::new(name, file)),
        Err(reason) => Err(device_fault(name, reason)),
    }
}
