//! The names of a trace folder's files.

ghost use Rattle.std.specs.Prelude.{◌≡◌, IfOk, IfSome, string_bytes};
ghost use Rattle.dspec_folder_view.specs.Examined.{file_name};

use std::alloc::{AllocError, Global};
use std::fmt;

/// A file of a CPU.
#[derive(Debug, Clone, Copy, PartialEq, Eq, PartialOrd, Ord)]
pub struct FileName {
    /// The CPU's number.
    pub cpu: u32,
    /// Its own number, where the CPU has several files.
    pub number: Option<u32>,
}

impl fmt::Display for FileName {
    fn fmt<W: fmt::Write>(&self, f: &mut fmt::Formatter<W>) -> fmt::Result {
        let cpu = self.cpu;
        match self.number {
            Some(number) => write!(f, "cpu_{cpu}_{number}"),
            None => write!(f, "cpu_{cpu}"),
        }
    }
}

/// The name of a CPU's file.
pub(crate) fn text_of_name(alloc: Global, file: FileName) -> Result<String, AllocError>
    ensures { IfOk result (λ name. string_bytes name ≡ file_name file.cpu file.number) }
{
    let cpu = file.cpu;
    match file.number {
        Some(number) => format!(in alloc; "cpu_{cpu}_{number}"),
        None => format!(in alloc; "cpu_{cpu}"),
    }
}

/// The numbers in a name, where it looks like that of a CPU's file.
fn numbers_in(name: &str) -> Option<FileName> {
    let numbers = name.strip_prefix("cpu_")?;
    match numbers.split_once('_') {
        Some((cpu, number)) => Some(FileName {
            cpu: cpu.parse().ok()?,
            number: Some(number.parse().ok()?),
        }),
        None => Some(FileName {
            cpu: numbers.parse().ok()?,
            number: None,
        }),
    }
}

/// The file that has this name, if it is one of a CPU.
pub(crate) fn file_of_name(alloc: Global, name: &str) -> Result<Option<FileName>, AllocError>
    ensures { IfOk result (λ found. IfSome found (λ file. name.now ≡ file_name file.cpu file.number)) }
{
    let Some(file) = numbers_in(name) else {
        return Ok(None);
    };
    let text = text_of_name(alloc, file)?;
    if text.as_str() == name {
        return Ok(Some(file));
    }
    Ok(None)
}
