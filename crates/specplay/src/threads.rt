ghost use Rattle.std.specs.Prelude.{◌≡◌, ◌≢◌, ◌++◌, IfErr, IfOk, OnOk, string_bytes};
ghost use Rattle.specplay.specs.{Lines.CutOff, Lines.Printed, Lines.line_text, Lines.lines_text, Threads.status_of_threads};

use crate::runner::write_whole;
use dspec_schedule::yes_or_no;
use dspec_session::{DemoFault, DemoLine, Free, demo};
use std::alloc::{AllocError, Global};
use std::io::Write;
use std::sync::Wait;
use std::thread::Threads;
use thiserror::Error;

/// Why the demonstration's lines weren't printed.
#[derive(Clone, Copy, Debug, PartialEq, Eq, Error)]
pub enum ThreadsFault {
    #[error("gate shut")]
    GateShut,
    #[error("out of memory")]
    Memory,
    #[error("write fault")]
    Write,
}

impl ThreadsFault {
    /// The exit status that tells of the fault.
    pub fn status(&self) -> u8
        ensures { result ≡ status_of_threads self.now }
    {
        match self {
            ThreadsFault::GateShut => 1,
            ThreadsFault::Memory => 2,
            ThreadsFault::Write => 3,
        }
    }
}

impl From<AllocError> for ThreadsFault {
    ghost use Rattle.specplay.specs.declared.threads.ThreadsFault.TheVariants.{Memory};

    ghost from_gives = { λ _ fault. fault ≡ Memory };

    fn from(_refused: AllocError) -> Self {
        ThreadsFault::Memory
    }
}

impl From<DemoFault> for ThreadsFault {
    ghost use Rattle.specplay.specs.Threads.{threads_fault_of};

    ghost from_gives = { λ fault told. told ≡ threads_fault_of fault };

    fn from(fault: DemoFault) -> Self {
        match fault {
            DemoFault::GateShut => ThreadsFault::GateShut,
            DemoFault::Start(_) | DemoFault::Spawn => ThreadsFault::Memory,
        }
    }
}

// The line of a CPU.
fn print_line(text: &mut String, line: &DemoLine) -> Result<(), AllocError>
    ensures { OnOk result (string_bytes text.new ≡ string_bytes text.old ++ line_text line.now) }
{
    let (cpu, offered) = (line.cpu, line.offered);
    let (balanced, ordered) = (yes_or_no(line.balanced), yes_or_no(line.ordered));
    writeln!(
        text,
        "cpu {cpu} offered {offered} balanced {balanced} ordered {ordered}"
    )
}

/// One line a CPU.
fn text_of(alloc: Global, lines: &[DemoLine; 4]) -> Result<String, AllocError>
    ensures { IfOk result (λ text. string_bytes text ≡ lines_text lines.now) }
{
    let mut text = String::new(alloc);
    for line in lines {
        print_line(&mut text, line)?;
    }
    Ok(text)
}

/// Runs the demonstration with nobody held back, and writes its lines. Nothing is written before it has succeeded; after a write
/// fault a beginning of the lines has been.
pub fn run_threads<R: Threads + Wait, W: Write>(
    rt: &R,
    alloc: Global,
    output: &mut W,
) -> Result<(), ThreadsFault>
    ensures unwritten { IfErr result (λ fault. fault ≢ ThreadsFault.Write → output.new ≡ output.old) }
    ensures printed { OnOk result (Printed (W.contents output.old) (W.contents output.new)) }
    ensures cut_off { result ≡ Err ThreadsFault.Write → CutOff (W.contents output.old) (W.contents output.new) }
{
    let lines = demo(rt, alloc, &Free)?;
    let text = text_of(alloc, &lines)?;
    match write_whole(output, text.as_str()) {
        Ok(()) => Ok(()),
        Err(_) => Err(ThreadsFault::Write),
    }
}
