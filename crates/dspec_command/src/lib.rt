//! What the programs' command lines have in common: the words, what is found in them, the inputs that they name, and how a fault is
//! told: one line of standard error, after the program's name, and a status by its kind.
//!
//! | File | What is in it |
//! |---|---|
//! | `asking.rt`, `input.rt`, `fault.rt` | `words_of`, `asked_of`; an input that keeps why it failed; faults and how they are told |
#![tactic(auto)]

mod asking;
mod fault;
mod input;

pub use asking::{ParsedCommand, asked_of, folder_arg, words_of};
pub use fault::{CommandFault, ExitFault, device_fault, ended, output_fault, print_text};
pub use input::{Input, open};
