//! The text of a schedule and the text of its play: what the lines of a schedule say, or which of them has the first
//! fault, and what the outcome of a play prints.
//!
//! It promises that what is read is the schedule that a text says, as a function of its bytes (`specs/Reading.antt`), that
//! a line that is told is the first one with a fault, of its first kind, and that what is printed is the text of the
//! outcome (`specs/Printed.antt`). It plays nothing: it stands on the types of `dspec_deeds` and `dspec_interleaving` alone, and
//! the program `specplay` stands between.
//!
//! | File | What is in it |
//! |---|---|
//! | `words.rt`, `number.rt`, `setup.rt`, `grammar.rt` | lines, words, numbers; the configuration, the header, the policy and the enablings; turns |
//! | `schedule.rt`, `printing.rt`, `fault.rt` | the whole schedule, and a refusal told at its line; the text of a play; the kinds of faults |
//! | `specs/`: Reading (with Words, SetUp, Calls, Steps), Printed, Schedules | the reading of a text as a function: the schedule, or the line and the kind of the first fault; the text that an outcome prints; what a schedule in memory holds |
#![tactic(auto)]

pub mod fault;
mod grammar;
mod number;
mod printing;
pub mod schedule;
mod setup;
mod words;

pub use fault::{LineKind, ScheduleFault};
pub use printing::{print_record, printed, yes_or_no};
pub use schedule::{Schedule, read_schedule};
