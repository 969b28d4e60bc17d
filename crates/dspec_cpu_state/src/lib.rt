//! What a CPU holds by its own deeds alone, and what each of its deeds makes of that.
//!
//! A side shows a list of its CPU's own deeds (`specs/CpuStates.antt`): numbers, marks, acknowledgements, buffers and counts are what
//! is read off the list. Each operation says so of every list that the side showed before, with the deed in front. It takes no
//! memory but at the start, and knows neither the words that all CPUs share nor a ring.
//!
//! A side is generic over its buffer, and knows no words and no rings. An operation's contract says of every list that the side showed
//! that it now shows it with the deed in front, and what stays as it was.
//!
//! | File | What is in it |
//! |---|---|
//! | `cpu_state.rt`, `counts.rt` | `CpuState`: calls and seals made, acknowledgements, marks, speculative buffers of the slots and the drops from each, the active buffer, its drops, the counts; `Counts` |
//! | `marks.rt` | `Marks`: a place for each number that an identifier's slot can have, so that it is looked up before it is known to be one of the session's |
//! | `fitting.rt`, `tracing.rt`, `granting.rt` | whether a record fits, whether the buffer is closed; a trace; a record that a speculation is granted, and what the CPU has of a slot |
//! | `blocks.rt` | a block measured; a decision and a settlement, by which it is copied, lost or thrown away; a call that decided nothing |
//! | `scanning.rt`, `sealing.rt` | a scan begun, a slot missed; a seal |
//! | `specs/`: CpuStates, Counting | `ShowsList`, that a side shows a list of its CPU's own deeds, and `IsCaller`; the counts of a list, and what a deed adds to them |
//! | `specs/`: Showing | what an operation says of each list that the side showed before it |
//! | `specs/`: MarkPlaces | the slots' marks, as a list, and where `Marks` holds them |
//! | `proofs/` | Tallies (what a deed adds), Starts, Quiet (a deed that touches no buffer, mark, acknowledgement or batch), Rooms (whether a record fits), Grants and Drops (a record that was granted), Ones and EndedBlocks (one lemma for commit, discard and settle), Unanswered, Places |
#![tactic(auto)]

mod blocks;
mod counts;
mod cpu_state;
mod fitting;
mod granting;
mod marks;
mod scanning;
mod sealing;
mod tracing;

pub use blocks::{committed_as, settled_as};
pub use counts::Counts;
pub use cpu_state::CpuState;
pub use marks::Marks;
