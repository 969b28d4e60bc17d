//! A schedule that has been read is played here in two ways: by the player, and on a session.
//!
//! By the player: an input is read to its end, and the schedule that its text says is played over its own schema (`play_text`). It
//! promises that what was read is the input's bytes, that a play is that of the schedule which the text says, and that a line that
//! is told is the first one at which the text says none, or the one whose turn the play refuses (`specs/PlayedTexts.antt`).
//!
//! On a session: a schedule of whole calls, from one thread (`replay`). The consumer meets each CPU after each call, and the end
//! leaves what a play of the same schedule leaves, but for the deeds. The answers and the counts are the session's; the records are
//! read back from the texts of the batches taken and of what is left, whose bytes are kept beside them. It promises that it ends,
//! and makes each call under that call's conditions; that each turn is made, in order, by its actor; and that a refusal is due.
//! That it answers as the player does isn't promised: `examples/replay` and the program `fuzz` compare both.
//!
//! Stands on `dspec_schedule`, which reads, on `dspec_core`, whose `play` answers for the play itself, and on `dspec_session_core`.
//!
//! | File | What is in it |
//! |---|---|
//! | `input.rt`, `played.rt` | `read_whole`, with its limit; `play_text`: which schema plays. `specs/PlayedTexts`: that a play is the one of the schedule which a text says, and which faults are due |
//! | `playing.rt`, `whole_calls.rt`, `calls.rt`, `taken.rt`, `closing.rt`, `session_fault.rt`, `replaying.rt` | a session whose calls are turns; a call by its kind; the consumer's calls; the batches taken; what is left, as an outcome; why it doesn't go on; whole schedules. `specs/Replayed`: which call a turn is, and why it isn't played |
#![tactic(auto)]

mod calls;
mod closing;
pub mod input;
pub mod played;
mod playing;
mod replaying;
pub mod session_fault;
mod showing;
mod taken;
pub mod texts;
pub mod whole_calls;

pub use input::{InputFault, read_whole};
pub use played::{Played, play_text};
pub use replaying::{replay, replay_schedule};
pub use session_fault::SessionFault;
pub use showing::printed_with_bytes;
pub use texts::{BufferOrigin, ReadBuffer, Replayed};
pub use whole_calls::{Uncalled, call_cpu, is_accepted, meet_all, run_cpu};
