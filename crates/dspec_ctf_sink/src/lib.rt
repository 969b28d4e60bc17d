//! A sink that writes a trace folder of the Common Trace Format while a session runs, so that other tools open what was kept.
//!
//! A folder has the file `metadata` and one file a CPU, `cpu_0`, `cpu_1`, ..; each batch becomes packets, and those one write, as
//! it comes, so that memory doesn't grow with the trace. What a call adds to a folder stands in `specs/Writing.antt`. Stands on
//! `dspec` and `dspec_ctf`.
//!
//! | File | What is in it |
//! |---|---|
//! | `folder.rt`, `system.rt` | `Folder`, a place that takes writes, with a ghost list of them and their answers; `SystemFolder`, one of the system, which has to be empty; it and its files are held open |
//! | `room.rt` | `KeptRoom`: room that is kept on the disk for a trace's last packets |
//! | `held.rt` | `HeldFile`: a file that is held open and has whole writes alone; what a failed write left is cut off |
//! | `made.rt` | `make_file`: at which path a file is made, nothing but this code knows |
//! | `counted.rt` | `CountedFile`, a file of the system, and the path at which it was made: the only calls that write it and cut it, and what their answers tell of its bytes |
//! | `file_log.rt` | `FileLog`: what a folder was asked for, and what was answered of a file, for clauses alone; it has no bytes, and its two bodies are proved by hand |
//! | `tracing.rt`, `fault.rt` | `TraceFolder`, the sink: metadata first, then the packets of each batch, one write; what a refused write loses is counted, and the next batch is tried |
//! | `next.rt` | the packets of a batch, with one in front that tells of none missed where some are told first |
//! | `losing.rt`, `telling.rt`, `laws.rt` | `Loss` and `Lossy`, which tell what wasn't written; `Telling`, a sink whose losses are printed while it runs; the law that nothing is lost uncounted |
//! | `timed.rt` | `TimedFolder`, the sink by time: several files for each CPU, packets for each run of a batch's records, one write |
//! | `ending.rt` | `Untold`, `tell_untold`: what reports count as lost beyond what batches told (`specs/Ending`, `proofs/OneMore`) |
//! | `identity.rt` | `Identity`: a uuid of the system's random bytes, the machine's name, the process's number |
//! | `specs/`: Writes, Writing, Timed, Faults, Held | a write and its answer, and what writes leave of a file; what a call adds or loses; the same by time; which faults a place has; what a file has after a write, and a folder's files of all that it was asked for |
//! | `specs/`: FileLogs | one note more |
//! | `specs/`: Losses, Accounts | what is kept of losses; that records in packets and what is counted add up |
//! | `proofs/` | Handing (packets are handed to the place), Following (runs after one another), Cutting (bytes after others, cut off again), Silent (an empty text has packets), Batching, Counting, Timely and Accounting (what a batch adds, counts and loses), Written and Tying (files have what the folder was asked for), Walks (a step of the proofs by hand) |
#![tactic(auto)]

mod counted;
mod ending;
mod fault;
mod file_log;
mod folder;
mod held;
mod identity;
pub mod laws;
mod losing;
mod made;
mod next;
mod room;
mod system;
mod telling;
mod timed;
mod tracing;

pub use dspec_ctf::{
    ClockStart, Form, Kind, Names, Origin, ProbeNames, Process, Stream, first_refused, metadata,
    metadata_from,
};
pub use ending::{Untold, tell_untold};
pub use fault::FolderFault;
pub use folder::Folder;
pub use identity::Identity;
pub use losing::{Loss, Lossy};
pub use room::KeptRoom;
pub use system::SystemFolder;
pub use telling::Telling;
pub use timed::TimedFolder;
pub use tracing::TraceFolder;
