//! What is read of a trace folder is what the session's promise calls each CPU's stream: laws above the writer (`dspec_ctf_sink`), the
//! reading (`dspec_ctf_reading`) and the session (`dspec`).
//!
//! | File | What is in it |
//! |---|---|
//! | `to_folder.rt`, `to_timed_folder.rt` | `trace_to_folder` and its three like: a whole session into a folder, as taken or by time, of one work or with workers, and what is read of that |
//! | `running.rt`, `folder_trace.rt`, `fault.rt` | a session that runs into a folder which is begun; what came of it; why there is none |
//! | `laws.rt`, `numbers.rt` | the laws, and what the types of an origin say of its numbers, as clauses of functions that have nothing to do |
//! | `specs/`: Laws | what is read of a session that was traced, whatever its work did: as taken and by time, and of either where some was lost |
//! | `specs/`: Reads, Folders, IntoFolders, Begun, Ran | what is read of a folder of either form, and of one into which a session was traced by one call; such a trace before its session, and after it |
//! | `specs/`: AsTaken, ByTime | which records are kept of batches where some are lost, as taken and by time; a CPU's files by time |
//! | `proofs/` | Naming (each CPU has a file of its own), OwnNumbers (each batch has its CPU's number), Asking and Losing (what one batch asks of the folder, where nothing or some is lost), Folding (what proofs of folders have in common; a file that is none of a CPU's stays), Keeping (what all batches bring to one CPU's file), Begun (a folder of either form with its metadata alone), Filled (one after that, and what is read of it), Placing (where the folder was made), Kept (where nothing is lost all is kept), Partly (what is known of one as taken) |
//! | `proofs/`, by time | RowNaming (each file of a CPU has a name of its own), Taking (packets that a place took), Filing (one batch, and a CPU's files), TimedAsking, TimedFiles, TimedLosing and TimedFronts (one batch), TimedBegun, TimedBounded (what is counted never falls), TimedKeeping and TimedPartly |
//! | `proofs/`, what was lost in all | Adding (one induction for both kinds of trace, over what one batch adds), Apart, Summing, Bounded (how much is counted at most, and what is answered, of both kinds), Answered, TimedAnswered (what one batch makes of the counts of each) |
//! | `proofs/`: Read; Told, Through, Carried, Counted, InFolder | the four laws, of a session whose promise is known; what one call's trace carried, by the numbers of its reports, and what is read of its folder |
#![tactic(auto)]

mod fault;
mod folder_trace;
pub mod laws;
mod numbers;
mod running;
mod to_folder;
mod to_timed_folder;

pub use fault::ToFolderFault;
pub use folder_trace::{FolderPlace, FolderTrace, StampClock};
pub use to_folder::{trace_to_folder, trace_workers_to_folder};
pub use to_timed_folder::{trace_to_timed_folder, trace_workers_to_timed_folder};
