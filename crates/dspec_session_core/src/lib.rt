//! The consumer of a session, which asks the CPUs for batches, takes them, gives their buffers back, cleans slots, meets CPUs and
//! stops the session; the session's start, and its close.
//!
//! A session stays one while its parts are called (`specs/Sessions.antt`). Contracts see the consumer as its seat at the words and
//! its ends of the rings (`specs/Consumers.antt`), and each call says which steps the seat made and what went through which end;
//! nothing else changes. `finish` promises, for whichever lists the CPUs have, one legal list of all deeds that closes them
//! (`specs/Closing.antt`). No call waits, and none but `start` and `make` takes memory. Stands on `dspec_cpu`, `dspec_table` and
//! `dspec_ring`.
//!
//! | File | What is in it |
//! |---|---|
//! | `session.rt`, `starting.rt` | `Session`, and its start |
//! | `finishing.rt`, `parting.rt`, `parted.rt`, `left.rt`, `closed.rt`, `looking.rt` | the close: `all_stand` reads each CPU's condition; the CPUs are parted from their seats one after another, the words are closed, and what is left of each CPU is settled, in lists that have had their room since the start, so that no memory is taken |
//! | `consumer.rt`, `counted.rt`, `making.rt` | `Consumer`, which has the room that the close needs; an end of a ring with the numbers of batches taken and given back |
//! | `asking.rt`, `awaiting.rt`, `batches.rt`, `cleaning.rt`, `stopping.rt`, `meeting.rt` | its calls |
//! | `specs/`: Sessions, Closing, Leaving | what a session is, by the identities of its CPUs; what its end promises, a clause for each sentence; the parts of the close between its steps |
//! | `specs/`: Finish, Finishing | `FinishKeeps`, `FinishPromises`, `FinishCloses` and `FinishByOneList`, which the clauses of `finish` name, said of the session that is ended; the laws of the close, as sentences |
//! | `specs/`: Promised, Owed | `KeepsPage` and `IsPromisedBy`: what the close promises each CPU, by what its calls did (`called_at`), in short and by one list of all deeds; which settlements the close makes (`owes_settlement`, `owed_up`) |
//! | `specs/`: Consumers, ConsumerFields | a consumer as its seat and the list of what its ends know; its invariant; `Stays` |
//! | `specs/`: Asking, Awaiting, Batches, Cleaning, Stopping | one relation a call: `Asked`, `Awaited`, `Took` and `GaveBack`, `Cleaned` (the whole chain of the seat's steps), `Stopped` |
//! | `proofs/`, the close | ClosingLists, ClosingRecords, ClosingRests, Partings, Leavings, Ending; ClosingSaid, ClosedDeeds, PromisedBy, OwedSaid |
//! | `proofs/`, the clean | Waiting (a word that waits for every CPU stands until the consumer's exchange), Acknowledging, Halts, Ends, Asks |
//! | `proofs/`, the rest | Begins (a session at its start), Passing (batches), Standing; Callings, for the crates above: a session stays one where a part of it is called |
#![tactic(auto)]

mod asking;
mod awaiting;
mod batches;
mod cleaning;
mod closed;
mod consumer;
mod counted;
mod finishing;
mod laws;
mod left;
mod looking;
mod making;
mod meeting;
mod parted;
mod parting;
mod session;
mod starting;
mod stopping;

pub use closed::Closed;
pub use consumer::Consumer;
pub use laws::{close_of_lists, one_batch_left, settles_what_is_owed};
pub use session::Session;
