//! The calls of one CPU of a session, over the shared words, its end of the rings and buffers of its own.
//!
//! A CPU has a list of its own deeds where its seat has that list without the Seals, the list is legal in the CPU's own part,
//! and buffers, marks, acknowledgements, batches and counts show it (`specs/Lists.antt`). Each call appends the deeds of its
//! answer (`specs/Calls.antt`) to every list that the CPU has. No call waits, and only `make` takes memory.
//!
//! | File | What is in it |
//! |---|---|
//! | `cpu.rt`, `parts.rt`, `calls.rt` | `Cpu`, whose model keeps that no call of it is under way and that its fields show a list; `CpuParts`, its fields: the value that contracts see; its six calls, each a call of its parts |
//! | `values.rt`, `standing.rt`, `making.rt`, `meeting.rt`, `reporting.rt` | records by their values; `invariant`, `schema`, `number`; the start; meetings; reports, the drops of a speculation, what is open in a slot, and its text |
//! | `tracing.rt`, `speculating.rt`, `deciding.rt`, `opening.rt` | trace; speculate; commit and discard; speculation |
//! | `if_room.rt` | whether the CPU's block of a speculation has room, and a commit where it has |
//! | `serving.rt`, `sealing.rt`, `settling.rt` | service: a batch handed on, a spare found, the active buffer sealed; `settle_due`, which settles a slot where that is due; `settle_block`, which ends a block that was decided |
//! | `scanning.rt`, `holding.rt`, `reaching.rt` | the steps of a scan; of an identifier whether its slot is one of the session's, and what its block measures; `go_on`, the steps of a call on an identifier |
//! | `rest.rt`, `rested.rt`, `resting.rt`, `kept_rest.rt` | `CpuRest` and `Cpu::part`, for the close; `KeptRest`, the same without its schema |
//! | `listed.rt`, `callable.rt`, `shared.rt` | ghost traits; `Shared` |
//! | `specs/`: Standing | `CpuIdentity`, which CPU it is; `Belongs`, that it is one of these words: all that a caller shows |
//! | `specs/`: Called, OneCall | `called`: what a CPU's calls did, in the words of the page, and what one more adds by its answer; one relation for each call |
//! | `specs/`: Lists, Keeping | `HasList`, `IsShown`, `IsSteady` (the invariant); `CallLeaves`, what each call that counts keeps; what stays of a CPU that is worn, or met the consumer |
//! | `specs/`: Calls, Reaching, Reached, Stops, Scans | `Goes`, a chain of a seat's steps; `Does`; a call on an identifier, while it runs and where it ended; that a stop is heeded; a call of speculation |
//! | `specs/`: Switching, Settled, Serving, Sealed, Rests, Dropped, OpenAt, BlockAt | a switch; one slot and all slots; both together; batches by a list; the close; how many drops are told; of which speculation of a slot a CPU has records, and their text |
//! | `proofs/` | Limits, Makes, After, Shown, Ready, Traces, Mine, Outside, Retries, ReachDeeds, Reaches, Marked, Speculates, Decisions, Decided, Leaves, Commits, Discards; Slots, Scans, OpeningCounts, Openings; Seals, Switches, Heeding; OwnBlocks, Settlements, Services, ServedSlots; Closes, Rests, LegalParts, Stopping; OpenAts, BlockAts, Rooms (what is asked without a call); Told, Telling (deeds told in the words of the page) |
//!
//! How a call is proved: its steps give a chain, the seat's new list and a legal list with that as its part (`Stands`); the operation
//! on the side says that it shows the list with the new deed in front, and so the CPU shows it (Shown); `ready_after` joins both.
#![tactic(auto)]

mod callable;
mod calls;
mod cpu;
mod deciding;
mod holding;
mod if_room;
mod kept_rest;
mod listed;
mod making;
mod meeting;
mod opening;
mod parts;
mod reaching;
mod reporting;
mod rest;
mod rested;
mod resting;
mod scanning;
mod sealing;
mod serving;
mod settling;
mod shared;
mod speculating;
mod standing;
mod tracing;
mod values;

pub use cpu::Cpu;
pub use kept_rest::KeptRest;
pub use listed::Listed;
pub use rest::CpuRest;
pub use rested::Rested;
pub use shared::Shared;
