//! The deeds of a session and what is read off their list: which deed may come next, what each CPU was offered, accepted
//! and counts, and the fate of every record.
//!
//! It promises, as laws of every legal list (`specs/Legal.antt`), that what was taken is a prefix of what was accepted, that
//! a speculative record is accepted once at most and only after its own commit, and that every record has one fate
//! (`specs/Headline.antt`); and that a list of all CPUs is legal exactly as the lists of each CPU are (`specs/Owning.antt`,
//! `specs/Weaving.antt`). Stands on `dspec_record`, `dspec_buffer` and `dspec_word`; `dspec_core` gives all of it to its users.
//!
//! What is read off a list of deeds, the latest at its head.
//!
//! | File | What is in it |
//! |---|---|
//! | `calls.rt`, `config.rt`, `deed.rt`, `report.rt` | the types |
//! | `laws.rt`, `lists.rt`, `common.rt`, `rules.rt`, `filled.rt` | the laws, functions without a body: of every legal list; of one CPU's list, and of weaving; of the common part and the words; of whole lists; of a buffer that closes |
//! | `specs/`: History, Own | open, decided, callers, words, acknowledgements; what rests on a CPU's own deeds: its offers, buffers, batches |
//! | `specs/`: Legal | which deed may come next, in a common part over `Facts` and in a CPU's own part; `IsLegal` is both |
//! | `specs/`: Settling, Reports, Fates, Headline | what becomes of a buffer once its speculation is decided; counts, fates, the three laws |
//! | `specs/`: Refusals | a reservation that is refused, and the buffer that has refused one |
//! | `specs/`: Closes, FateAnswers, Ranges | the close; what a fate is answered as; the configuration |
//! | `specs/`: Owning, Marks, CpuShown, Weaving | the own part over one CPU's list; the mark of a slot; what a CPU's side shows; the lists of the CPUs put together |
//! | `specs/`: CommonDeeds, WordSteps, OthersDeeds, Rules | a deed as the common part sees it; the word after a deed; what stands after another's deed; what the conditions come to over a whole list |
//! | `proofs/`, sound lists | SoundLists, PresentIds, Word.., Staying.., Acked, Awaiting, Debtless, Emptied |
//! | `proofs/`, the headline | Prefixes, DeedOffers, DeedEffects, HeldOffers, FateCounts, Acceptance, Balance, ReportBounds, Headlines |
//! | `proofs/`, own lists and weaving | DeedReads, OwnReads, Marks, Dropping, OwnStates, OwnParts, OwnAccounts, BareReads, BareSound, SealsPut, SoloOwed, WovenLists, PlacedSeals; Sample, a small list on which the premises are met |
//! | `proofs/`, the rest | CommonDeeds and WordsMade (words), WholeLists (rules), FullBuffers (policy Fill) |
#![tactic(auto)]

pub mod calls;
mod common;
pub mod config;
pub mod deed;
mod filled;
mod laws;
mod lists;
pub mod report;
mod rules;

pub use calls::{
    Actor, Answer, ConsumerOp, CpuOp, Decided, Op, Opening, Served, Spoken, Traced, Turn,
};
pub use common::{common_part, others_leave, word_changes};
pub use config::{Config, Policy, StartFault};
pub use deed::{DecideFate, Deed, SpeculateFate, TraceFate};
pub use filled::{closed_for_good, empty_fits, full_drops, never_sealed, refused_closes};
pub use laws::{acceptance_law, fate_law, prefix_law};
pub use lists::{
    bare_shows, own_marks, own_parts, own_reads, own_report, own_sides, placed_seals, weaving,
    woven_headline,
};
pub use report::Report;
pub use rules::{batch_drops, given_below, late_once, settled_once};
