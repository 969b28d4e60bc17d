//! What tests, tools and measurements have in common. By the worked examples: configurations, enablings, records, and a text with what a
//! reader tells of it once it is damaged. For programs of random calls: the random numbers by which they choose (one seed gives the
//! same on every machine), and logs of a session's calls, compared with what was recorded and reported. A contradiction is a
//! rule of the session that was broken; that none is found promises nothing.
//!
//! | File | What is in it |
//! |---|---|
//! | `setups.rt`, `subject.rt`, `texts.rt` | configurations and the four enablings; the records that are measured; a padded text and its damages |
//! | `dice.rt` | `Dice`: random numbers of a seed |
//! | `logging.rt`, `stories.rt`, `answers.rt`, `records.rt` | `LoggedCall`, `Log`; `Story`, all that is known of a session that has ended; what an answer says; records with a value of their own |
//! | `identifiers.rt`, `blocks.rt`, `calls.rt`, `order.rt`, `due.rt`, `checking.rt`, `flaws.rt`, `sums.rt` | the comparisons, `check`, which calls them in turn, contradictions and their texts |
//! | `made.rt`, `damaging.rt` | a session made up by hand, and its damages, one for each kind of contradiction at the least |
#![tactic(auto)]

mod answers;
mod blocks;
mod calls;
mod checking;
mod damaging;
mod dice;
mod due;
mod flaws;
mod identifiers;
mod logging;
mod made;
mod order;
mod records;
mod setups;
mod stories;
mod subject;
mod sums;
mod texts;

pub use answers::identifier_in;
pub use checking::check;
pub use damaging::{Change, DAMAGES, found};
pub use dice::Dice;
pub use flaws::{CheckFault, Checked, Flaw, FlawKind, Number};
pub use logging::{Log, LoggedCall};
pub use records::{KINDS, enable, record_of};
pub use setups::{four_enablings, sized};
pub use stories::{BatchContents, CpuBatches, Story};
pub use subject::{SUBJECTS, Subject, UNSTAMPED, timed_enablings};
pub use sums::Sums;
pub use texts::{PADDED_TEXT, WHOLE_TEXTS, cut_fault, damaged, damages, fault, fault_of, is_read};
