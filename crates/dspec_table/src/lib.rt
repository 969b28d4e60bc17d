//! The words that all CPUs and the consumer of a session share, and the atomic steps on them.
//!
//! Between any two steps there is one list of deeds, legal in its common part, that the words show; each seat's part of it is
//! the list that the seat keeps, and each seat has seen a beginning of it (`specs/Rule.antt`). What a call adds to it, by the
//! call in flight and by what its one step showed, is `specs/Acts.antt` and `specs/Steps.antt`; what it asks of its seat is
//! `specs/Conditions.antt`. No call waits, and only `start` takes memory. Two laws (`refinement.rt`) say that a step at the words
//! enters the deeds of a play's step, and that the words show one list. Stands on `dspec_interleaving`, `dspec_deeds`,
//! `dspec_word` and the kit's `atomic_table`.
//!
//! | File | What is in it |
//! |---|---|
//! | `rule.rt`, `seats.rt`, `doing.rt` | `View`, what a seat knows, as plain data, and the rule `OneList`; `Words`, `CpuSeat`, `ConsumerSeat`; `Doing`, the call in flight |
//! | `layout.rt`, `laws.rt`, `word_steps.rt` | where the words lie, each slot's on a line of its own; the laws; what each kind of step tells `atomic_table`, and `HasDoing`, the marker that says which call a step is of |
//! | `starting.rt`, `gathering.rt`, `last.rt`, `ending.rt` | the two ends, and `LastWords` |
//! | `loading.rt`, `opening.rt`, `trying.rt`, `releasing.rt`, `settling.rt` | a CPU's steps: activity and word loaded, `open_word`, `try_word`, `release_word`, `store_ack` |
//! | `cleaning.rt`, `stopping.rt`, `asking.rt`, `meeting.rt` | the consumer's steps, and the meeting |
//! | `refinement.rt` | the laws `same_steps` and `words_show_one_list`: what the words do is what a play does |
//! | `specs/`: Rule, Showing, Owners, Holders, Since | `Kept`; that the words show a list; whose each deed and each seat is; a list that goes on by deeds of others |
//! | `specs/`: Flights, Acts, Steps, Conditions, Asks | which call of a seat is in flight; what a step at the words measures, and the deeds that the table of steps enters by it; `Found` and `Entered`, one relation a kind of step, and `TriedExchange`, what an exchange of a call came to; what a call asks of its seat |
//! | `specs/`: Notes, Meeting, Seats, Last, Layout | splits and joins of views; `Met`; seats; `Ended`; places |
//! | `specs/`: SameSteps, OneList | what a seat's step measures where its words show a list; when a call of a play and a call at the words are the same, and which step at the words is the play's; `ShowOneList` |
//! | `proofs/`: Adding, Keeps, Changes | `acts_asking`, the lemma that all deeds go through; its forms for loads and exchanges (`Owes` for deeds that move no word) |
//! | `proofs/`, one a kind of step | Activity, Loads, Opens, Tries, Releases, Halting, Settlements, Reaping, Looking, AsksKept |
//! | `proofs/`, the rest | InFlight, the rows of the table; Totals, Joining, AtStart, Dealing, AtEnd, Limits, Grows, Commits, Waiting, Pasts; Flights for the crates above: what a call on an identifier may do next |
//! | `proofs/`: SameDeeds, ConsumerMakes, SeatsDid | of `same_steps`: a CPU's places, the consumer's, and what the words' functions promise, over a play's list |
#![tactic(auto)]

mod asking;
mod cleaning;
mod doing;
mod ending;
mod gathering;
mod last;
mod laws;
mod layout;
mod loading;
mod meeting;
mod opening;
mod refinement;
mod releasing;
mod rule;
mod seats;
mod settling;
mod starting;
mod stopping;
mod trying;
mod word_steps;

pub use doing::Doing;
pub use last::LastWords;
pub use laws::deeds_have_seats;
pub use layout::words_lie_apart;
pub use refinement::{same_steps, words_show_one_list};
pub use rule::{OneList, Past, View};
pub use seats::{ConsumerSeat, CpuSeat, Words};
pub use word_steps::HasDoing;
