//! Plays: what each atomic step of a call makes of the list of deeds, and what a whole schedule leaves.
//!
//! It promises, as laws over every interleaving of steps (Step, Play and Turns of `specs/`), that the list is legal
//! throughout, that calls end within their bounds, that what one CPU decides alone it releases itself, and what whole calls
//! and whole schedules answer. Stands on `dspec_deeds`; `dspec_core` gives all of it to its users.
//!
//! | File | What is in it |
//! |---|---|
//! | `flight.rt`, `refusal.rt`, `outcome.rt`, `series.rt` | the types; `Series` is a growing list that contracts see as a list |
//! | `laws.rt` | the laws |
//! | `specs/`: Step, Play, Turns, Coherent, Bounds | the one table of what each atomic step of a CPU does, by the call in flight, what it was shown and what it measures; a play, which measures off the list; begins, steps, runs; what holds between two steps; the most steps of each call |
//! | `specs/`: Plays, ReadOff, Wearing, Calls | a whole schedule; an answer read off the call's own deeds; which calls are Worn; refusals |
//! | `specs/`: SoloRule, Whole, WholePlays, Promised, CpuClose | the solo rule; whole calls, said of the list that they find; what is promised of every state; the close by the CPUs' own lists |
//! | `proofs/`, each step keeps a play coherent | Steps.., CpuSteps, OthersStand, StateStands, ConsumerSteps, Coherence |
//! | `proofs/`, bounds and the close | Bounded, StepDeeds, StepEnds, StepCounts, Closing, ClosedParts |
//! | `proofs/`, whole calls and plays | Whole.., PlayerMoves, PlayerRuns, PlaysCarry, PlaysEnd, OwnTelling, OwnAnswersPlay, WornCpuSteps, FlightsStay (one walk of each table, for what every step does), WornCounts |
#![tactic(auto)]

pub mod flight;
mod laws;
pub mod outcome;
pub mod refusal;
pub mod series;

pub use flight::{CallPlace, ConsumerFlight, ConsumerProgress, CpuProgress, Spare};
pub use laws::{
    bounded_steps, close_is_legal, schedule_answers, schedule_legality, solo_rule, whole_calls,
    whole_plays, whole_release, worn_rule, woven_close,
};
pub use outcome::{Close, Outcome, PlayFault};
pub use refusal::{BeginFault, StepFault, Stepped};
pub use series::Series;
