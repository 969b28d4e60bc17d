//! The door of sessions: a session with its start, its consumer and its close, which stand in `dspec_session_core`, and its demonstration
//! in threads. Users `use` this crate alone, and cite the definitions of both under its name. Where a field of a type is
//! named in a clause, crates.txt names the crate too in which that type stands.
//!
//! `demo` runs a session of four CPUs, each in a thread of its own, and tells of each what its report says. What the demonstration
//! promises stands in `specs/Races.antt` and `specs/Results.antt`. No call but `demo` and `demonstrate` waits or takes memory.
//!
//! | File | What is in it |
//! |---|---|
//! | `gate.rt`, `demonstration.rt`, `demonstration/` | `Gate`, `RoundGate`, `Free`; `demonstrate` and `demo`: a worker, the four threads, the consumer's rounds, whether values rise, the lines |
//! | `specs/` | Demonstrated (`CpuRounds`), Visits, Results, Crews, Races, Rising |
//! | `proofs/` | Scanned, Servings, Worked, Handles, Fours, Crews, Opened, Ended, Visited, Done |
#![tactic(auto)]

mod demonstration;
mod gate;

pub use demonstration::{DemoFault, DemoLine, Demonstration, demo, demonstrate};
pub use dspec_session_core::{
    Closed, Consumer, Session, close_of_lists, one_batch_left, settles_what_is_owed,
};
pub use gate::{Free, Gate, RoundGate};
