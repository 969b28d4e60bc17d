//! The open paths of one CPU: a table, over the CPU's calls on speculations, that takes no memory after it is made.
//!
//! A path is a request's records, which wait until it is known whether they matter. It has a speculation, or two where it keeps its
//! last records; it is kept by commits, or thrown away by discards. `Paths` knows which speculations are whose. What becomes of each
//! path is promised on one page (`specs/PathPage.antt`): no record of a path that was thrown away was committed, none of a path that is
//! kept was thrown away but those that are counted as cut, each path ends once, and no end touches another's.
//!
//! | File | What is in it |
//! |---|---|
//! | `speculation_calls.rt`, `lent_cpu.rt`, `lent_calls.rt` | `SpeculationCalls`: the calls on speculations, for any CPU that has them; `LentCpu`: a CPU of a session, its records and its counts |
//! | `open_path.rt`, `path_key.rt`, `path_end.rt` | an open path; how its caller names it; how it ended |
//! | `paths.rt`, `asking.rt` | `Paths`: how it is made, what is asked of it, whose a path is |
//! | `beginning.rt`, `turning.rt`, `ending.rt` | a path that begins; one that goes on in a new speculation; one that is kept or thrown away |
//! | `whose.rt`, `every.rt` | the paths of one thread, or all |
//! | `path_counts.rt`, `count_laws.rt` | how many paths began and what became of them; that these are sums |
//! | `laws.rt` | that each call keeps the page, and what the page says of records |
#![tactic(auto)]

mod asking;
mod beginning;
mod count_laws;
mod ending;
mod every;
mod laws;
mod lent_calls;
mod lent_cpu;
mod open_path;
mod path_counts;
mod path_end;
mod path_key;
mod paths;
mod speculation_calls;
mod turning;
mod whose;

pub use count_laws::{
    adopting_balances, beginning_balances, discarding_balances, keeping_a_part_balances,
    keeping_balances, keeping_many_balances, losing_balances, no_path_balances,
    throwing_many_balances, turning_balances,
};
pub use laws::{
    adopting_keeps, beginning_keeps, discarding_keeps, keeping_a_part_keeps, keeping_keeps,
    no_path_keeps, one_cpu_decides_itself, one_cpu_has_fates, others_keep, records_have_fates,
    turning_keeps,
};
pub use lent_cpu::LentCpu;
pub use open_path::OpenPath;
pub use path_counts::PathCounts;
pub use path_end::PathEnd;
pub use path_key::PathKey;
pub use paths::{MAX_PATHS, Paths};
pub use speculation_calls::SpeculationCalls;
pub use whose::WhosePaths;
