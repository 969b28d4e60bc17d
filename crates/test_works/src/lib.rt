//! Tests of works in threads, of what goes from one lane to another, and of what their session owes them. Each compares worked values.
//!
//! | Module | Tests of |
//! |---|---|
//! | `visits` | dspec: what the consumer owes the CPUs while they work |
//! | `workers`, `serving_on` | dspec: workers with a state; a work that has returned takes no slot from the others |
//! | `handing`, `last_paths` | dspec: paths that are handed on; paths that keep their last records |
//! | `belts`, `barriers` | dspec_threads: paths over a belt, a lane that waits for the others |
//! | `verdicts`, `boards`, `attending` | dspec_threads: what is said of a path is settled on its lane, also while that waits |
//! | `lanes_out` | dspec_threads: lanes in threads of a program's own |
#![tactic(auto)]

#[cfg(test)]
mod attending;
#[cfg(test)]
mod barriers;
#[cfg(test)]
mod belts;
#[cfg(test)]
mod boards;
#[cfg(test)]
mod handing;
#[cfg(test)]
mod lanes_out;
#[cfg(test)]
mod last_paths;
#[cfg(test)]
mod serving_on;
#[cfg(test)]
mod verdicts;
#[cfg(test)]
mod visits;
#[cfg(test)]
mod workers;
