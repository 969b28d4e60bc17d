//! Tests of dspec_paths: a table of paths over a CPU of a session, on one thread.
//!
//! | Module | Tests of |
//! |---|---|
//! | `staging` | a CPU of a session of its own, and what the tests compare |
//! | `counts` | how many paths began, and what became of them |
//! | `paths` | paths that begin, turn, are kept, thrown away, adopted; those of a thread, and all; what is refused |
#![tactic(auto)]

#[cfg(test)]
mod counts;
#[cfg(test)]
mod paths;
#[cfg(test)]
mod staging;
