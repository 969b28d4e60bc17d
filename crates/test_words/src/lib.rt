//! Tests of the shared words and of the rings, on one thread and on two. They stand in a crate of their own, so that neither is
//! proved again beside them. The steps of a call in `calls` are a measurement's too.
//!
//! | Module | Tests of |
//! |---|---|
//! | `calls` | no tests: steps of a call on the first slot, for these tests and for bench |
//! | `steps` | no tests: the steps of which a call is told by a marker, for a call that is known as it runs |
//! | `words` | dspec_table, by calls on seats: a session of two CPUs, `deciding`, `joining`, `settling`, `meetings`, `threads` (of which one opens a slot), `growths`, `refusals` |
//! | `rings` | dspec_ring: `moves` (rings both ways, drains, the refused growth), `crossing` (two threads, 10,000 batches); `batches` tells batches apart |
#![tactic(auto)]

pub mod calls;
#[cfg(test)]
mod rings;
pub mod steps;
#[cfg(test)]
mod words;
