//! Tests of dspec_parking: blocks by key in a ring, on one thread.
//!
//! | Module | Tests of |
//! |---|---|
//! | `blocks` | blocks that come out, are evicted, expire or are left; what is refused; the counts |
#![tactic(auto)]

#[cfg(test)]
mod blocks;
