//! Tests of plays: by the player, and as pictures. They stand in a crate of their own, so that none of these libraries is proved again
//! beside them.
//!
//! | Module | Tests of |
//! |---|---|
//! | `player` | dspec_core: `plays` (whose deeds are compared), `worlds` (both buffers, refused calls), `looks` (what a world shows), `texts`, `values`; whole plays are data in `examples/` |
//! | `pictures` | dspec_picture; plays told step by step are data in `examples/` (`NAME.steps`) |
#![tactic(auto)]

#[cfg(test)]
mod pictures;
#[cfg(test)]
mod player;
