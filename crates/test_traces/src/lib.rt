//! Tests of traces in the Common Trace Format, by worked bytes and texts: written, read, and told. They stand in a crate above these
//! libraries, so that none of them is proved again with its tests.
//!
//! | Module | Tests of |
//! |---|---|
//! | `writing` | dspec_ctf: `packets` (as taken), `by_time`, `rows` (files by time while it runs), `metadata_texts`; dspec_ctf_reading: `fronts` |
//! | `in_memory` | dspec_ctf: `packets` of batches, what is lost and told again; the `metadata` in a room |
//! | `reading` | dspec_ctf_reading: `metadata`, `packets` |
//! | `folders` | dspec_ctf_reading: `files`, `telling`, `times`, over the file and metadata of `samples` |
//! | `same` | the one comparison of all, and what more than one module has |
#![tactic(auto)]

#[cfg(test)]
mod folders;
#[cfg(test)]
mod in_memory;
#[cfg(test)]
mod reading;
#[cfg(test)]
mod same;
#[cfg(test)]
mod writing;
