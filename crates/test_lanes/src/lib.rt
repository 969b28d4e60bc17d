//! Tests of sessions as a program has them: lanes, what they record and what is written of it. Each compares worked values.
//!
//! | Module | Tests of |
//! |---|---|
//! | `paths` | dspec: two lanes and what a sink gets |
//! | `probes` | dspec: `sessions`, `bytes`, `steps`, `foreign` |
//! | `clocks` | dspec |
//! | `refusals` | dspec: why there is no session, and what is told where records weren't kept |
//! | `folders`, `timed_folders`, `losses`, `endings`, `differences` | dspec_ctf_sink in memory: what a session writes, what is lost where a write is refused, what the end tells, what tools tell as missed |
//! | `disk` | dspec_ctf_sink on the system's disk |
//! | `to_folder` | dspec_trace_reading: a session into a folder of the system by one call |
//! | `same` | a comparison that some of them share |
#![tactic(auto)]

#[cfg(test)]
mod clocks;
#[cfg(test)]
mod differences;
#[cfg(test)]
mod disk;
#[cfg(test)]
mod endings;
#[cfg(test)]
mod folders;
#[cfg(test)]
mod losses;
#[cfg(test)]
mod paths;
#[cfg(test)]
mod probes;
#[cfg(test)]
mod refusals;
#[cfg(test)]
mod same;
#[cfg(test)]
mod timed_folders;
#[cfg(test)]
mod to_folder;
