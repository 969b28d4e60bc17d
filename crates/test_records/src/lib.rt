//! Tests of what holds no session, by worked examples: records and their probes, buffers, words, and what programs have in common.
//! They stand in a crate above these libraries, so that none of them is proved again with its tests.
//!
//! | Module | Tests of |
//! |---|---|
//! | `records`, `laying`, `packed`, `stamps` | dspec_record: records and their bytes, records that write themselves, records as words, stamps |
//! | `buffers` | dspec_buffer: both buffers, and the reader of a stored text |
//! | `words` | dspec_word: the rows of its tables, identifiers |
//! | `texts` | what values of these print |
//! | `probes` | dspec_probe: `declaring`, `numbers`, `reading` |
//! | `dice` | dspec_samples; what it finds in damaged sessions is `tests/made-sessions.txt` |
//! | `commands` | dspec_command: `asking`, `telling` |
//! | `same` | the one comparison of all |
#![tactic(auto)]

#[cfg(test)]
mod buffers;
#[cfg(test)]
mod commands;
#[cfg(test)]
mod dice;
#[cfg(test)]
mod laying;
#[cfg(test)]
mod packed;
#[cfg(test)]
mod probes;
#[cfg(test)]
mod records;
#[cfg(test)]
mod same;
#[cfg(test)]
mod stamps;
#[cfg(test)]
mod texts;
#[cfg(test)]
mod words;
