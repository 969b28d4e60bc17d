//! Tests of sessions: a CPU's calls, the consumer by hand, and whole sessions that are called from one thread. They stand in a crate
//! of their own, so that no session is proved again beside them.
//!
//! | Module | Tests of |
//! |---|---|
//! | `cpus` | dspec_cpu: two CPUs of one thread, as tables, where no schedule of a session has what they do |
//! | `sessions` | dspec_session_core: the consumer by hand (`asking`, `batches` with each refusal), and whole sessions where no schedule has what they do (`speculations`, `refusing`, `damage`, `growths`; `staging` plays the calls of `calls`); dspec_session: `demonstration`, `demonstrated`. All other whole sessions are schedules of `examples/`, with their bytes |
#![tactic(auto)]

#[cfg(test)]
mod cpus;
#[cfg(test)]
mod sessions;
