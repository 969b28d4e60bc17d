//! Batches travel between a CPU and the consumer: two rings of two places each, one for the batches that a CPU hands on, one
//! for those that the consumer gives back.
//!
//! Each end knows what went through it, as lists (`specs/Known.antt`): what was handed and which spares came, what was taken
//! and what was given back. It promises that a refused batch comes back with nothing changed, that what was taken and what
//! `drain_beside` then gives are what was handed, in order, and that the spares that came are the first of those given
//! back. A move is one push or one pop, and only `pair` takes memory. Stands on `dspec_buffer` and on the kit's `rtrb`.
//!
//! | File | What is in it |
//! |---|---|
//! | `batch.rt`, `pairing.rt` | `Batch`; `pair` |
//! | `cpu_end.rt`, `consumer_end.rt`, `drained.rt` | `CpuEnd`; `ConsumerEnd`; `drain_beside` |
//! | `numbered.rt`, `rings.rt`, `moves.rt` | what the ring promises the consumer's thread; the two halves that an end has, moved by `push` and `pop` alone, which count; `Moves`, a count for clauses alone, of no bytes, proved by hand |
//! | `specs/`: Known, EndFields | an end as what it knows: its pair, what went through it, the free places (`room`), the batches that come next (`waiting`), its moves; how the kit's halves say it |
//!
//! How a crate above uses it: a struct with a `CpuEnd` sees `end.handed`, `end.spares`, `end.pair`; each call's clauses `pair` and
//! `handed`/`spares` (`given`/`taken` of the consumer) say what stays. Whoever moves an end to a thread keeps its identity by a promise
//! (`kept_by = { λ taken end. end.pair ≡ taken.0.value.pair }` over a `Snapshot` of it), and so meets the condition of `drain_beside`
//! when both are back: `test_words/src/rings/crossing.rt` does. In specs of a crate above an end is
//! `Rattle.dspec_ring.specs.declared.cpu_end.CpuEnd.{CpuEnd}` (or `Known.{CpuKnows}`), a batch `declared.batch.Batch.{Batch}`.
#![tactic(auto)]

mod batch;
mod consumer_end;
mod cpu_end;
mod drained;
mod moves;
mod numbered;
mod pairing;
mod rings;

pub use batch::Batch;
pub use consumer_end::ConsumerEnd;
pub use cpu_end::CpuEnd;
pub use drained::{Drained, drain_beside};
pub use pairing::pair;
