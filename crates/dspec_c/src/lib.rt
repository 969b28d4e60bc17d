//! What C calls of a session: handles, each call with its checks and its status, and the CPUs and the consumer that are handed out
//! and come home. `include/dspec.h` is its header. No exported call has a condition; each ends.
//!
//! | File | What is in it |
//! |---|---|
//! | `handle.rt`, `parts.rt`, `held.rt`, `boxed.rt` | a box in C's memory, which is lent for a call (the walks over raw pointers in `proofs/handle` and `proofs/parts`); room for what a handle can hold, which can't be let go but by going home where it was handed out; a schema, or the files of a CPU, in a box of its own |
//! | `out_cpu.rt`, `homing.rt`, `desk.rt`, `cpu_place.rt` | a CPU that is out, with its calls and their statuses; how it goes out and comes home, again and again, each time by a ring of its own; `out_consumer.rt`, `consumer_homing.rt`, `consumer_place.rt`, `consumer_side.rt` the same of the consumer, with the batches that are out |
//! | `under_way.rt`, `places.rt`, `gather.rt`, `close.rt`, `ended.rt` | a session from its start to its end |
//! | `tending.rt` | the services of CPUs that are at their places (`specs/Tending`) |
//! | `closing.rt` | the end in one call (`specs/Closing`, `proofs/AllHome`) |
//! | `statuses.rt`, `configs.rt`, `reports.rt`, `batches.rt` | what crosses |
//! | `schema_calls.rt`, `session_calls.rt`, `cpu_calls.rt`, `put_calls.rt`, `consumer_calls.rt`, `home_calls.rt`, `rest_calls.rt` | the exports |
//! | `ctf_calls.rt`, `ctf_statuses.rt` | the exports of a trace that C writes, and what they answer (`specs/CtfCalls`, `specs/CtfStatuses`) |
//! | `path_calls.rt`, `out_paths.rt`, `open_path.rt`, `path_counts.rt` | the exports of a table of a CPU's open paths, the CPU's calls on it, and what C reads of a path and of the counts (`specs/PathCalls`) |
//! | `parking_calls.rt`, `parked.rt` | the exports of a ring of parked blocks, and what C reads of them (`specs/ParkingCalls`) |
//! | `word_counts.rt` | how many words an export takes, as a type |
//! | `specs/`: Homes, Statuses, Shows, Handles, Lending | that a call leaves the same CPU of the same session; which number an answer is, and what goes out; what C reads, field by field; which handles are full, and of what; what lending keeps |
//! | `specs/`: Answered, CpuCalls, ConsumerCalls | what a status and an out parameter tell of an answer; what each call of a CPU and of the consumer did, by what its handle held before and after |
//! | `specs/`: SessionCalls, Widths, Configs, ClosedCalls | the same of schemas, sessions and what is left; fields by their widths; a configuration in C's memory |
//! | `../include`, `../examples/c`, `../examples/cpp`, `../bindings/rust` | `dspec.h`, `dspec_probe.h` (typed probes), `dspec_reader.h` (the records of a batch), `dspec.hpp` (C++20), the pkg-config file; `first` (the first program of docs/LIBRARY.md), `four`, `slow_sql`, `files` (preloaded); `requests`, a server in C++; the Cargo package `dspec` |
//! | `../bindings/rust-tracing` | the Cargo package `tracing-dspec`, a layer for `tracing` over `dspec`: `lanes.rs` lends CPUs, `consumer.rs` puts paths together |
#![tactic(auto)]

mod batches;
mod boxed;
mod close;
mod closing;
mod configs;
mod consumer_calls;
mod consumer_homing;
mod consumer_place;
mod consumer_side;
mod cpu_calls;
mod cpu_place;
mod ctf_calls;
mod ctf_statuses;
mod desk;
mod ended;
mod gather;
mod handle;
mod held;
mod home_calls;
mod home_cpu;
mod homing;
mod open_path;
mod out_consumer;
mod out_cpu;
mod out_paths;
mod parked;
mod parking_calls;
mod parts;
mod path_calls;
mod path_counts;
mod places;
mod put_calls;
mod reports;
mod rest_calls;
mod schema_calls;
mod session_calls;
mod statuses;
mod tending;
mod under_way;
mod word_counts;

pub use batches::CBatch;
pub use configs::CConfig;
pub use handle::Handle;
pub use open_path::COpenPath;
pub use parked::{CParked, CParkedCounts, CPassed};
pub use path_counts::CPathCounts;
pub use reports::CReport;
