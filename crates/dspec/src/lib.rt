//! The library as a program uses it: lanes, which are CPUs with all that their calls need, and paths, which are speculations that
//! have to be decided; records of probes by the types of their fields; a clock that stamps them.
//!
//! No call has a condition, but that a record is one of the schema where it is handed over whole. What a call promises is that it
//! leaves the lane the one that it is (`specs/Lanes.antt`), and what the CPU's call does. What a sink got of a whole session is
//! what its CPUs accepted (`specs/Passed.antt`). Whatever else a program needs is found here too. Stands on `dspec_session_core`
//! and on `dspec_probe`.
//!
//! `Recording::on` asks once whether a lane's schema has a probe, and no call of the lane changes that; from then on no record of the probe is
//! refused, and what a call does is what `Lane::trace` or `Lane::speculate` does with the record that the values stand for. `Steps`
//! is a lane, a path and a clock together: what it offers is stamped by that. Whoever wants the time of the machine gives a
//! `SystemClock` to `Steps`, or its `stamp` to `record`; nothing else here reads a clock. A clock is shared by reference, by all
//! lanes: no call writes to it.
//!
//! | File | What is in it |
//! |---|---|
//! | `lane.rt`, `calling.rt` | `Lane`: what is shared, and a CPU that is lent; that it can be called is its ghost field; its calls |
//! | `path.rt`, `handing.rt` | `Path`, a speculation that can't be let go: it is kept or thrown away, by any lane; `Handed`, the word that a path goes on as |
//! | `last_path.rt` | `LastPath`, a path over two speculations, which keeps its last records |
//! | `recording.rt`, `fault.rt` | `Recording`: records of probes on a lane and in a path; `ForeignProbe`, the refusal of `on` |
//! | `clock.rt`, `steps.rt`, `system.rt` | `Clock`, what stamps records; `Steps`, a lane, a path and a clock; `SystemClock`, the system's time in nanoseconds |
//! | `work.rt`, `running.rt` | `Work`; `Sink`, whose ghost relation `gets` says what a batch makes of it; `trace`; the consumer's round, and what is passed on at the close |
//! | `serving_on.rt` | a work that has returned: its lane serves until all works have |
//! | `worker.rt`, `workers.rt`, `stop.rt` | `Worker`, with a state of its own; `trace_workers`, which pairs CPUs and workers, lends each pair to a thread and takes them apart again; `Stop` |
//! | `record_sink.rt`, `both.rt` | sinks: all records kept; two sinks that get the same; one that may be left out, and the law of it |
//! | `closing.rt`, `each_closed.rt` | `closed_cpu`, `closed_cpus` (`specs/ClosedCpus`: what is left of which CPU, in order) |
//! | `specs/`: Lanes, Lent | `place_of`, which lane it is: all that a program says of its worker; what the threads are lent, and return |
//! | `specs/`: Walks, LastPaths, Counts | what steps do to a path; what records do to one that keeps its last; what the system's clock counts |
//! | `specs/`: Passed, SinkRecords | what a sink got of a session, chained call by call, and how that is what each CPU accepted (`HasLists`); what `RecordSink` keeps |
//! | `specs/`: Workers | what a worker did on the CPU of its place (`WorkedBy`), and pairs of both |
//! | `specs/`: Traced, Serving, Visits | `IsTraced`: the work that was done, and the page; `ThenServed`: services after a work; what the consumer does in a round |
//! | `proofs/` | Returning (with all CPUs and the consumer back it is a session again), Passing (lists of what is passed), Tracing (the whole), Standing, LeftAfter (one CPU more of those left), Visiting, Working (CPUs and workers in pairs, and apart again), Serving (what services after a work settled) |
#![tactic(auto)]

mod bad_record;
mod both;
mod calling;
mod clock;
mod closing;
mod each_closed;
mod fault;
mod handing;
mod lane;
mod last_path;
mod path;
mod record_sink;
mod recording;
mod running;
mod serving_on;
mod steps;
mod stop;
mod system;
mod text_sink;
mod work;
mod worker;
mod workers;

pub use bad_record::BadRecord;
pub use both::{Both, sink_stays};
pub use clock::Clock;
pub use closing::{ClosedCpu, closed_cpu, closed_cpus};
pub use dspec_buffer::{ReadFault, Reading, Records, read_all, read_prefix};
pub use dspec_cpu::{Cpu, Shared};
pub use dspec_deeds::{
    Config, Decided, Opening, Policy, Report, Served, Spoken, StartFault, Traced,
};
pub use dspec_probe::{
    Fields, Kind, Meaning, Probe, ProbeFault, ProbeNames, Probes, Text, Told, ToldField, Value,
};
pub use dspec_record::{Enablings, Field, Header, Rec, Schema, SchemaFault};
pub use dspec_ring::Batch;
pub use dspec_session_core::{Closed, Consumer, Session};
pub use dspec_word::SpecId;
pub use each_closed::ClosedCpus;
pub use fault::ForeignProbe;
pub use handing::Handed;
pub use lane::Lane;
pub use last_path::LastPath;
pub use path::Path;
pub use record_sink::{RecordSink, RecordSinkFault};
pub use recording::Recording;
pub use running::{pass_rests, trace, visit_all};
pub use steps::Steps;
pub use stop::Stop;
pub use system::SystemClock;
pub use text_sink::{ErrorOutput, TextSink, TextSinkFault, ToldLine};
pub use work::{Sink, Work};
pub use worker::Worker;
pub use workers::trace_workers;
