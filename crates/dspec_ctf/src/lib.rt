//! Traces in the Common Trace Format, version 1.8, which other tools open.
//!
//! What the bytes of an event and of a packet are stands in `specs/Packets.antt`, which packet is that of a batch in
//! `specs/Streams.antt`, which packets are those of a CPU by time in `specs/ByTime.antt`, or, while it runs, in `specs/Rows.antt` and `specs/Filled.antt`,
//! which names there may be in `specs/Names.antt`.
//!
//! | File | What is in it |
//! |---|---|
//! | `form.rt`, `names.rt`, `origin.rt`, `checking.rt` | `Form`; `Names`; `Origin`: whose trace it is; which names and labels can't be used |
//! | `text.rt`, `heading.rt`, `printing.rt` | `metadata_from`, `metadata`; the trace, its process and clock; its events |
//! | `packet.rt`, `stream.rt`, `by_time.rt` | the bytes of events and packets; `Stream`, which sums the drops of a CPU's batches; its packets by time |
//! | `rows.rt` | `Rows`: a CPU's files in a trace by time that is written while it runs; the runs of a batch, the packets of one, what tells what was missed |
//! | `filled.rt` | packets of 1,024 bytes, of files that are written while a session runs; those of a batch as taken |
//! | `records.rt`, `laws.rt`, `fault.rt` | packets of records in memory; the laws; the faults |
//! | `in_memory.rt`, `in_memory/` | traces by time for a program that writes its files itself: `CpuPackets` and its batches, `Packet`, `TraceIdentity`, `put_metadata`; their law and faults |
//! | `specs/InMemory/` | Filing (what is known of a CPU's files), Calls (what each call makes of it), Batches (all packets of one), Naming (the metadata by plain bytes and numbers) |
//! | `specs/`: Packets, Streams, ByTime, Filled, Rows, Metadata, Names | the bytes; which packet is a batch's and why there is none; a CPU's packets by time; packets of 1,024 bytes; which file each record goes to; the text; the first thing that is wrong with names or a form |
//! | `proofs/` | Sizes (what an event has at the most), Collecting (one text more), Filling (records shared out to packets of 1,024 bytes), Ranges (a loop that writes a piece each), Lines, OneList, Spreading (records go to files), Rising (what the files have then), Texts |
#![tactic(auto)]

pub mod by_time;
mod checking;
pub mod fault;
mod filled;
pub mod form;
mod heading;
pub mod in_memory;
pub mod laws;
pub mod names;
pub mod origin;
mod packet;
mod printing;
pub mod records;
pub mod rows;
pub mod stream;
mod text;

pub use by_time::TimeFault;
pub use dspec_probe::{Kind, ProbeNames};
pub use fault::{MetadataFault, NameFault, NameKind};
pub use form::Form;
pub use in_memory::{CpuPackets, Packet, PutFault, TextFault, TraceIdentity, put_metadata};
pub use names::Names;
pub use origin::{ClockStart, Origin, Process};
pub use records::first_refused;
pub use rows::{MOST_FILES, Rows, Run};
pub use stream::{PacketFault, Stream};
pub use text::{metadata, metadata_from};
