//! Buffers of records: reservation, two implementations, and the reader of a stored text.
//!
//! A record is reserved at a multiple of its alignment, a block (the whole text of a speculative buffer) at a
//! multiple of eight, and either fits whole or changes nothing. What pieces a buffer has, how far they reach and
//! which bytes they make stands in `specs/Extent.antt`; every buffer keeps the clauses and the law of the trait
//! `TraceBuffer`. Which records some bytes are the text of stands in `specs/BufferText.antt`, which knows nothing
//! of buffers; `read_all` reads exactly those, and names the fault of anything else (`specs/Faults.antt`), `read_prefix` those before it. That no
//! bytes are read in two ways, and that what was pushed is read back, are clauses of the functions in `laws`. The
//! crate stands on `dspec_record`, and only the two `make` take memory.
//!
//! | File | What is in it |
//! |---|---|
//! | `trace_buffer.rt` | the trait `TraceBuffer`: a list of pieces, each a record or a block, the latest at the head |
//! | `byte_buffer.rt`, `list_buffer.rt` | its two implementations |
//! | `reader.rt`, `records.rt` | `read_all`. The check of a text makes no record, the walk makes each once: small functions, inlined into both loops |
//! | `prefix.rt`, `reading.rt` | `read_prefix`, the records before a text's first fault; `Reading`, which reads once and checks as it goes |
//! | `upgrading.rt` | `upgrade`: the records of a text that was read whole, pushed with a stamp |
//! | `specs/`: Extent, BufferText, Faults | pieces and their places; bytes related to records, with no buffer in it; where a text stops being one |
//! | `specs/`: ReadingOn, Progress | one step of reading, and how far a reader has come; what a call of `Reading` makes of that |
//! | `specs/`: Upgrading | which text can be upgraded, what the buffer then has, which record is the first that doesn't fit |
#![tactic(auto)]

mod byte_buffer;
pub mod laws;
mod list_buffer;
mod prefix;
mod read_fault;
mod reader;
mod reading;
mod records;
mod reserving;
mod trace_buffer;
pub mod upgrading;

pub use byte_buffer::ByteBuffer;
pub use list_buffer::ListBuffer;
pub use prefix::read_prefix;
pub use read_fault::ReadFault;
pub use reader::read_all;
pub use reading::Reading;
pub use records::Records;
pub use trace_buffer::TraceBuffer;
pub use upgrading::{UpgradeFault, upgrade};
