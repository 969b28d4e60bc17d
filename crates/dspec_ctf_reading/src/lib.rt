//! Reading a trace in the Common Trace Format, version 1.8: its definition, `specs/Reading.antt`, which knows nothing of the writer's
//! definitions; laws that say what reading gives of what the writer writes; and code that reads: the text of the metadata, packets and
//! their events. What that code reads is what the definition reads. `folder` has what programs tell of whole trace folders.
//!
//! | File | What is in it |
//! |---|---|
//! | `laws.rt` | the laws, as clauses of functions that have nothing to do |
//! | `fronts.rt` | `read_front`, `split_packet`: what a packet tells before its events, and their bytes |
//! | `told.rt`, `fault.rt` | what a trace's metadata tells, in memory; why a text or bytes can't be read |
//! | `metadata.rt` | `read_metadata`, by the parts of `scan.rt`, `kinds.rt`, `entries.rt` and `heading.rt` |
//! | `events.rt`, `packets.rt`, `numbers.rt` | the events of a packet, and packets one after another; numbers of bytes |
//! | `folder.rt`, `folder/` | what trace folders hold: counted, checked, merged by time, told in lines and in Chrome's Trace Event form |
//! | `specs/`: Reading, ReadingMetadata | what the bytes of packets and files say, and what the text of the metadata tells of them: over std alone |
//! | `specs/`: Sample, SampleMetadata | packets and texts by hand, and what they say |
//! | `specs/`: Fronts | a front in memory; a packet that is split and not yet read |
//! | `specs/`: Layouts, Files, ToldNumbers | the layout that a trace of some enablings, names and a form has, and a record as it is read; what a file tells; the numbers that the metadata tells, as they are in memory |
//! | `specs/`: Parts, Told, Faults, Packets | of the code that reads: what a part of the text gives; what was read, in the words of the definition; which fault is due, of events and of packets |
//! | `specs/Folders/` | Checks (when nothing is wrong with a file), Whole (bytes that are whole packets), Counts (what a file adds to them), Clocks, Values (times of stamps, what numbers stand for), Marks, Tracks (what happened, by time and by rows) |
//! | `proofs/`, of packets | Agreeing (what sizes that agree say), Bounds (each part takes some bytes, and what follows changes nothing in it), Joining (nor in a file), NumbersRead, EventsRead, PacketsRead, Files, Batches (of batches one file), FilledRead, Timed, Live, Named; Shorter (what `fronts.rt` needs) |
//! | `proofs/`, of the metadata | Scanning (what stands in a text is found there), NextWords, TextWords, TextFields (words of texts), FieldTypes, Lines (of fields), Texts (of events), Headings (what stands before them), AllowedWords, Allowed (names in which nothing is wrong) |
//! | `proofs/`, of the code that reads | ScanLemmas (a text in parts), LoopLemmas (fields, events and labels one after another), EventLemmas (an event's number, stamp and values) |
#![tactic(auto)]

mod entries;
pub mod events;
pub mod fault;
pub mod folder;
pub mod fronts;
mod heading;
mod kinds;
pub mod laws;
pub mod metadata;
mod numbers;
pub mod packets;
mod scan;
pub mod told;

pub use dspec_probe::Kind;
pub use dspec_record::Field;
pub use events::{Event, check_events, read_event, read_events};
pub use fault::{
    EventFault, EventsFault, Expected, MetadataReadFault, PacketReadFault, WholePacketFault,
};
pub use fronts::{Front, SplitPacket};
pub use metadata::read_metadata;
pub use packets::{check_packet, next_packet};
pub use told::{ClockText, EventText, FieldText, Label, Metadata, ToldProcess};
