//! What trace folders hold: summed up, checked, merged by time, told in lines of text and in the events of Chrome's Trace Event form. The
//! files themselves are read by a program.
//!
//! `packet.rt` reads a file packet by packet, `whole.rt` says how much of a file is whole packets, `check.rt` what is wrong with one.
//! `counts.rt` counts, `clock.rt` tells times, `value.rt` what a field's number stands for, `mark.rt` puts what happened in order of
//! time. `text.rt` and `chrome.rt` write what happened.

mod check;
mod chrome;
mod clock;
mod counts;
mod date;
mod fault;
mod mark;
mod packet;
mod text;
mod value;
mod whole;

pub use check::{Whose, check_file};
pub use chrome::{RowRecord, Track, chrome_event, chrome_missed, chrome_name, chrome_record};
pub use clock::{Base, base_of, nanoseconds};
pub use counts::{CpuCounts, count_events, count_file};
pub use date::Moment;
pub use fault::{FileFault, Wrong};
pub use mark::{Mark, What, marks_of, sort_by_time};
pub use packet::{ReadPacket, read_packet};
pub use text::{event_text, field_text, missed_text};
pub use value::ShownValue;
pub use whole::{Ending, ending_of, whole_len};
