//! Calls of two CPUs over one `Shared`, on one thread, which no schedule of a session has: asks beyond the next batch, buffers that were never taken,
//! meetings after each call. A test is a schedule of whole calls (`schedules`) and what the answers, the reports and the streams of its play
//! print. What a session plays stands in `examples/` as data.
mod cutting;
mod growths;
mod playing;
mod resting;
mod schedules;
mod sharing;
mod switching;
mod taking;
mod values;
mod waiting;
