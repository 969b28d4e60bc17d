//! Traces as they are written.
mod by_time;
mod filled;
mod fronts;
mod metadata_texts;
pub mod packets;
mod rows;
