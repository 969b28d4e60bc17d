//! Traces as they are read.
mod metadata;
mod packets;
