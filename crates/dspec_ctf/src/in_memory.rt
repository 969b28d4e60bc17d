//! Packets by time and the metadata in memory that the caller gives, for a program that writes its files itself. No file is opened here,
//! and no clock is read.

pub mod cpu_packets;
pub mod fault;
mod filing;
pub mod identity;
pub mod laws;
mod metadata;
mod naming;
pub mod packet;
mod putting;
mod room;
mod scratch;

pub use cpu_packets::CpuPackets;
pub use fault::{PutFault, TextFault};
pub use identity::TraceIdentity;
pub use metadata::put_metadata;
pub use packet::Packet;
