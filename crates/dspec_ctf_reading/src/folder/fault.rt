//! What is wrong with a file.

use crate::{EventFault, PacketReadFault};
use thiserror::Error;

/// What is wrong at a place of a file.
#[derive(Debug, Clone, Copy, PartialEq, Eq, Error)]
pub enum Wrong {
    /// No packet begins there.
    #[error(transparent)]
    Packet(PacketReadFault),
    /// No event begins there.
    #[error(transparent)]
    Event(EventFault),
    /// The packet there has another uuid than the metadata.
    #[error("a packet of another trace")]
    Uuid,
    /// The packet there is of another CPU than its file.
    #[error("a packet of cpu {0}")]
    Cpu(u32),
    /// A stamp there is less than one before it: of a packet's begin, of its events and of its end, in this order.
    #[error("the time falls from {from} to {to}")]
    Falls { from: u64, to: u64 },
    /// A count goes past 64 bits.
    #[error("counts that 64 bits don't hold")]
    TooMuch,
}

/// The first place of a file at which something is wrong.
#[derive(Debug, Clone, Copy, PartialEq, Eq, Error)]
#[error("byte {at}: {wrong}")]
pub struct FileFault {
    /// In bytes from the file's first.
    pub at: usize,
    /// What is wrong there.
    pub wrong: Wrong,
}

impl FileFault {
    ghost use Rattle.std.specs.Prelude.{◌≡◌, not};
    ghost use Rattle.dspec_ctf_reading.specs.Folders.Checks.{is_of_bytes};

    /// Whether memory was refused, and nothing is known of the file.
    pub fn is_memory(&self) -> bool
        ensures { result ≡ not (is_of_bytes self.now.wrong) }
    {
        match self.wrong {
            Wrong::Event(EventFault::Memory) => true,
            Wrong::Event(EventFault::Unknown(_) | EventFault::Cut)
            | Wrong::Packet(_)
            | Wrong::Uuid
            | Wrong::Cpu(_)
            | Wrong::Falls { .. }
            | Wrong::TooMuch => false,
        }
    }
}
