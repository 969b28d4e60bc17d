ghost use Rattle.std.specs.Prelude.{◌≡◌, ◌+◌, IfOk, IfErr, OnOk, OnErr};
ghost use Rattle.dspec_ctf.specs.{Streams.IsPacketOf, Streams.HasNoPacket, declared.stream.PacketFault.TheVariants.Memory};

use crate::packet::{events_of, front_size, put_around};
use dspec_buffer::{ReadFault, read_all};
use dspec_record::Enablings;
use std::alloc::{AllocError, AllocFailed, Global};
use thiserror::Error;

/// The most bytes that the events of a packet have, so that its size in bits is one of 64 bits.
pub(crate) const MAX_EVENTS_SIZE: u64 = (1 << 60) - 1;

/// Why a batch has no packet.
#[derive(Debug, Clone, Copy, PartialEq, Eq, Error)]
pub enum PacketFault {
    /// The text isn't one; as `read_all` tells it.
    #[error("{0}")]
    Text(ReadFault),
    /// More events were missed so far than 64 bits count.
    #[error("too many events were missed")]
    Missed,
    /// The events have 2^60 bytes or more, too many for a size in bits.
    #[error("too many bytes of events")]
    TooLong,
    /// The record at this place, counted from 0, would need one file more than a CPU may have: stamps went back too often.
    #[error("record {0}: its stamp is before the last of each of 64 files")]
    Clock(usize),
    /// A growth was refused.
    #[error("out of memory")]
    Memory,
}

impl From<AllocError> for PacketFault {
    ghost from_gives = { λ _ fault. fault ≡ Memory };

    fn from(_refused: AllocError) -> Self {
        PacketFault::Memory
    }
}

impl<T: Drop> From<AllocFailed<T>> for PacketFault {
    ghost from_gives = { λ _ fault. fault ≡ Memory };

    fn from(_refused: AllocFailed<T>) -> Self {
        PacketFault::Memory
    }
}

/// The stream of one CPU as its batches are taken: a packet each, in their order, without a clock. The Common Trace Format's
/// name for what it counts is `events_discarded`.
#[derive(Debug, Clone, Copy)]
pub struct Stream<'a> {
    /// The uuid of the trace, which the metadata tells too.
    pub uuid: [u8; 16],
    /// The schema of all records.
    pub enablings: &'a Enablings,
    /// The number of the CPU.
    pub cpu: u32,
    /// How many events were missed from the start on: the sum of the drops of the batches so far.
    pub missed: u64,
}

impl<'a> Stream<'a> {
    /// The packet of the next batch, by its drops and its text. A batch without records has one too. Nothing is written, and
    /// nothing counted, where the answer is a fault.
    pub fn packet(&mut self, alloc: Global, drops: u64, text: &[u8]) -> Result<Vec<u8>, PacketFault>
        ensures packet { IfOk result
            (λ bytes. IsPacketOf self.old.enablings.now self.old.uuid (self.old.missed + drops) self.old.cpu text.now bytes.items) }
        ensures counted { OnOk result (self.new.missed ≡ self.old.missed + drops) }
        ensures same { (self.new.uuid ≡ self.old.uuid) × (self.new.enablings ≡ self.old.enablings) × (self.new.cpu ≡ self.old.cpu) }
        ensures fault { IfErr result (λ fault. HasNoPacket self.old.enablings.now self.old.missed drops text.now fault) }
        ensures refused { OnErr result (self.new ≡ self.old) }
    {
        let Some(missed) = self.missed.checked_add(drops) else {
            return Err(PacketFault::Missed);
        };
        let records = match read_all(self.enablings, text) {
            Ok(records) => records,
            Err(fault) => return Err(PacketFault::Text(fault)),
        };
        let body = events_of(alloc, self.enablings, records)?;
        if body.len() as u64 > MAX_EVENTS_SIZE {
            return Err(PacketFault::TooLong);
        }
        let mut bytes = Vec::with_capacity(alloc, front_size(None) as usize + body.len())?;
        put_around(&mut bytes, &self.uuid, None, missed, self.cpu, &body)?;
        self.missed = missed;
        Ok(bytes)
    }
}
