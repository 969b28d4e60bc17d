//! What packets of a batch are made in. It goes from one batch to the next, so that none takes memory again that had it once.

ghost use Rattle.std.specs.Prelude.{◌≡◌, ◌<◌, ◌≤◌, ◌*◌, OnErr, OnOk, vec_capacity};
ghost use Rattle.dspec_ctf.specs.{Filled.filled_size, Filled.most_body, Filled.LacksRoomAnew, Rows.missed_packets, Rows.most_bytes, Rows.run_packet};

use crate::filled::PACKET_SIZE;
use crate::rows::reserve_in;
use crate::{Rows, Stream};
use dspec_record::Rec;
use std::alloc::{AllocError, Global};

/// The least bytes of events in a packet that isn't the last of its run: with 76 more, the most of an event, its front and they have more than 1,024.
const LEAST_EVENTS: usize = 881;

/// The most bytes of events that are made before a packet ends.
const MOST_EVENTS: usize = 1048;

/// Lists that are empty or have what isn't wanted any more.
#[derive(Drop)]
pub(crate) struct Scratch {
    /// Has what is handed out next.
    pub bytes: Vec<u8>,
    pub body: Vec<u8>,
}

impl Scratch {
    /// Takes no memory yet.
    pub(crate) fn new(alloc: Global) -> Scratch
        ensures bytes { vec_capacity result.bytes ≡ 0 }
        ensures body { vec_capacity result.body ≡ 0 }
    {
        Scratch {
            bytes: Vec::new(alloc),
            body: Vec::new(alloc),
        }
    }

    /// Takes memory for batches of so many bytes.
    pub(crate) fn reserve(&mut self, size: usize) -> Result<(), AllocError>
        ensures bytes_room { OnOk result (most_bytes size ≤ vec_capacity self.new.bytes) }
        ensures body_room { OnOk result (most_body ≤ vec_capacity self.new.body) }
        ensures bytes { vec_capacity self.old.bytes ≤ vec_capacity self.new.bytes }
        ensures body { vec_capacity self.old.body ≤ vec_capacity self.new.body }
    {
        let packets = size / LEAST_EVENTS + 2;
        let Some(bytes) = packets.checked_mul(PACKET_SIZE) else {
            return Err(AllocError);
        };
        reserve_in(&mut self.bytes, bytes)?;
        reserve_in(&mut self.body, MOST_EVENTS)
    }

    /// Makes what tells what was missed.
    pub(crate) fn make_missed(
        &mut self,
        stream: &Stream<'_>,
        rows: &Rows,
        before: u64,
    ) -> Result<(), AllocError>
        ensures packets { OnOk result (self.new.bytes.items
            ≡ missed_packets stream.now.uuid before stream.now.missed stream.now.cpu rows.now) }
        ensures full { OnErr result (vec_capacity self.old.bytes < 2 * filled_size) }
        ensures bytes { vec_capacity self.old.bytes ≤ vec_capacity self.new.bytes }
        ensures body { vec_capacity self.old.body ≤ vec_capacity self.new.body }
    {
        self.bytes.clear();
        stream.put_missed(&mut self.bytes, rows, before)
    }

    /// Makes the packets of a run.
    pub(crate) fn make_run(
        &mut self,
        stream: &Stream<'_>,
        file: usize,
        records: &[Rec],
    ) -> Result<(), AllocError>
        ensures packets { OnOk result (self.new.bytes.items
            ≡ run_packet stream.now.uuid stream.now.enablings.now stream.now.missed stream.now.cpu file records.now) }
        ensures full { OnErr result (LacksRoomAnew self.old.bytes self.old.body
            (run_packet stream.now.uuid stream.now.enablings.now stream.now.missed stream.now.cpu file records.now)) }
        ensures bytes { vec_capacity self.old.bytes ≤ vec_capacity self.new.bytes }
        ensures body { vec_capacity self.old.body ≤ vec_capacity self.new.body }
    {
        self.bytes.clear();
        self.body.clear();
        stream.put_run(&mut self.bytes, &mut self.body, file, records)
    }
}
