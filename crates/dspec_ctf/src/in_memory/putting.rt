//! The next packet.

ghost use Rattle.std.specs.Prelude.{◌≡◌, IfOk, IfErr, OnOk, OnErr, slice_range};
ghost use Rattle.dspec_ctf.specs.InMemory.Calls.{Hands, HandsMissed, HandsNone, HandsRun, HasNoMissed, HasNoRunPacket, FindsNext, HasAsMuchRoom, missed_bytes, run_bytes, as_written};
ghost use Rattle.dspec_ctf.specs.InMemory.Filing.{IsRunWithin};
ghost use Rattle.dspec_ctf.specs.Rows.{HasNoRun};

use super::room::fill;
use crate::{CpuPackets, Packet, PacketFault, PutFault, Run, Stream};
use std::alloc::AllocError;

/// What the next packet is.
#[derive(Clone, Copy)]
pub(crate) enum NextPart {
    /// What was missed.
    Missed,
    /// That of a run.
    Run(Run),
    /// There is none.
    Done,
}

impl CpuPackets {
    // What was handed out counts as written.
    fn settle(&mut self)
        ensures { self.new ≡ as_written self.old }
    {
        self.told_before = self.told;
        self.from = self.place;
    }

    // What the next packet is; its run is found.
    fn find(&mut self) -> Result<NextPart, PacketFault>
        ensures found { IfOk result (λ next. FindsNext self.old next self.new) }
        ensures fault { IfErr result (HasNoRun self.old.lasts self.old.records self.old.place) }
        ensures told { OnErr result (self.old.missed ≡ self.old.told) }
        ensures refused { OnErr result (self.new ≡ self.old) }
    {
        if self.missed != self.told {
            return Ok(NextPart::Missed);
        }
        if let Some(run) = self.run {
            return Ok(NextPart::Run(run));
        }
        match self.rows.next_run(&self.records, self.place)? {
            Some(run) => {
                self.run = Some(run);
                Ok(NextPart::Run(run))
            }
            None => Ok(NextPart::Done),
        }
    }

    // Hands out what was missed.
    fn put_missed(&mut self, room: &mut [u8]) -> Result<Packet, PutFault>
        ensures hands { IfOk result (λ packet. HandsMissed self.old room.old packet room.new self.new) }
        ensures fault { IfErr result (HasNoMissed self.old room.old) }
        ensures refused { OnErr result (HasAsMuchRoom self.old self.new × (room.new ≡ room.old)) }
    {
        let stream = Stream {
            uuid: self.uuid,
            enablings: &self.enablings,
            cpu: self.cpu,
            missed: self.missed,
        };
        self.scratch.make_missed(&stream, &self.rows, self.told)?;
        let size = match fill(room, &self.scratch.bytes) {
            Ok(size) => size,
            Err(needed) => return Err(PutFault::TooSmall(needed)),
        };
        self.told = self.missed;
        Ok(Packet {
            file: 0,
            size,
            records: 0,
        })
    }

    // Hands out the packet of this run.
    fn put_run(&mut self, run: Run, room: &mut [u8]) -> Result<Packet, PutFault>
        requires { IsRunWithin self.old.records self.old.place run }
        ensures hands { IfOk result (λ packet. HandsRun self.old run room.old packet room.new self.new) }
        ensures fault { IfErr result (HasNoRunPacket self.old run room.old) }
        ensures refused { OnErr result (HasAsMuchRoom self.old self.new × (room.new ≡ room.old)) }
    {
        let stream = Stream {
            uuid: self.uuid,
            enablings: &self.enablings,
            cpu: self.cpu,
            missed: self.missed,
        };
        let records = &self.records[self.place..run.end];
        self.scratch.make_run(&stream, run.file, records)?;
        let size = match fill(room, &self.scratch.bytes) {
            Ok(size) => size,
            Err(needed) => return Err(PutFault::TooSmall(needed)),
        };
        let records = run.end - self.place;
        self.place = run.end;
        self.run = None;
        Ok(Packet {
            file: run.file,
            size,
            records,
        })
    }

    /// Puts the next packet into this room, and says for which file it is; None where there is none. What the CPU missed comes first, for its first file. Where the room is too
    /// small, the fault says how many bytes it needs; a call with so many gets the packet. With another fault the rest of the
    /// batch has no packets, or not yet where memory was wanting, which it never is after `reserve`: `lose` gives it up.
    pub fn put(&mut self, room: &mut [u8]) -> Result<Option<Packet>, PutFault>
        ensures hands { IfOk result (λ packet. Hands self.old room.old packet room.new self.new) }
        ensures fault { IfErr result (λ fault. HandsNone self.old room.old fault self.new) }
        ensures refused { OnErr result (room.new ≡ room.old) }
    {
        self.settle();
        let next = self.find()?;
        match next {
            NextPart::Missed => Ok(Some(self.put_missed(room)?)),
            NextPart::Run(run) => Ok(Some(self.put_run(run, room)?)),
            NextPart::Done => Ok(None),
        }
    }
}
