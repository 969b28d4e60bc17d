//! Batches, and what wasn't written of them.

ghost use Rattle.std.specs.Prelude.{◌≡◌, ◌&&◌, true, false, IfOk, IfErr, IfSome, OnOk, OnErr, None};
ghost use Rattle.dspec_record.specs.declared.header.Header.TheVariants.{One, Two};
ghost use Rattle.dspec_ctf.specs.InMemory.Calls.{HasAsMuchRoom, HasNoBatch, OpensBatch, Reserves, SwapRooms, emptied_in, has_no_rest, with_more_missed, without_rest};
ghost use Rattle.dspec_ctf.specs.InMemory.Filing.{no_packets, unwritten};

use super::scratch::Scratch;
use crate::rows::{most_records, read_again, reserve_in};
use crate::{CpuPackets, PacketFault, Rows};
use dspec_record::{Enablings, Header};
use std::alloc::{AllocError, Global};
use std::mem;

impl CpuPackets {
    /// The files of this CPU, of which there is none yet, in a trace with this uuid, which its metadata tells too. None where records have no
    /// stamps.
    pub fn of(alloc: Global, uuid: [u8; 16], enablings: &Enablings, cpu: u32) -> Option<CpuPackets>
        ensures begun { IfSome result (λ files. files ≡ no_packets uuid enablings.now cpu) }
        ensures stamped { IfSome result (λ _. enablings.now.header ≡ Two) }
        ensures unstamped { result ≡ None → enablings.now.header ≡ One }
    {
        if enablings.header() == Header::One {
            return None;
        }
        Some(CpuPackets {
            uuid,
            enablings: *enablings,
            cpu,
            rows: Rows::new(),
            missed: 0,
            told: 0,
            told_before: 0,
            records: Vec::new(alloc),
            from: 0,
            place: 0,
            run: None,
            scratch: Scratch::new(alloc),
        })
    }

    /// Takes memory for batches of so many bytes, so that no call on one of these takes any (`reserved_rooms_suffice`). What it has stays where there is none.
    pub fn reserve(&mut self, size: usize) -> Result<(), AllocError>
        ensures reserved { OnOk result (Reserves self.old size self.new) }
        ensures refused { OnErr result (HasAsMuchRoom self.old self.new) }
    {
        reserve_in(&mut self.records, most_records(size))?;
        self.scratch.reserve(size)
    }

    /// Whose files these are.
    pub fn cpu(&self) -> u32
        ensures { result ≡ self.now.cpu }
    {
        self.cpu
    }

    /// Opens the next batch of the CPU, by its drops and its text. Records of the batch before that weren't handed out are missed. Nothing is changed where the
    /// answer is a fault.
    pub fn open(&mut self, drops: u64, text: &[u8]) -> Result<(), PacketFault>
        ensures opened { OnOk result (OpensBatch self.old drops text.now self.new) }
        ensures fault { IfErr result (HasNoBatch self.old drops text.now) }
        ensures refused { OnErr result (HasAsMuchRoom self.old self.new) }
    {
        let left = (self.records.len() - self.place) as u64;
        let Some(sum) = self.missed.checked_add(left) else {
            return Err(PacketFault::Missed);
        };
        let Some(missed) = sum.checked_add(drops) else {
            return Err(PacketFault::Missed);
        };
        read_again(&mut self.records, &self.enablings, text)?;
        self.missed = missed;
        self.told_before = self.told;
        self.from = 0;
        self.place = 0;
        self.run = None;
        Ok(())
    }

    /// Says that the packet that was handed out last wasn't written, and that those after it won't be. Its records and the rest of the batch
    /// are missed, and how many these are is the answer; the next batch's packets tell it. Where no packet was handed out since
    /// the batch was opened, or the last answer was none or a fault, it is the rest alone.
    pub fn lose(&mut self) -> u64
        ensures records { result ≡ unwritten self.old }
        ensures lost { self.new ≡ without_rest self.old }
    {
        let all = self.records.len();
        let lost = (all - self.from) as u64;
        self.missed = self.missed.saturating_add(lost);
        self.told = self.told_before;
        self.from = all;
        self.place = all;
        self.run = None;
        lost
    }

    /// Counts events that the CPU missed for another reason, as a batch that the caller let go.
    pub fn miss(&mut self, count: u64)
        ensures { self.new ≡ with_more_missed self.old count }
    {
        self.missed = self.missed.saturating_add(count);
    }

    // Without a batch.
    fn empty(&mut self)
        ensures { self.new ≡ emptied_in self.old.room self.old }
    {
        self.records.clear();
        self.from = 0;
        self.place = 0;
        self.run = None;
    }

    /// Exchanges the rooms of two of them, so that one that `reserve` took serves each in its turn. Where a record of either's batch is left that could be handed out
    /// or lost, the answer is false and nothing is changed. Else neither has a batch any more, and what each missed and tells stays.
    pub fn swap_rooms(&mut self, other: &mut CpuPackets) -> bool
        ensures answer { result ≡ (has_no_rest self.old && has_no_rest other.old) }
        ensures swapped { result ≡ true → SwapRooms self.old other.old self.new other.new }
        ensures refused { result ≡ false → (self.new ≡ self.old) × (other.new ≡ other.old) }
    {
        if self.from != self.records.len() || other.from != other.records.len() {
            return false;
        }
        self.empty();
        other.empty();
        mem::swap(&mut self.records, &mut other.records);
        mem::swap(&mut self.scratch, &mut other.scratch);
        true
    }
}
