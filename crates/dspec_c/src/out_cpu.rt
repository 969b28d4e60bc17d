use crate::homing::{Homing, HomingProtocol};
use crate::reports::CReport;
use crate::statuses::{
    BAD_RECORD, OK, number_of, of_committed, of_decided, of_opening, of_spoken, of_traced,
};
use crate::word_counts::Worded;
use dspec_cpu::{Cpu, Shared};
use dspec_parking::{Parked, Parking, ParkingKey};
use dspec_record::{Enablings, Stamped, Unstamped};
use dspec_word::SpecId;
use rtrb::Producer;
use std::alloc::Global;
use std::marker::Model;
use std::sync::Arc;

/// A CPU that was handed out, with what it shares, how many records the schema refused, and its way home, on which there is room for
/// it. The CPU stays where it is in memory, wherever this goes. It can't be let go: `go_home` is the one way to be rid of it. Its calls
/// are those of C, each with its status.
pub struct OutCpu {
    way: Producer<Homing, Global, HomingProtocol>,
    pub(crate) shared: Arc<Shared, Global>,
    pub(crate) cpu: Box<Cpu<Enablings>>,
    refused: u64,
}

impl Model for OutCpu {
    ghost use Rattle.std.specs.{Arc.arc_value, Prelude.◌<◌};
    ghost use Rattle.rtrb.specs.Ring.{known_free, sent};
    ghost use Rattle.dspec_cpu.specs.Standing.{IsCallable};
    ghost use Rattle.dspec_c.specs.Homes.{CpuSide, IsOut, IsSameSide, cpu_side_of};

    ghost Value = { CpuSide };

    ghost view = { λ s. cpu_side_of (arc_value s.shared) s.cpu.value s.refused };

    ghost invariant = { λ s. IsCallable (arc_value s.shared) s.cpu.value × IsOut IsSameSide (sent s.way) (cpu_side_of (arc_value s.shared) s.cpu.value s.refused) × (0 < known_free s.way) };
}

impl OutCpu {
    ghost use Rattle.std.specs.Prelude.{◌≡◌, ◌<◌, true};
    ghost use Rattle.rtrb.specs.Ring.{known_free, sent};
    ghost use Rattle.dspec_promise.specs.Promise.{commit, discard};
    ghost use Rattle.dspec_c.specs.{CpuCalls.CommitIfRoomTold, CpuCalls.DecideTold, CpuCalls.DroppedInTold, CpuCalls.OpenAtTold, CpuCalls.OpeningTold, CpuCalls.PutInTold, CpuCalls.PutTold};
    ghost use Rattle.dspec_c.specs.{CpuCalls.ReportTold, CpuCalls.ServiceTold, CpuCalls.SpeculateTold, CpuCalls.TraceTold, CpuCalls.PutInAs, CpuCalls.IsRefusedAs, CpuCalls.one_refused};
    ghost use Rattle.dspec_c.specs.{CpuCalls.served_so, Homes.HasGone, Homes.IsOut, Homes.IsSameSide, ParkingCalls.ParksAt};
    ghost use Rattle.dspec_record.specs.declared.header.Header.TheVariants as header;

    pub fn of(way: Producer<Homing, Global, HomingProtocol>, homing: Homing) -> OutCpu
        requires out { IsOut IsSameSide (sent way) homing }
        requires room { 0 < known_free way }
        ensures { result ≡ homing }
    {
        let Homing {
            shared,
            cpu,
            refused,
        } = homing;
        OutCpu {
            way,
            shared,
            cpu,
            refused,
        }
    }

    /// Sends the CPU home, by the way that it gives back.
    pub fn go_home(self) -> Producer<Homing, Global, HomingProtocol>
        ensures { HasGone self (sent result) }
    {
        let OutCpu {
            way,
            shared,
            cpu,
            refused,
        } = self;
        let mut way = way;
        way.push_reserved(Homing {
            shared,
            cpu,
            refused,
        });
        way
    }

    /// Counts a record as refused, and says so.
    #[cold]
    #[inline(never)]
    fn refuse(&mut self) -> u32
        ensures status { result ≡ 16 }
        ensures shared { self.new.shared ≡ self.old.shared }
        ensures cpu { self.new.cpu ≡ self.old.cpu }
        ensures refused { self.new.refused ≡ one_refused true self.old.refused }
    {
        self.refused = self.refused.saturating_add(1);
        BAD_RECORD
    }

    /// Traces the record with these values.
    #[inline(always)]
    pub fn trace(&mut self, epid: u32, stamp: u64, values: &[u64]) -> u32
        ensures { TraceTold epid stamp values.now result self.old self.new }
    {
        match self.cpu.record(&self.shared, epid, stamp, values) {
            Some(answer) => of_traced(answer),
            None => self.refuse(),
        }
    }

    /// Traces the record that these words stand for. Each header has code of its own, which asks for it once.
    #[inline(always)]
    pub fn put<N>(&mut self, claim: u64, stamp: u64, words: &[u64]) -> u32
        ensures { PutTold claim stamp words.now result self.old self.new }
    {
        let (cpu, shared) = (&mut *self.cpu, &*self.shared);
        if let Some(rec) = &cpu
            .schema()
            .packed::<Worded<N, Unstamped>>(claim, stamp, words)
        {
            return of_traced(cpu.trace_recorded(shared, rec));
        }
        self.put_stamped::<N>(claim, stamp, words)
    }

    // The same where records have a stamp. What it holds in memory is cleared here, so that other records don't pay for it.
    #[inline(always)]
    fn put_stamped<N>(&mut self, claim: u64, stamp: u64, words: &[u64]) -> u32
        requires { IsRefusedAs header.One self.old claim stamp words.now }
        ensures { PutTold claim stamp words.now result self.old self.new }
    {
        let (cpu, shared) = (&mut *self.cpu, &*self.shared);
        if let Some(stamped) = &cpu
            .schema()
            .packed::<Worded<N, Stamped>>(claim, stamp, words)
        {
            return of_traced(cpu.trace_recorded(shared, stamped));
        }
        self.refuse()
    }

    /// Opens a speculation.
    pub fn speculation(&mut self, id: &mut u64) -> u32
        ensures { OpeningTold result id.old id.new self.old self.new }
    {
        of_opening(self.cpu.speculation(&self.shared), id)
    }

    /// Offers the record with these values to a speculation.
    #[inline(always)]
    pub fn speculate(&mut self, id: u64, epid: u32, stamp: u64, values: &[u64]) -> u32
        ensures { SpeculateTold id epid stamp values.now result self.old self.new }
    {
        let id = SpecId::from_raw(id);
        match self.cpu.offer(&self.shared, id, epid, stamp, values) {
            Some(answer) => of_spoken(answer),
            None => self.refuse(),
        }
    }

    /// Offers the record that these words stand for to a speculation.
    #[inline(always)]
    pub fn put_in<N>(&mut self, id: u64, claim: u64, stamp: u64, words: &[u64]) -> u32
        ensures { PutInTold id claim stamp words.now result self.old self.new }
    {
        let id = SpecId::from_raw(id);
        let (cpu, shared) = (&mut *self.cpu, &*self.shared);
        if let Some(rec) = &cpu
            .schema()
            .packed::<Worded<N, Unstamped>>(claim, stamp, words)
        {
            return of_spoken(cpu.speculate_packed(shared, id, rec));
        }
        self.put_in_stamped::<N>(id, claim, stamp, words)
    }

    // The same where records have a stamp. What it holds in memory is cleared here, so that other records don't pay for it.
    #[inline(always)]
    fn put_in_stamped<N>(&mut self, id: SpecId, claim: u64, stamp: u64, words: &[u64]) -> u32
        requires { IsRefusedAs header.One self.old claim stamp words.now }
        ensures { PutInAs id claim stamp words.now result self.old self.new }
    {
        let (cpu, shared) = (&mut *self.cpu, &*self.shared);
        if let Some(stamped) = &cpu
            .schema()
            .packed::<Worded<N, Stamped>>(claim, stamp, words)
        {
            return of_spoken(cpu.speculate_packed(shared, id, stamped));
        }
        self.refuse()
    }

    /// Commits a speculation.
    pub fn commit(&mut self, id: u64, count: &mut u32) -> u32
        ensures { DecideTold commit id result count.old count.new self.old self.new }
    {
        of_decided(self.cpu.commit(&self.shared, SpecId::from_raw(id)), count)
    }

    /// Commits a speculation, but not where that would lose the CPU's block.
    pub fn commit_if_room(&mut self, id: u64, count: &mut u32) -> u32
        ensures { CommitIfRoomTold id result count.old count.new self.old self.new }
    {
        of_committed(
            self.cpu.commit_if_room(&self.shared, SpecId::from_raw(id)),
            count,
        )
    }

    /// Discards a speculation.
    pub fn discard(&mut self, id: u64, count: &mut u32) -> u32
        ensures { DecideTold discard id result count.old count.new self.old self.new }
    {
        of_decided(self.cpu.discard(&self.shared, SpecId::from_raw(id)), count)
    }

    /// Does what the CPU owes the consumer and the other CPUs.
    pub fn service(&mut self, sealed: &mut bool, settled: &mut u32) -> u32
        ensures { ServiceTold result (served_so sealed.new settled.new) self.old self.new }
    {
        let served = self.cpu.service(&self.shared);
        *sealed = served.sealed;
        *settled = served.settled;
        OK
    }

    /// How many records were dropped from the CPU's buffer of the speculation.
    pub fn dropped_in(&self, id: u64, count: &mut u32) -> u32
        ensures { DroppedInTold id result count.new self.now self.now }
    {
        *count = self.cpu.dropped_in(SpecId::from_raw(id));
        OK
    }

    /// The speculation of the slot of which the CPU has records.
    pub fn open_at(&self, slot: u32, id: &mut u64) -> u32
        ensures { OpenAtTold slot result id.new self.now self.now }
    {
        *id = number_of(self.cpu.open_at(slot));
        OK
    }

    /// Parks the block of the records that the CPU has of the slot.
    pub fn park(&self, ring: &mut Parking, slot: u32, key: ParkingKey, stamp: u64) -> Parked
        ensures { ParksAt slot key stamp result ring.old ring.new self.now.cpu }
    {
        ring.park(key, stamp, self.cpu.block_at(slot))
    }

    /// The CPU's counts so far.
    pub fn report(&self, report: &mut CReport) -> u32
        ensures { ReportTold result report.new self.now self.now }
    {
        *report = CReport::of(&self.cpu.report(&self.shared), self.refused);
        OK
    }
}
