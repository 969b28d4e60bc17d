ghost use Rattle.std.specs.Prelude.{◌≡◌, IsTrue};
ghost use Rattle.dspec_record.specs.LaidOut.{IsLaidBy};
ghost use Rattle.dspec_promise.specs.Promise.{commit, discard};
ghost use Rattle.dspec_cpu.specs.Lists.{number_in, schema_of};
ghost use Rattle.dspec.specs.LaneCalls.{DecisionOn, DropsOn, IfRoomOn, OfferOn, OpenOn, OpeningOn, RecordOn, ReportOn, RoomOn, ServiceOn, SpeculateOn, TraceOn};
ghost use Rattle.dspec.specs.Lanes.{place_of};

use crate::bad_record::BadRecord;
use crate::lane::Lane;
use dspec_cpu::{Cpu, Listed};
use dspec_deeds::{Decided, Opening, Report, Served, Spoken, Traced};
use dspec_record::{Rec, Recorded, Schema};
use dspec_word::SpecId;

impl<'a, S: Schema> Lane<'a, S> {
    /// The CPU's number in the session, from 0 on.
    #[inline]
    pub fn number(&self) -> u32
        ensures { result ≡ number_in self.now.cpu.now }
    {
        self.cpu.number()
    }

    /// The schema of its records.
    #[inline]
    pub fn schema(&self) -> &S
        ensures { result.now ≡ schema_of self.now.cpu.now }
    {
        self.cpu.schema()
    }

    /// Traces an accepted record into the principal buffer.
    #[inline]
    pub fn trace(&mut self, rec: &Rec) -> Traced
        requires accepted { IsTrue (S.accepted (schema_of self.old.cpu.now) rec.now) }
        ensures same { place_of self.new ≡ place_of self.old }
        ensures does { TraceOn ⟦<Cpu<S> as Listed>⟧.has_list rec.now result self.old self.new }
    {
        self.cpu.trace(self.shared, rec)
    }

    /// As `trace`, of what can be traced as a record.
    #[inline(always)]
    pub fn trace_recorded<R: Recorded>(&mut self, rec: R) -> Traced
        requires accepted { IsTrue (S.accepted (schema_of self.old.cpu.now) (R.as_record rec)) }
        requires laid { IsLaidBy (S.shape_of (schema_of self.old.cpu.now)) (S.text (schema_of self.old.cpu.now)) (R.as_record rec) (R.laid_as rec) }
        ensures same { place_of self.new ≡ place_of self.old }
        ensures does { TraceOn ⟦<Cpu<S> as Listed>⟧.has_list (R.as_record rec) result self.old self.new }
    {
        self.cpu.trace_recorded(self.shared, rec)
    }

    /// Makes a record and traces it. An `Err`, and nothing was done: there are more than eight values, or the schema doesn't accept it.
    #[inline]
    pub fn record(&mut self, epid: u32, stamp: u64, values: &[u64]) -> Result<Traced, BadRecord>
        ensures same { place_of self.new ≡ place_of self.old }
        ensures does { RecordOn ⟦<Cpu<S> as Listed>⟧.has_list S.accepted epid stamp values.now result self.old self.new }
    {
        match self.cpu.record(self.shared, epid, stamp, values) {
            Some(answer) => Ok(answer),
            None => Err(BadRecord),
        }
    }

    /// Asks for a speculation: the answer has its identifier, or says why there is none.
    #[inline]
    pub fn speculation(&mut self) -> Opening
        ensures same { place_of self.new ≡ place_of self.old }
        ensures does { OpeningOn ⟦<Cpu<S> as Listed>⟧.has_list result self.old self.new }
    {
        self.cpu.speculation(self.shared)
    }

    /// Commits a speculation.
    #[inline]
    pub fn commit(&mut self, id: SpecId) -> Decided
        ensures same { place_of self.new ≡ place_of self.old }
        ensures does { DecisionOn ⟦<Cpu<S> as Listed>⟧.has_list commit id result self.old self.new }
    {
        self.cpu.commit(self.shared, id)
    }

    /// Commits a speculation, but not where the CPU's own block of it would be lost: then None, and nothing was done.
    #[inline]
    pub fn commit_if_room(&mut self, id: SpecId) -> Option<Decided>
        ensures same { place_of self.new ≡ place_of self.old }
        ensures does { IfRoomOn ⟦<Cpu<S> as Listed>⟧.has_list S.shape_of id result self.old self.new }
    {
        self.cpu.commit_if_room(self.shared, id)
    }

    /// Discards a speculation.
    #[inline]
    pub fn discard(&mut self, id: SpecId) -> Decided
        ensures same { place_of self.new ≡ place_of self.old }
        ensures does { DecisionOn ⟦<Cpu<S> as Listed>⟧.has_list discard id result self.old self.new }
    {
        self.cpu.discard(self.shared, id)
    }

    /// Offers an accepted record to a speculation.
    #[inline]
    pub fn speculate(&mut self, id: SpecId, rec: &Rec) -> Spoken
        requires accepted { IsTrue (S.accepted (schema_of self.old.cpu.now) rec.now) }
        ensures same { place_of self.new ≡ place_of self.old }
        ensures does { SpeculateOn ⟦<Cpu<S> as Listed>⟧.has_list id rec.now result self.old self.new }
    {
        self.cpu.speculate(self.shared, id, rec)
    }

    /// As `speculate`, of what can be traced as a record.
    #[inline(always)]
    pub fn speculate_recorded<R: Recorded>(&mut self, id: SpecId, rec: R) -> Spoken
        requires accepted { IsTrue (S.accepted (schema_of self.old.cpu.now) (R.as_record rec)) }
        requires laid { IsLaidBy (S.shape_of (schema_of self.old.cpu.now)) (S.text (schema_of self.old.cpu.now)) (R.as_record rec) (R.laid_as rec) }
        ensures same { place_of self.new ≡ place_of self.old }
        ensures does { SpeculateOn ⟦<Cpu<S> as Listed>⟧.has_list id (R.as_record rec) result self.old self.new }
    {
        self.cpu.speculate_recorded(self.shared, id, rec)
    }

    /// Makes a record and offers it to a speculation. An `Err`, and nothing was done: there are more than eight values, or the
    /// schema doesn't accept it.
    #[inline]
    pub fn offer(
        &mut self,
        id: SpecId,
        epid: u32,
        stamp: u64,
        values: &[u64],
    ) -> Result<Spoken, BadRecord>
        ensures same { place_of self.new ≡ place_of self.old }
        ensures does { OfferOn ⟦<Cpu<S> as Listed>⟧.has_list S.accepted id epid stamp values.now result self.old self.new }
    {
        match self.cpu.offer(self.shared, id, epid, stamp, values) {
            Some(answer) => Ok(answer),
            None => Err(BadRecord),
        }
    }

    /// How many records were dropped from the CPU's buffer of the speculation since the CPU became a caller: where there are any,
    /// the end of the path is cut. 0 where it is no caller, and once the slot's next speculation was granted to it. At the most
    /// `u32::MAX`.
    #[inline]
    pub fn dropped_in(&self, id: SpecId) -> u32
        ensures { DropsOn ⟦<Cpu<S> as Listed>⟧.has_list id result self.now }
    {
        self.cpu.dropped_in(id)
    }

    /// Whether the CPU's active principal buffer would now take its block of the speculation whole; true where it is no caller.
    #[inline]
    pub fn has_room_for(&self, id: SpecId) -> bool
        ensures { RoomOn ⟦<Cpu<S> as Listed>⟧.has_list S.shape_of id result self.now }
    {
        self.cpu.has_room_for(id)
    }

    /// The speculation of the slot of which the CPU has records: it is open, or decided elsewhere and not settled by this CPU yet.
    #[inline]
    pub fn open_at(&self, slot: u32) -> Option<SpecId>
        ensures { OpenOn ⟦<Cpu<S> as Listed>⟧.has_list slot result self.now }
    {
        self.cpu.open_at(slot)
    }

    /// Does what the CPU owes: seals where the consumer asked for a batch, and settles what was decided elsewhere.
    #[inline]
    pub fn service(&mut self) -> Served
        ensures same { place_of self.new ≡ place_of self.old }
        ensures does { ServiceOn ⟦<Cpu<S> as Listed>⟧.has_list result self.old self.new }
    {
        self.cpu.service(self.shared)
    }

    /// The CPU's counts so far.
    pub fn report(&self) -> Report
        ensures { ReportOn ⟦<Cpu<S> as Listed>⟧.has_list result self.now }
    {
        self.cpu.report(self.shared)
    }
}
