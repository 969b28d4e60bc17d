ghost use Rattle.std.specs.Prelude.{◌≡◌, ◌<◌, ◌≤◌, [], ◌∷◌};
ghost use Rattle.dspec_deeds.specs.History.{in_range};
ghost use Rattle.dspec_deeds.specs.declared.calls.CpuOp.TheVariants as cpu_op;
ghost use Rattle.dspec_interleaving.specs.declared.flight.CallPlace.TheVariants as flight;
ghost use Rattle.dspec_interleaving.specs.Step.{call_goes_on, committed_by, ends, missed, sealed_by, served, spoken_at, wears};
ghost use Rattle.dspec_word.specs.{Tables.commit_at, Word.CanBeReleased};
ghost use Rattle.dspec_core.specs.Table.{IsSlotPlace, IsStep, entry_deeds, measured_by, step_of};

use crate::machine::seen::{Entry, Move, Seen};
use dspec_cpu_state::{committed_as, settled_as};
use dspec_deeds::{
    Answer, CpuOp, DecideFate, Decided, Deed, Opening, Served, SpeculateFate, Spoken, TraceFate,
    Traced,
};
use dspec_interleaving::{CallPlace, Spare};
use dspec_record::Rec;
use dspec_word::{
    Act, Code, SpecId, Word, commit_at, discard_at, open_at, settle_at, speculate_at,
};

// A service that has sealed no batch and settled no slot.
const NOTHING: Served = Served {
    sealed: false,
    settled: 0,
};

impl Seen {
    /// The step of the call at that place.
    pub fn next(&self, place: CallPlace) -> Move
        requires word { CanBeReleased self.now.word }
        requires slots { (1 ≤ self.now.config.nspec) × (self.now.config.nspec ≤ 63) }
        requires inside { IsSlotPlace self.now.config place }
        ensures { IsStep self.now place result }
    {
        match place {
            CallPlace::Begun(op) => match op {
                CpuOp::Trace(rec) => self.begins_trace(rec),
                CpuOp::Speculation => self.begins_scan(),
                CpuOp::Speculate(id, rec) => self.begins_speculate(id, rec),
                CpuOp::Commit(id) => self.begins_commit(id),
                CpuOp::Discard(id) => self.begins_discard(id),
                CpuOp::Service => self.begins_service(),
            },
            CallPlace::ScanLoad(slot) => self.loads_scan(slot),
            CallPlace::ScanTry(slot, from) => self.tries_scan(slot, from),
            CallPlace::SpeculateLoad(id, rec) => self.loads_speculate(id, rec),
            CallPlace::SpeculateTry(id, rec, from) => self.tries_speculate(id, rec, from),
            CallPlace::CommitLoad(id) => self.loads_commit(id),
            CallPlace::CommitTry(id, from) => self.tries_commit(id, from),
            CallPlace::CommitRelease(id, fate) => {
                self.ends(
                    Entry::One(Deed::Release(id.slot())),
                    Answer::Decided(fate.answer()),
                )
            }
            CallPlace::DiscardLoad(id) => self.loads_discard(id),
            CallPlace::DiscardTry(id, from) => self.tries_discard(id, from),
            CallPlace::ServicePop => self.pops(),
            CallPlace::ServicePush => self.pushes(),
            CallPlace::ServiceLoad(slot, sum) => self.loads_service(slot, sum),
            CallPlace::ServiceStore(slot, word, sum) => self.settles(slot, word, sum),
        }
    }

    fn begins_trace(&self, rec: Rec) -> Move
        ensures { IsStep self.now (flight.Begun (cpu_op.Trace rec)) result }
    {
        if self.worn {
            return self.wears(Answer::Traced(Traced::Worn));
        }
        let (fate, answer) = if self.stopped {
            (TraceFate::Stopped, Traced::Stopped)
        } else if self.fits {
            (TraceFate::Kept, Traced::Kept)
        } else {
            (TraceFate::Dropped, Traced::Dropped)
        };
        self.ends(
            Entry::One(Deed::Trace(self.cpu, rec, fate)),
            Answer::Traced(answer),
        )
    }

    fn begins_scan(&self) -> Move
        ensures { IsStep self.now (flight.Begun cpu_op.Speculation) result }
    {
        if self.worn {
            return self.wears(Answer::Opening(Opening::Worn));
        }
        let deed = Deed::Scan(self.cpu, !self.stopped);
        if self.stopped {
            return self.ends(Entry::One(deed), Answer::Opening(Opening::Stopped));
        }
        self.goes_on(Entry::One(deed), CallPlace::ScanLoad(1))
    }

    fn begins_speculate(&self, id: SpecId, rec: Rec) -> Move
        ensures { IsStep self.now (flight.Begun (cpu_op.Speculate id rec)) result }
    {
        if self.worn {
            return self.wears(Answer::Spoken(Spoken::Worn));
        }
        if self.stopped {
            let deed = Deed::Speculate(self.cpu, id, rec, SpeculateFate::Stopped);
            return self.ends(Entry::One(deed), Answer::Spoken(Spoken::Stopped));
        }
        if self.has_slot(id) {
            return self.goes_on(Entry::Nothing, CallPlace::SpeculateLoad(id, rec));
        }
        let deed = Deed::Speculate(self.cpu, id, rec, SpeculateFate::Void);
        self.ends(Entry::One(deed), Answer::Spoken(Spoken::Void))
    }

    fn begins_commit(&self, id: SpecId) -> Move
        ensures { IsStep self.now (flight.Begun (cpu_op.Commit id)) result }
    {
        if self.worn {
            return self.wears(Answer::Decided(Decided::Worn));
        }
        if self.stopped {
            let deed = Deed::Commit(self.cpu, id, DecideFate::Stopped);
            return self.ends(Entry::One(deed), Answer::Decided(Decided::Stopped));
        }
        if self.has_slot(id) {
            return self.goes_on(Entry::Nothing, CallPlace::CommitLoad(id));
        }
        let deed = Deed::Commit(self.cpu, id, DecideFate::Void);
        self.ends(Entry::One(deed), Answer::Decided(Decided::Void))
    }

    fn begins_discard(&self, id: SpecId) -> Move
        ensures { IsStep self.now (flight.Begun (cpu_op.Discard id)) result }
    {
        if self.worn {
            return self.wears(Answer::Decided(Decided::Worn));
        }
        if self.stopped {
            let deed = Deed::Discard(self.cpu, id, DecideFate::Stopped);
            return self.ends(Entry::One(deed), Answer::Decided(Decided::Stopped));
        }
        if self.has_slot(id) {
            return self.goes_on(Entry::Nothing, CallPlace::DiscardLoad(id));
        }
        let deed = Deed::Discard(self.cpu, id, DecideFate::Void);
        self.ends(Entry::One(deed), Answer::Decided(Decided::Void))
    }

    // The load of the ask, which seals where the CPU is asked and has a spare in hand; where a full buffer closes, that of the first
    // slot's word.
    fn begins_service(&self) -> Move
        requires word { CanBeReleased self.now.word }
        requires slots { 1 ≤ self.now.config.nspec }
        ensures { IsStep self.now (flight.Begun cpu_op.Service) result }
    {
        if self.config.policy.is_fill() {
            return self.loads_service(1, NOTHING);
        }
        if self.seals >= self.me.want || self.seals >= self.config.max_calls {
            return self.goes_on(Entry::Nothing, CallPlace::ServiceLoad(1, NOTHING));
        }
        match self.me.spare {
            Spare::InHand => self.seals(),
            _ => self.goes_on(Entry::Nothing, CallPlace::ServicePop),
        }
    }

    // The pop of a spare, which seals where one came.
    fn pops(&self) -> Move
        ensures { IsStep self.now flight.ServicePop result }
    {
        match self.me.spare {
            Spare::GivenBack => self.seals(),
            _ => self.goes_on(Entry::Nothing, CallPlace::ServiceLoad(1, NOTHING)),
        }
    }

    // The push of the batch that was sealed.
    fn pushes(&self) -> Move
        ensures { IsStep self.now flight.ServicePush result }
    {
        let sum = Served {
            sealed: true,
            settled: 0,
        };
        Move {
            flight: Some(CallPlace::ServiceLoad(1, sum)),
            spare: Spare::Handed,
            worn: self.me.worn,
            entry: Entry::Nothing,
            answer: None,
        }
    }

    // The load of a slot's word in a service: where the table grants it, the store of the acknowledgement is next.
    fn loads_service(&self, slot: u32, sum: Served) -> Move
        requires word { CanBeReleased self.now.word }
        requires slot { slot ≤ self.now.config.nspec }
        ensures { IsStep self.now (flight.ServiceLoad slot sum) result }
    {
        match settle_at(self.word, self.acked) {
            Act::Granted => {
                self.goes_on(
                    Entry::Nothing,
                    CallPlace::ServiceStore(slot, self.word, sum),
                )
            }
            _ => self.serves(slot, Entry::Nothing, sum),
        }
    }

    // The store of an acknowledgement, which settles.
    fn settles(&self, slot: u32, word: Word, sum: Served) -> Move
        requires slot { (slot ≤ self.now.config.nspec) × (sum.settled < slot) }
        requires slots { self.now.config.nspec ≤ 63 }
        ensures { IsStep self.now (flight.ServiceStore slot word sum) result }
    {
        let id = SpecId::of(word.issue(), slot);
        let fate = settled_as(word.code(), self.copies, self.count);
        let sum = Served {
            sealed: sum.sealed,
            settled: sum.settled + 1,
        };
        self.serves(slot, Entry::One(Deed::Settle(self.cpu, id, fate)), sum)
    }

    // After a slot of a service: the next one, or the call has ended.
    fn serves(&self, slot: u32, entry: Entry, sum: Served) -> Move
        requires slot { slot ≤ self.now.config.nspec }
        ensures { step_of self.now result ≡ served self.now.config self.now.cpu (measured_by self.now) self.now.me slot (entry_deeds self.now.cpu entry) sum }
    {
        if slot == self.config.nspec {
            return self.ends(entry, Answer::Served(sum));
        }
        self.goes_on(entry, CallPlace::ServiceLoad(slot + 1, sum))
    }

    fn loads_scan(&self, slot: u32) -> Move
        requires word { CanBeReleased self.now.word }
        requires slot { slot ≤ self.now.config.nspec }
        ensures { IsStep self.now (flight.ScanLoad slot) result }
    {
        match open_at(self.word, self.config.max_issues) {
            Act::Attempt(_) => self.goes_on(Entry::Nothing, CallPlace::ScanTry(slot, self.word)),
            _ => self.misses(slot),
        }
    }

    // The exchange that gives a slot's present speculation out.
    fn tries_scan(&self, slot: u32, from: Word) -> Move
        requires slot { slot ≤ self.now.config.nspec }
        requires slots { self.now.config.nspec ≤ 63 }
        ensures { IsStep self.now (flight.ScanTry slot from) result }
    {
        if self.word != from {
            return self.misses(slot);
        }
        let id = SpecId::of(from.issue(), slot);
        self.ends(
            Entry::One(Deed::Opened(self.cpu, id)),
            Answer::Opening(Opening::Id(id)),
        )
    }

    // After the miss of a slot: the next one, or the call has failed.
    fn misses(&self, slot: u32) -> Move
        requires slot { slot ≤ self.now.config.nspec }
        ensures { step_of self.now result ≡ missed self.now.config self.now.cpu (measured_by self.now) self.now.me slot self.now.word }
    {
        let busy = self.word.is_decided();
        let deed = Deed::Miss(self.cpu, slot, busy);
        if slot == self.config.nspec {
            let opening = if busy || self.missed_busy {
                Opening::Busy
            } else {
                Opening::Unavailable
            };
            return self.ends(Entry::One(deed), Answer::Opening(opening));
        }
        self.goes_on(Entry::One(deed), CallPlace::ScanLoad(slot + 1))
    }

    // The word shown makes of the call what its table says.
    fn loads_speculate(&self, id: SpecId, rec: Rec) -> Move
        requires word { CanBeReleased self.now.word }
        ensures { IsStep self.now (flight.SpeculateLoad id rec) result }
    {
        match speculate_at(self.word, id, self.mine) {
            Act::Granted => self.speaks(id, rec),
            Act::Attempt(_) => {
                self.goes_on(Entry::Nothing, CallPlace::SpeculateTry(id, rec, self.word))
            }
            _ => {
                let deed = Deed::Speculate(self.cpu, id, rec, SpeculateFate::Void);
                self.ends(Entry::One(deed), Answer::Spoken(Spoken::Void))
            }
        }
    }

    fn tries_speculate(&self, id: SpecId, rec: Rec, from: Word) -> Move
        requires word { CanBeReleased self.now.word }
        ensures { IsStep self.now (flight.SpeculateTry id rec from) result }
    {
        if self.word != from {
            return self.loads_speculate(id, rec);
        }
        self.speaks(id, rec)
    }

    // A granted record ends the call.
    fn speaks(&self, id: SpecId, rec: Rec) -> Move
        ensures { step_of self.now result ≡ spoken_at self.now.config self.now.cpu (measured_by self.now) self.now.me id rec }
    {
        let (fate, answer) = if self.fits {
            (SpeculateFate::Kept, Spoken::Kept)
        } else {
            (SpeculateFate::Dropped, Spoken::Dropped)
        };
        let deed = Deed::Speculate(self.cpu, id, rec, fate);
        self.ends(Entry::One(deed), Answer::Spoken(answer))
    }

    fn loads_commit(&self, id: SpecId) -> Move
        requires word { CanBeReleased self.now.word }
        ensures { IsStep self.now (flight.CommitLoad id) result }
    {
        match commit_at(self.word, id, self.mine) {
            Act::Attempt(_) => self.goes_on(Entry::Nothing, CallPlace::CommitTry(id, self.word)),
            _ => {
                let deed = Deed::Commit(self.cpu, id, DecideFate::Void);
                self.ends(Entry::One(deed), Answer::Decided(Decided::Void))
            }
        }
    }

    // An exchange that commits, or shows another word: a commit that waits for no other CPU releases the slot next.
    fn tries_commit(&self, id: SpecId, from: Word) -> Move
        requires word { CanBeReleased self.now.word }
        ensures { IsStep self.now (flight.CommitTry id from) result }
    {
        if self.word != from {
            return self.loads_commit(id);
        }
        self.commits(id)
    }

    // The exchange commits.
    fn commits(&self, id: SpecId) -> Move
        requires word { CanBeReleased self.now.word }
        ensures { step_of self.now result ≡ committed_by self.now.config self.now.cpu (measured_by self.now) self.now.me id (commit_at self.now.word id self.now.mine) }
    {
        let fate = committed_as(self.copies, self.count);
        let deed = Deed::Commit(self.cpu, id, fate);
        if let Act::Attempt(to) = commit_at(self.word, id, self.mine) {
            if to.code() == Code::Committing {
                return self.goes_on(Entry::One(deed), CallPlace::CommitRelease(id, fate));
            }
        }
        self.ends(Entry::One(deed), Answer::Decided(fate.answer()))
    }

    fn loads_discard(&self, id: SpecId) -> Move
        requires word { CanBeReleased self.now.word }
        ensures { IsStep self.now (flight.DiscardLoad id) result }
    {
        match discard_at(self.word, id, self.mine) {
            Act::Attempt(_) => self.goes_on(Entry::Nothing, CallPlace::DiscardTry(id, self.word)),
            _ => {
                let deed = Deed::Discard(self.cpu, id, DecideFate::Void);
                self.ends(Entry::One(deed), Answer::Decided(Decided::Void))
            }
        }
    }

    // An exchange that discards, or shows another word: a discard by the one caller releases the slot in the same step.
    fn tries_discard(&self, id: SpecId, from: Word) -> Move
        requires word { CanBeReleased self.now.word }
        ensures { IsStep self.now (flight.DiscardTry id from) result }
    {
        if self.word != from {
            return self.loads_discard(id);
        }
        let answer = Answer::Decided(Decided::Thrown(self.count));
        if let Act::Attempt(to) = discard_at(self.word, id, self.mine) {
            if to.code() == Code::Inactive {
                return self.ends(Entry::Alone(id, self.count), answer);
            }
        }
        let deed = Deed::Discard(self.cpu, id, DecideFate::Thrown(self.count));
        self.ends(Entry::One(deed), answer)
    }

    // Whether the identifier names a slot of the session.
    fn has_slot(&self, id: SpecId) -> bool
        ensures { result ≡ in_range self.now.config id }
    {
        id.slot() >= 1 && id.slot() <= self.config.nspec
    }

    // The call goes on: its next step is at that place.
    fn goes_on(&self, entry: Entry, place: CallPlace) -> Move
        ensures { step_of self.now result ≡ call_goes_on self.now.me (entry_deeds self.now.cpu entry) place }
    {
        Move {
            flight: Some(place),
            spare: self.me.spare,
            worn: self.me.worn,
            entry,
            answer: None,
        }
    }

    // The active buffer is sealed, and its push is next.
    fn seals(&self) -> Move
        ensures { step_of self.now result ≡ sealed_by self.now.me self.now.cpu }
    {
        Move {
            flight: Some(CallPlace::ServicePush),
            spare: Spare::Sealed,
            worn: self.me.worn,
            entry: Entry::One(Deed::Seal(self.cpu)),
            answer: None,
        }
    }

    fn ends(&self, entry: Entry, answer: Answer) -> Move
        ensures { step_of self.now result ≡ ends self.now.me (entry_deeds self.now.cpu entry) answer }
    {
        Move {
            flight: None,
            spare: self.me.spare,
            worn: self.me.worn,
            entry,
            answer: Some(answer),
        }
    }

    // The call was worn: it is counted, and enters nothing.
    fn wears(&self, answer: Answer) -> Move
        ensures { step_of self.now result ≡ wears self.now.me answer }
    {
        Move {
            flight: None,
            spare: self.me.spare,
            worn: self.me.worn.saturating_add(1),
            entry: Entry::Nothing,
            answer: Some(answer),
        }
    }
}
