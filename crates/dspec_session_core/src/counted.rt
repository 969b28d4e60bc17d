use dspec_ring::{Batch, ConsumerEnd};
use std::marker::Model;

/// The consumer's end of one CPU's rings, with how many batches were taken from it and how many given back.
#[derive(Drop)]
pub(crate) struct CountedEnd {
    end: ConsumerEnd,
    taken: u64,
    given: u64,
}

impl Model for CountedEnd {
    ghost use Rattle.dspec_ring.specs.Known.{ConsumerKnows};

    ghost Value = { ConsumerKnows };

    ghost use Rattle.dspec_session_core.specs.Counting.{counted_end_of, IsCounted};

    ghost view = { counted_end_of };

    ghost invariant = { IsCounted };
}

impl CountedEnd {
    ghost use Rattle.std.specs.Prelude.{◌≡◌, ◌<◌, ◌≤◌, ◌^◌, [], length, MatchBool, IfSome, IfNone, OnOk, IfErr, OnErr};
    ghost use Rattle.dspec_ring.specs.Known.{IsUnusedConsumer, consumer_moved};
    ghost use Rattle.dspec_session_core.specs.Batches.{TookFrom, GivenTo};

    /// An end through which nothing went yet.
    pub(crate) fn of(end: ConsumerEnd) -> CountedEnd
        requires { IsUnusedConsumer end }
        ensures { result ≡ end }
    {
        CountedEnd {
            end,
            taken: 0,
            given: 0,
        }
    }

    /// How many batches were taken.
    pub(crate) fn taken(&self) -> u64
        ensures number { result ≡ length self.now.taken }
        ensures few { result ≤ 2 ^ 62 }
    {
        self.taken
    }

    /// Whether a batch that was taken wasn't given back.
    pub(crate) fn has_out(&self) -> bool
        ensures { MatchBool result (length self.now.given < length self.now.taken) (length self.now.taken ≤ length self.now.given) }
    {
        self.given < self.taken
    }

    /// The next batch, counted: one pop.
    pub(crate) fn take(&mut self) -> Option<Batch>
        ensures took { IfSome result (λ batch. TookFrom batch self.old self.new) }
        ensures none { IfNone result ((self.new ≡ consumer_moved self.old) × (self.old.waiting ≡ [])) }
    {
        let batch = self.end.take()?;
        self.taken += 1;
        Some(batch)
    }

    /// Gives a batch back, counted: one push. A refused one comes back.
    pub(crate) fn give_back(&mut self, batch: Batch) -> Result<(), Batch>
        requires out { length self.old.given < length self.old.taken }
        ensures given { OnOk result (GivenTo batch self.old self.new) }
        ensures taken { self.new.taken ≡ self.old.taken }
        ensures refused { IfErr result (λ back. (back ≡ batch) × (self.new ≡ consumer_moved self.old)) }
        ensures full { OnErr result (self.old.room ≡ 0) }
    {
        self.end.give_back(batch)?;
        self.given += 1;
        Ok(())
    }

    /// The end itself. No more were given back than taken.
    pub(crate) fn into_end(self) -> ConsumerEnd
        ensures end { result ≡ self }
        ensures order { length self.given ≤ length self.taken }
    {
        let CountedEnd {
            end,
            taken: _,
            given: _,
        } = self;
        end
    }
}
