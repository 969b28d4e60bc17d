use crate::Batch;
use crate::numbered::Numbered;
use crate::rings::Rings;
use rtrb::AnyItems;
use std::marker::Model;

/// The consumer's end of one CPU's rings: it takes batches and gives their buffers back. It can move to another thread.
#[derive(Drop)]
pub struct ConsumerEnd {
    pub(crate) rings: Rings<AnyItems, Numbered>,
}

impl Model for ConsumerEnd {
    ghost use Rattle.dspec_ring.specs.Known.{ConsumerKnows};

    ghost Value = { ConsumerKnows };

    ghost use Rattle.dspec_ring.specs.EndFields.{consumer_knows};

    ghost view = { consumer_knows };
}

impl ConsumerEnd {
    ghost use Rattle.std.specs.Prelude.{◌≡◌, ◌<◌, ◌≤◌, ◌+◌, ◌^◌, [], ◌∷◌, ◌++◌, length, OnOk, OnErr, IfErr, IfSome, IfNone};
    ghost use mathlib.Core.List.{IsPrefix};
    ghost use Rattle.dspec_ring.specs.Known.{consumer_moved};

    /// The next batch that was handed on: one pop. None where none has arrived, as far as this end can see.
    pub fn take(&mut self) -> Option<Batch>
        ensures pair { self.new.pair ≡ self.old.pair }
        ensures given { (self.new.given ≡ self.old.given) × (self.new.room ≡ self.old.room) }
        ensures took { IfSome result (λ batch. self.new.taken ≡ self.old.taken ++ batch ∷ []) }
        ensures next { IfSome result (λ batch. IsPrefix self.old.waiting (batch ∷ self.new.waiting)) }
        ensures counted { IfSome result (λ _. length self.old.taken < 2 ^ 62) }
        ensures moves { self.new.moves ≡ self.old.moves + 1 }
        ensures none { IfNone result (self.new ≡ consumer_moved self.old) }
        ensures empty { IfNone result (self.old.waiting ≡ []) }
    {
        self.rings.pop()
    }

    /// Gives a batch back as a spare: one push. A refused one comes back; a ring refuses where the CPU has not yet got the
    /// two before, as far as this end can see.
    pub fn give_back(&mut self, batch: Batch) -> Result<(), Batch>
        ensures pair { self.new.pair ≡ self.old.pair }
        ensures taken { (self.new.taken ≡ self.old.taken) × (self.new.waiting ≡ self.old.waiting) }
        ensures given { OnOk result (self.new.given ≡ self.old.given ++ batch ∷ []) }
        ensures room { OnOk result (self.old.room ≤ self.new.room + 1) }
        ensures moves { self.new.moves ≡ self.old.moves + 1 }
        ensures refused { IfErr result (λ back. (back ≡ batch) × (self.new ≡ consumer_moved self.old)) }
        ensures full { OnErr result (self.old.room ≡ 0) }
    {
        self.rings.push(batch)
    }
}
