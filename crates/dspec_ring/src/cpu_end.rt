use crate::Batch;
use crate::numbered::Numbered;
use crate::rings::Rings;
use rtrb::AnyItems;
use std::marker::Model;

/// The end of a CPU: it hands batches on, and gets back buffers that the consumer has done with. It can move to another
/// thread.
#[derive(Drop)]
pub struct CpuEnd {
    pub(crate) rings: Rings<Numbered, AnyItems>,
}

impl Model for CpuEnd {
    ghost use Rattle.dspec_ring.specs.Known.{CpuKnows};

    ghost Value = { CpuKnows };

    ghost use Rattle.dspec_ring.specs.EndFields.{cpu_knows};

    ghost view = { cpu_knows };
}

impl CpuEnd {
    ghost use Rattle.std.specs.Prelude.{◌≡◌, ◌<◌, ◌≤◌, ◌+◌, ◌^◌, [], ◌∷◌, ◌++◌, length, OnOk, OnErr, IfErr, IfSome, IfNone};
    ghost use mathlib.Core.List.{IsPrefix};
    ghost use Rattle.dspec_ring.specs.Known.{cpu_moved};

    /// Hands a batch on: one push. A refused one comes back; a ring refuses where the consumer has not yet taken the two
    /// before, as far as this end can see.
    pub fn hand(&mut self, batch: Batch) -> Result<(), Batch>
        requires { length self.old.handed < 2 ^ 62 }
        ensures pair { self.new.pair ≡ self.old.pair }
        ensures spares { (self.new.spares ≡ self.old.spares) × (self.new.waiting ≡ self.old.waiting) }
        ensures handed { OnOk result (self.new.handed ≡ self.old.handed ++ batch ∷ []) }
        ensures room { OnOk result (self.old.room ≤ self.new.room + 1) }
        ensures moves { self.new.moves ≡ self.old.moves + 1 }
        ensures refused { IfErr result (λ back. (back ≡ batch) × (self.new ≡ cpu_moved self.old)) }
        ensures full { OnErr result (self.old.room ≡ 0) }
    {
        self.rings.push(batch)
    }

    /// The next batch that was given back: one pop. None where none has arrived, as far as this end can see.
    pub fn spare(&mut self) -> Option<Batch>
        ensures pair { self.new.pair ≡ self.old.pair }
        ensures handed { (self.new.handed ≡ self.old.handed) × (self.new.room ≡ self.old.room) }
        ensures came { IfSome result (λ spare. self.new.spares ≡ self.old.spares ++ spare ∷ []) }
        ensures next { IfSome result (λ spare. IsPrefix self.old.waiting (spare ∷ self.new.waiting)) }
        ensures moves { self.new.moves ≡ self.old.moves + 1 }
        ensures none { IfNone result (self.new ≡ cpu_moved self.old) }
        ensures empty { IfNone result (self.old.waiting ≡ []) }
    {
        self.rings.pop()
    }
}
