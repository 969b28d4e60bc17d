ghost use Rattle.std.specs.Prelude.{◌≡◌, IsTrue};
ghost use Rattle.dspec_promise.specs.Promise.{commit, discard};
ghost use Rattle.dspec_cpu.specs.{Lists.schema_of, Lists.words_of, OneCall.TracesOne, OneCall.SpeculatesOne, OneCall.OpensOne, OneCall.DecidesOne, OneCall.ServesOnce, Standing.Belongs};
ghost use Rattle.dspec_cpu.specs.{Standing.identity};

use crate::cpu::Cpu;
use crate::listed::Listed;
use crate::shared::Shared;
use dspec_deeds::{Decided, Opening, Served, Spoken, Traced};
use dspec_record::{Rec, Schema};
use dspec_word::SpecId;

impl<S: Schema> Cpu<S> {
    /// Traces an accepted record into the active principal buffer. Worn: the CPU had made all its calls, and the record wasn't
    /// offered. Stopped: the session was stopped. Dropped: it didn't fit the rest of the buffer. The one shared word that it
    /// touches is activity.
    pub fn trace(&mut self, shared: &Shared, rec: &Rec) -> Traced
        requires of { Belongs (words_of shared.now) (identity self.old) }
        requires accepted { IsTrue (S.accepted (schema_of self.old) rec.now) }
        ensures same { identity self.new ≡ identity self.old }
        ensures does { TracesOne ⟦<Cpu<S> as Listed>⟧.has_list rec.now result self.old self.new }
    {
        self.parts.trace(shared, rec)
    }

    /// Opens a speculation, in the first slot that is shown free. Worn: the CPU had made all its calls. Stopped: the session was
    /// stopped. Busy: every slot was missed, and one of them was decided and isn't released yet. Unavailable: every slot was
    /// missed, and none was. It takes at most one step, and two for each slot, and touches the word of no slot after the one that
    /// it gives out.
    #[inline]
    pub fn speculation(&mut self, shared: &Shared) -> Opening
        requires of { Belongs (words_of shared.now) (identity self.old) }
        ensures same { identity self.new ≡ identity self.old }
        ensures does { OpensOne ⟦<Cpu<S> as Listed>⟧.has_list result self.old self.new }
    {
        self.parts.speculation(shared)
    }

    /// Traces an accepted record into the CPU's buffer of a speculation. Worn: the CPU had made all its calls, and the record
    /// wasn't offered. Stopped: the session was stopped. Void: the identifier isn't open. Dropped: it didn't fit the rest of
    /// that buffer; the CPU is a caller all the same. It touches activity and the word of the identifier's slot.
    #[inline]
    pub fn speculate(&mut self, shared: &Shared, id: SpecId, rec: &Rec) -> Spoken
        requires of { Belongs (words_of shared.now) (identity self.old) }
        requires accepted { IsTrue (S.accepted (schema_of self.old) rec.now) }
        ensures same { identity self.new ≡ identity self.old }
        ensures does { SpeculatesOne ⟦<Cpu<S> as Listed>⟧.has_list id rec.now result self.old self.new }
    {
        self.parts.speculate(shared, id, rec, true)
    }

    /// Commits a speculation: the CPU's own block of it is copied whole to the active principal buffer, or lost where it doesn't
    /// fit, with the number of its records. Worn: the CPU had made all its calls. Stopped: the session was stopped. Void: the
    /// identifier isn't open. Where no other CPU is a caller, the call releases the slot. It touches activity and the word of the
    /// identifier's slot.
    #[inline(always)]
    pub fn commit(&mut self, shared: &Shared, id: SpecId) -> Decided
        requires of { Belongs (words_of shared.now) (identity self.old) }
        ensures same { identity self.new ≡ identity self.old }
        ensures does { DecidesOne ⟦<Cpu<S> as Listed>⟧.has_list commit id result self.old self.new }
    {
        self.parts.decide(shared, id, true)
    }

    /// Discards a speculation: the CPU's own block of it is thrown away, with the number of its records. Worn: the CPU had made
    /// all its calls. Stopped: the session was stopped. Void: the identifier isn't open. Where the CPU is the one caller, the
    /// exchange releases the slot. It touches activity and the word of the identifier's slot.
    #[inline(always)]
    pub fn discard(&mut self, shared: &Shared, id: SpecId) -> Decided
        requires of { Belongs (words_of shared.now) (identity self.old) }
        ensures same { identity self.new ≡ identity self.old }
        ensures does { DecidesOne ⟦<Cpu<S> as Listed>⟧.has_list discard id result self.old self.new }
    {
        self.parts.decide(shared, id, false)
    }

    /// Does what the CPU owes the consumer and the other CPUs: where the consumer asked for it, the principal buffers are
    /// switched (the Guide's chapter on buffers), and what was decided elsewhere is settled in the CPU's own buffers (its chapter
    /// on speculative tracing: "some time later"). The answer tells whether a batch was sealed, and how many speculations were
    /// settled. It is never Worn, counts towards no bound on calls, and goes on after a stop. It touches the CPU's ask, the slots'
    /// words and the CPU's own acknowledgements.
    #[inline]
    pub fn service(&mut self, shared: &Shared) -> Served
        requires of { Belongs (words_of shared.now) (identity self.old) }
        ensures same { identity self.new ≡ identity self.old }
        ensures does { ServesOnce ⟦<Cpu<S> as Listed>⟧.has_list result self.old self.new }
    {
        self.parts.service(shared)
    }
}
