ghost use Rattle.std.specs.Prelude.{◌≡◌, false, IfNone, IfSome};
ghost use Rattle.dspec_cpu.specs.Called.{with_speculation};
ghost use Rattle.dspec_paths.specs.Table.{CommitsSo, DiscardsSo, loses_block};

use dspec_deeds::{Decided, Opening};
use dspec_word::SpecId;

/// The calls on speculations of the CPU whose paths a table has. Each is the call of `Cpu` of that name.
pub trait SpeculationCalls {
    ghost use Rattle.dspec_cpu.specs.Called.{CallsMade};
    ghost use Rattle.dspec_deeds.specs.declared.calls.Opening.{Opening};
    ghost use Rattle.dspec_word.specs.SpecId.{Speculation};

    // which CPU it is, of which session: no call changes it
    ghost Identity: { Type 0 };

    ghost identity: { Self → Identity };

    // what its calls did, the latest first
    ghost made: { Self → CallsMade };

    // where a commit would lose the CPU's block of the speculation
    ghost lacks_room: { Self → Speculation → Type 0 };

    // it was asked for a speculation, with this answer
    ghost asked: { Opening → Self → Self → Type 0 };

    /// Opens a speculation.
    fn speculation(&mut self) -> Opening
        ensures same { identity self.new ≡ identity self.old }
        ensures asked { asked result self.old self.new }
        ensures tells { made self.new ≡ with_speculation result (made self.old) };

    /// Commits a speculation: the block is copied, or lost where it has no room.
    fn commit(&mut self, id: SpecId) -> Decided
        ensures same { identity self.new ≡ identity self.old }
        ensures decided { CommitsSo id result (made self.old) (made self.new) };

    /// Commits a speculation, but not where that would lose the block: None, and nothing was done.
    fn commit_if_room(&mut self, id: SpecId) -> Option<Decided>
        ensures same { identity self.new ≡ identity self.old }
        ensures waits { IfNone result (lacks_room self.new id) }
        ensures refused { IfNone result (made self.new ≡ made self.old) }
        ensures kept { IfSome result (λ d. loses_block d ≡ false) }
        ensures decided { IfSome result (λ d. CommitsSo id d (made self.old) (made self.new)) };

    /// Discards a speculation.
    fn discard(&mut self, id: SpecId) -> Decided
        ensures same { identity self.new ≡ identity self.old }
        ensures decided { DiscardsSo id result (made self.old) (made self.new) };
}
