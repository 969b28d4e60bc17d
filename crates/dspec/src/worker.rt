ghost use Rattle.std.specs.Prelude.{◌≡◌};
ghost use Rattle.dspec_cpu.specs.{Called.called, Lists.number_in, Lists.schema_of};
ghost use Rattle.dspec.specs.Lanes.{place_of};

use crate::lane::Lane;
use dspec_record::Schema;

/// Who works on one CPU, with a state of its own: a queue, counts, a path that is open between two calls.
pub trait Worker<S: Schema>: Send + Drop {
    ghost use Rattle.std.specs.Prelude.{ℕ};
    ghost use Rattle.dspec_cpu.specs.Called.{CallsMade};

    // What the worker does on the CPU with this number, whose records are of this schema: the worker and what the CPU's calls did
    // before, and the worker and what they have done after it. Whoever promises nothing of it leaves it out.
    ghost does: { S → ℕ → Self → CallsMade → Self → CallsMade → Type 0 } = { λ _ _ _ _ _ _. Unit {0} };

    /// Calls the lane as often as it likes, and leaves it the one that it was. In `trace_workers` the lane makes services after it, until
    /// every work has returned.
    fn work(&mut self, lane: &mut Lane<'_, S>)
        ensures same { place_of lane.new ≡ place_of lane.old }
        ensures did { does (schema_of lane.old.cpu.now) (number_in lane.old.cpu.now) self.old (called lane.old.cpu.now) self.new (called lane.new.cpu.now) };
}
