ghost use Rattle.std.specs.Prelude.{◌≡◌};
ghost use Rattle.dspec_cpu.specs.{Called.called, Lists.number_in, Lists.schema_of};
ghost use Rattle.dspec.specs.Lanes.{place_of};

use crate::lane::Lane;
use dspec_record::Schema;
use dspec_ring::Batch;
use std::thread;

/// What a CPU's thread does.
pub trait Work<S: Schema>: Sync {
    ghost use Rattle.std.specs.Prelude.{ℕ};
    ghost use Rattle.dspec_cpu.specs.Called.{CallsMade};

    // What the work does on the CPU with this number, whose records are of this schema: what its calls did before, and what they have
    // done after it. Whoever promises nothing of it leaves it out.
    ghost does: { S → Self → ℕ → CallsMade → CallsMade → Type 0 } = { λ _ _ _ _ _. Unit {0} };

    /// Calls the lane as often as it likes, and leaves it the one that it was. After it the lane makes services until every work has
    /// returned.
    fn work(&self, lane: &mut Lane<'_, S>)
        ensures same { place_of lane.new ≡ place_of lane.old }
        ensures did { does (schema_of lane.old.cpu.now) self.now (number_in lane.old.cpu.now) (called lane.old.cpu.now) (called lane.new.cpu.now) };
}

/// Who gets the batches of a session: while it runs, and after its close what nobody had taken.
pub trait Sink<S: Schema>: Send + Drop {
    ghost use Rattle.dspec_ring.specs.declared.batch.Batch.{Batch};

    // What a call with this batch makes of the sink. Whoever promises nothing of it leaves it out.
    ghost gets: { S → Self → Batch → Self → Type 0 } = { λ _ _ _ _. Unit {0} };

    /// A batch of a CPU, whose records are of this schema.
    fn batch(&mut self, schema: &S, batch: &Batch)
        ensures { gets schema.now self.old batch.now self.new };

    /// What the consumer does between two of its rounds, in which each CPU is visited once: it lets another thread run, unless the
    /// sink does something else, as one that waits for some milliseconds.
    fn pause(&self) {
        thread::yield_now();
    }
}
