ghost use Rattle.std.specs.Prelude.{◌≡◌, List, None, Option, Some};
ghost use Rattle.dspec.specs.Passed.{GetsIfThere, GotAll, GotThere, Passed};

use crate::work::Sink;
use dspec_record::Schema;
use dspec_ring::Batch;
use std::thread;

/// Two sinks that get the same: the first first. Between two rounds the first pauses.
#[derive(Drop)]
pub struct Both<A: Drop, B: Drop> {
    /// The one that gets each batch first.
    pub first: A,
    /// The other.
    pub second: B,
}

impl<S: Schema, A: Sink<S>, B: Sink<S>> Sink<S> for Both<A, B> {
    ghost gets = { λ schema old batch new. A.gets schema old.first batch new.first × B.gets schema old.second batch new.second };

    fn batch(&mut self, schema: &S, batch: &Batch) {
        self.first.batch(schema, batch);
        self.second.batch(schema, batch);
    }

    fn pause(&self) {
        self.first.pause();
    }
}

/// A sink that may be left out.
impl<S: Schema, K: Sink<S>> Sink<S> for Option<K> {
    ghost gets = { λ schema old batch new. GetsIfThere (K.gets schema) old batch new };

    fn batch(&mut self, schema: &S, batch: &Batch) {
        let Some(sink) = self else {
            return;
        };
        sink.batch(schema, batch);
    }

    fn pause(&self) {
        match self {
            Some(sink) => sink.pause(),
            None => thread::yield_now(),
        }
    }
}

/// What follows of a sink that may be left out, over all batches of a session: one that is there is there after them, and got each; one
/// that was left out stays so.
pub fn sink_stays<S: Schema, K: Sink<S>>(_schema: &S)
    ensures there { (k : K) (passed : List Passed) (new : Option K) → GotAll (GetsIfThere (K.gets _schema.now)) (Some k) passed new
        → GotThere (K.gets _schema.now) k passed new }
    ensures left_out { (passed : List Passed) (new : Option K) → GotAll (GetsIfThere (K.gets _schema.now)) None passed new → new ≡ None }
{}
