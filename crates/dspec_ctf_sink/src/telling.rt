ghost use Rattle.std.specs.Prelude.{◌≡◌};

use crate::losing::Lossy;
use dspec::{Batch, Enablings, Sink};

/// A sink whose losses are told on the error output while it runs: the first of each CPU, by a line that begins with this name.
#[derive(Drop)]
pub struct Telling<'a, K: Drop> {
    rt: &'a HostRuntime,
    name: &'a str,
    told: u64,
    /// The sink.
    pub sink: K,
}

impl<'a, K: Drop> Telling<'a, K> {
    /// A sink of which nothing is told yet.
    pub fn new(rt: &'a HostRuntime, name: &'a str, sink: K) -> Telling<'a, K>
        ensures { result.sink ≡ sink }
    {
        Telling {
            rt,
            name,
            told: 0,
            sink,
        }
    }
}

impl<K: Lossy + Drop> Telling<'_, K> {
    // Tells what the last batch lost, the first time of its CPU.
    fn tell(&mut self)
        ensures { self.new.sink ≡ self.old.sink }
    {
        let Some(loss) = self.sink.last_loss() else {
            return;
        };
        let cpu = 1u64 << (loss.cpu % 64);
        if self.told & cpu == 0 {
            self.told |= cpu;
            let _ = eprintln!(self.rt; "{}: {loss}", self.name);
        }
    }
}

impl<K: Sink<Enablings> + Lossy> Sink<Enablings> for Telling<'_, K> {
    ghost gets = { λ schema old batch new. K.gets schema old.sink batch new.sink };

    fn batch(&mut self, schema: &Enablings, batch: &Batch) {
        self.sink.batch(schema, batch);
        self.tell();
    }

    fn pause(&self) {
        self.sink.pause();
    }
}
