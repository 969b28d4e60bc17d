ghost use Rattle.std.specs.Prelude.{◌≡◌, ◌++◌};
ghost use mathlib.Core.List.{IsPrefix};

use crate::numbered::Numbered;
use crate::{Batch, ConsumerEnd, CpuEnd};
use rtrb::Consumer;
use std::alloc::Global;
use std::marker::Model;

/// The batches that were handed and not taken, in order.
#[derive(Drop)]
pub struct Drained {
    batches: Consumer<Batch, Global, Numbered>,
}

impl Model for Drained {
    ghost use Rattle.std.specs.Prelude.{List};
    ghost use Rattle.dspec_ring.specs.declared.batch.Batch.{Batch};

    ghost Value = { List Batch };

    ghost use Rattle.rtrb.specs.Ring.{known_items};

    ghost view = { λ d. known_items d.batches };
}

impl Iterator for Drained {
    type Item = Batch;

    ghost use Rattle.std.specs.Iterator.{YieldsFirst, item_count};

    ghost next_gives = { YieldsFirst (λ s. s) };

    ghost remaining = { item_count (λ s. s) };

    fn next(&mut self) -> Option<Batch> {
        if self.batches.cached_slots() == 0 {
            return None;
        }
        Some(self.batches.pop_known())
    }
}

/// Ends both rings of a pair: what was handed and not taken is left to be drained, and spares that have not come are dropped.
pub fn drain_beside(cpu: CpuEnd, consumer: ConsumerEnd) -> Drained
    requires { consumer.pair ≡ cpu.pair }
    ensures batches { consumer.taken ++ result ≡ cpu.handed }
    ensures spares { IsPrefix cpu.spares consumer.given }
{
    let CpuEnd { rings } = cpu;
    let (mut handing, mut coming) = rings.apart();
    let ConsumerEnd { rings } = consumer;
    let (mut giving, mut taking) = rings.apart();
    taking.slots_beside(&mut handing);
    coming.slots_beside(&mut giving);
    Drained { batches: taking }
}
