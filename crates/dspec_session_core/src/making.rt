ghost use Rattle.std.specs.Prelude.{◌≡◌, [], length, All, IfOk};
ghost use Rattle.dspec_ring.specs.Known.{IsUnusedConsumer};
ghost use Rattle.dspec_table.specs.Seats.{known_there};

use crate::consumer::Consumer;
use crate::counted::CountedEnd;
use dspec_deeds::Config;
use dspec_ring::ConsumerEnd;
use dspec_table::ConsumerSeat;
use std::alloc::{AllocError, Global};

// The ends, counted, in their order.
fn counted(alloc: Global, ends: Vec<ConsumerEnd>) -> Result<Vec<CountedEnd>, AllocError>
    requires unused { All IsUnusedConsumer ends.items }
    ensures { IfOk result (λ all. all.items ≡ ends.items) }
{
    let mut rest = ends;
    let mut all = Vec::with_capacity(alloc, rest.len())?;
    while !rest.is_empty() {
        all.push(CountedEnd::of(rest.remove(0)))?;
    }
    Ok(all)
}

impl Consumer {
    /// The consumer of a session that nobody has called yet: its seat, and its unused ends of the CPUs' rings, in order. It takes all memory that its
    /// calls and the session's end will need.
    pub fn make(
        alloc: Global,
        config: &Config,
        seat: ConsumerSeat,
        ends: Vec<ConsumerEnd>,
    ) -> Result<Consumer, AllocError>
        requires config { (known_there seat).config ≡ config.now }
        requires asks { (known_there seat).asks ≡ [] }
        requires all { length ends.items ≡ config.now.cpus }
        requires unused { All IsUnusedConsumer ends.items }
        ensures seat { IfOk result (λ consumer. consumer.seat ≡ seat) }
        ensures ends { IfOk result (λ consumer. consumer.ends ≡ ends.items) }
    {
        let ends = counted(alloc, ends)?;
        let cpus = config.cpus as usize;
        Ok(Consumer {
            config: *config,
            seat,
            ends,
            seats: Vec::with_capacity(alloc, cpus)?,
            parted: Vec::with_capacity(alloc, cpus)?,
            left: Vec::with_capacity(alloc, cpus)?,
        })
    }
}
