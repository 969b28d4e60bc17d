ghost use Rattle.std.specs.Prelude.{◌≡◌, IfOk};
ghost use Rattle.dspec_ring.specs.Known.{IsUnusedCpu, IsUnusedConsumer};

use crate::numbered::Numbered;
use crate::rings::Rings;
use crate::{ConsumerEnd, CpuEnd};
use rtrb::RingBuffer;
use std::alloc::{AllocError, Global};

/// How many batches a ring has room for.
const PLACES: usize = 2;

/// The two ends of a CPU's rings. Takes all memory that they will need; where a growth is refused, gives nothing and keeps
/// nothing.
pub fn pair(alloc: Global) -> Result<(CpuEnd, ConsumerEnd), AllocError>
    ensures one { IfOk result (λ ends. ends.1.pair ≡ ends.0.pair) }
    ensures cpu { IfOk result (λ ends. IsUnusedCpu ends.0) }
    ensures consumer { IfOk result (λ ends. IsUnusedConsumer ends.1) }
{
    let (handing, taking) = RingBuffer::with_protocol::<Global, Numbered>(alloc, PLACES)?;
    let (giving, coming) = RingBuffer::new(alloc, PLACES)?;
    let cpu = CpuEnd {
        rings: Rings::new(handing, coming),
    };
    let consumer = ConsumerEnd {
        rings: Rings::new(giving, taking),
    };
    Ok((cpu, consumer))
}
