ghost use Rattle.std.specs.Prelude.{◌≡◌, ◌<◌, ◌∷◌, [], IfOk};
ghost use Rattle.rtrb.specs.Ring.{IsPair, known_free, known_items, received, sent};

use crate::duty::{Duty, HomeRule};
use dspec_cpu::Cpu;
use dspec_record::Enablings;
use rtrb::{Consumer, Producer, RingBuffer};
use std::alloc::{AllocError, Global};

/// Where a CPU comes home.
pub(crate) type Home<D> = Consumer<Cpu<Enablings>, Global, HomeRule<D>>;

/// The way by which it comes there.
pub(crate) type Way<D> = Producer<Cpu<Enablings>, Global, HomeRule<D>>;

/// A ring for one way home, through which nothing went yet.
pub(crate) fn ring<D: Duty>(alloc: Global) -> Result<(Way<D>, Home<D>), AllocError>
    ensures pair { IfOk result (λ r. IsPair r.0 r.1) }
    ensures way { IfOk result (λ r. (sent r.0 ≡ []) × (known_free r.0 ≡ 2)) }
    ensures home { IfOk result (λ r. (received r.1 ≡ []) × (known_items r.1 ≡ [])) }
{
    RingBuffer::with_protocol::<Global, HomeRule<D>>(alloc, 2)
}

/// A CPU, once it has gone through its ring, so whatever comes after it is that CPU. There is room for it to come home.
pub(crate) fn pass<D: Duty>(
    way: Way<D>,
    home: Home<D>,
    cpu: Cpu<Enablings>,
) -> (Way<D>, Home<D>, Cpu<Enablings>)
    requires pair { IsPair way home }
    requires way { (sent way ≡ []) × (known_free way ≡ 2) }
    requires home { (received home ≡ []) × (known_items home ≡ []) }
    ensures same { (sent result.0 ≡ cpu ∷ []) × (received result.1 ≡ cpu ∷ []) × (result.2 ≡ cpu) }
    ensures room { 0 < known_free result.0 }
{
    let (mut way, mut home) = (way, home);
    way.push_reserved(cpu);
    home.slots_beside(&mut way);
    let cpu = home.pop_known();
    (way, home, cpu)
}
