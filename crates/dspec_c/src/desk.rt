ghost use Rattle.std.specs.Prelude.{◌≡◌, ◌<◌, [], ◌∷◌, IfOk};
ghost use Rattle.rtrb.specs.Ring.{IsPair, known_free, known_items, sent, received};

use rtrb::{Consumer, Producer, Protocol, RingBuffer};
use std::alloc::{AllocError, Global};

/// The way home of a CPU, or of the consumer.
pub type Way<T, P> = Producer<T, Global, P>;

/// Where it comes home.
pub type Desk<T, P> = Consumer<T, Global, P>;

/// A ring for one way home, through which nothing went yet.
pub fn ring<T: Drop, P: Protocol<T>>(alloc: Global) -> Result<(Way<T, P>, Desk<T, P>), AllocError>
    ensures pair { IfOk result (λ r. IsPair r.0 r.1) }
    ensures way { IfOk result (λ r. (sent r.0 ≡ []) × (known_free r.0 ≡ 2)) }
    ensures desk { IfOk result (λ r. (received r.1 ≡ []) × (known_items r.1 ≡ [])) }
{
    RingBuffer::with_protocol::<Global, P>(alloc, 2)
}

/// What comes home, once it has gone through its ring. There is room for it to come home.
pub fn pass<T, P: Protocol<T>>(
    way: Way<T, P>,
    desk: Desk<T, P>,
    home: T,
) -> (Way<T, P>, Desk<T, P>, T)
    requires allowed { P.allows [] home }
    requires pair { IsPair way desk }
    requires way { (sent way ≡ []) × (known_free way ≡ 2) }
    requires desk { (received desk ≡ []) × (known_items desk ≡ []) }
    ensures same { (sent result.0 ≡ home ∷ []) × (received result.1 ≡ home ∷ []) × (result.2 ≡ home) }
    ensures room { 0 < known_free result.0 }
{
    let (mut way, mut desk) = (way, desk);
    way.push_reserved(home);
    desk.slots_beside(&mut way);
    let home = desk.pop_known();
    (way, desk, home)
}

/// The ring of what comes home, through which it has gone once. There is room for it to come home.
pub fn open<T: Drop, P: Protocol<T>>(
    alloc: Global,
    home: T,
) -> Result<(Way<T, P>, Desk<T, P>, T), AllocError>
    requires { P.allows [] home }
    ensures same { IfOk result (λ r. (sent r.0 ≡ home ∷ []) × (received r.1 ≡ home ∷ []) × (r.2 ≡ home)) }
    ensures room { IfOk result (λ r. 0 < known_free r.0) }
{
    let (way, desk) = ring(alloc)?;
    Ok(pass(way, desk, home))
}
