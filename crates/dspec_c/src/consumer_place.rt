use crate::consumer_homing::{ConsumerHoming, ConsumerRule};
use crate::desk::open;
use crate::out_consumer::OutConsumer;
use dspec_cpu::Shared;
use rtrb::Producer;
use std::alloc::{AllocError, Global};
use std::marker::Model;
use std::sync::Arc;

/// The place of the consumer at its session, where it waits to be handed out, and where it comes home. The consumer has gone once
/// through the ring that leads there, so whatever comes is that consumer of that session.
#[derive(Drop)]
pub struct ConsumerPlace {
    desk: rtrb::Consumer<ConsumerHoming, Global, ConsumerRule>,
    way: Option<Producer<ConsumerHoming, Global, ConsumerRule>>,
    back: Option<dspec_session_core::Consumer>,
}

impl Model for ConsumerPlace {
    ghost use Rattle.std.specs.Prelude.{◌≡◌, is_some, slice_get, IfSome, Some};
    ghost use Rattle.rtrb.specs.Ring.{known_free, received, sent};
    ghost use Rattle.dspec_c.specs.{ConsumerHomes.AreHomeOf, ConsumerHomes.TheirStay, ConsumerHomes.Theirs, Homes.IsDesk, Homes.IsUnused};

    ghost Value = { TheirStay };

    ghost view = { λ d. record { first = slice_get (received d.desk) 0; inside = d.back; waits = is_some d.way } };

    ghost invariant = { λ d. (first : Theirs) × (slice_get (received d.desk) 0 ≡ Some first) × IsDesk AreHomeOf first (received d.desk) d.back × IfSome d.way (λ w. IsUnused first (received d.desk) (sent w) (known_free w) d.back) };
}

impl ConsumerPlace {
    ghost use Rattle.std.specs.{Arc.arc_value, Prelude.◌≡◌, Prelude.IfNone, Prelude.IfOk, Prelude.IfSome, Prelude.IsSome, Prelude.Some, Prelude.false, Prelude.is_some};
    ghost use Rattle.dspec_cpu.specs.Lists.{words_of};
    ghost use Rattle.dspec_session_core.specs.Consumers.{IsConsumerOf, IsSameConsumer};
    ghost use Rattle.dspec_c.specs.{ConsumerHomes.IsTheirPlaceWith, ConsumerHomes.LeaveTheirs, ConsumerHomes.Theirs, Homes.Came, Whole.they_wait_so};

    /// The consumer's place, with the consumer in it, which waits.
    pub fn make(alloc: Global, consumer: ConsumerHoming) -> Result<ConsumerPlace, AllocError>
        ensures { IfOk result (λ r. r ≡ they_wait_so consumer.shared consumer.consumer) }
    {
        let (way, desk, consumer) = open(alloc, consumer)?;
        Ok(ConsumerPlace {
            desk,
            way: Some(way),
            back: Some(consumer.into_consumer()),
        })
    }

    /// Whether the consumer is at its place.
    pub fn is_in(&mut self) -> bool
        ensures came { Came self.old self.new }
        ensures looked { result ≡ is_some self.new.inside }
    {
        if self.back.is_some() {
            return true;
        }
        match self.desk.pop() {
            Ok(consumer) => {
                self.back = Some(consumer.into_consumer());
                true
            }
            Err(_) => false,
        }
    }

    /// Whether the consumer waits to be handed out.
    pub fn waits(&self) -> bool
        ensures { result ≡ self.now.waits }
    {
        self.way.is_some()
    }

    /// The consumer, with what it shares, where it waits.
    pub fn hand_out(&mut self, shared: Arc<Shared, Global>) -> Option<OutConsumer>
        requires { IsTheirPlaceWith (arc_value shared) self.old.first }
        ensures leave { IfSome result (λ out. LeaveTheirs (arc_value shared) self.old out self.new) }
        ensures none { IfNone result ((self.old.waits ≡ false) × (self.new ≡ self.old)) }
    {
        let Some(way) = self.way.take() else {
            return None;
        };
        let consumer = self.back.take().unwrap();
        Some(OutConsumer::of(way, ConsumerHoming::of(shared, consumer)))
    }

    /// The consumer that is inside.
    pub fn into_home(self) -> dspec_session_core::Consumer
        requires { IsSome self.inside }
        ensures is { self.inside ≡ Some result }
        ensures same { (first : Theirs) → self.first ≡ Some first → IsSameConsumer first.consumer result × IsConsumerOf (words_of first.shared) result }
    {
        let ConsumerPlace {
            desk: _,
            way: _,
            back,
        } = self;
        back.unwrap()
    }
}
