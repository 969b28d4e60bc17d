use crate::Batch;
use crate::moves::Moves;
use rtrb::{Consumer, Producer, Protocol, PushError};
use std::alloc::Global;

/// One end of a pair of rings: the half that it pushes into and the half that it pops from. Nothing but the two calls here moves
/// them, and each counts the move that it makes, whatever the ring answers.
#[derive(Drop)]
pub(crate) struct Rings<P: Protocol<Batch>, Q: Protocol<Batch>> {
    pushing: Producer<Batch, Global, P>,
    popping: Consumer<Batch, Global, Q>,
    moves: Moves,
}

impl<P: Protocol<Batch>, Q: Protocol<Batch>> Rings<P, Q> {
    ghost use Rattle.std.specs.Prelude.{◌≡◌, ◌<◌, ◌≤◌, ◌+◌, [], ◌∷◌, ◌++◌, length, IsOk, OnOk, IfErr, IsSome, IfSome, IfNone};
    ghost use mathlib.Core.List.{IsPrefix};
    ghost use Rattle.rtrb.specs.Ring.{sent, known_free, received, known_items, SameProducer, SameConsumer};

    /// An end through which nothing went yet.
    pub(crate) fn new(
        pushing: Producer<Batch, Global, P>,
        popping: Consumer<Batch, Global, Q>,
    ) -> Rings<P, Q>
        ensures { (result.pushing ≡ pushing) × (result.popping ≡ popping) × (result.moves.count ≡ 0) }
    {
        Rings {
            pushing,
            popping,
            moves: Moves::none(),
        }
    }

    /// One push. A refused batch comes back.
    pub(crate) fn push(&mut self, batch: Batch) -> Result<(), Batch>
        requires { P.allows (sent self.old.pushing) batch }
        ensures moves { self.new.moves.count ≡ self.old.moves.count + 1 }
        ensures popping { self.new.popping ≡ self.old.popping }
        ensures ring { SameProducer self.old.pushing self.new.pushing }
        ensures ok { OnOk result ((sent self.new.pushing ≡ sent self.old.pushing ++ batch ∷ []) × (known_free self.old.pushing ≤ known_free self.new.pushing + 1)) }
        ensures full { IfErr result (λ back. (back ≡ batch) × (sent self.new.pushing ≡ sent self.old.pushing) × (known_free self.new.pushing ≡ 0)) }
        ensures succeeds { 0 < known_free self.old.pushing → IsOk result }
    {
        self.moves.count();
        match self.pushing.push(batch) {
            Ok(()) => Ok(()),
            Err(PushError::Full(back)) => Err(back),
        }
    }

    /// One pop.
    pub(crate) fn pop(&mut self) -> Option<Batch>
        ensures moves { self.new.moves.count ≡ self.old.moves.count + 1 }
        ensures pushing { self.new.pushing ≡ self.old.pushing }
        ensures ring { SameConsumer self.old.popping self.new.popping }
        ensures came { IfSome result (λ batch. received self.new.popping ≡ received self.old.popping ++ batch ∷ []) }
        ensures next { IfSome result (λ batch. IsPrefix (known_items self.old.popping) (batch ∷ known_items self.new.popping)) }
        ensures allowed { IfSome result (λ batch. Q.allows (received self.old.popping) batch) }
        ensures none { IfNone result ((received self.new.popping ≡ received self.old.popping) × (known_items self.new.popping ≡ [])) }
        ensures succeeds { 0 < length (known_items self.old.popping) → IsSome result }
    {
        self.moves.count();
        self.popping.pop().ok()
    }

    /// The two halves, which are moved no more by this end.
    pub(crate) fn apart(self) -> (Producer<Batch, Global, P>, Consumer<Batch, Global, Q>)
        ensures { (result.0 ≡ self.pushing) × (result.1 ≡ self.popping) }
    {
        let Rings {
            pushing,
            popping,
            moves: _,
        } = self;
        (pushing, popping)
    }
}
