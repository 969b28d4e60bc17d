ghost use Rattle.std.specs.Prelude.{◌≡◌, true, false};
ghost use Rattle.dspec_interleaving.specs.Calls.{is_actor, is_idle};

use crate::world::World;
use dspec_buffer::TraceBuffer;
use dspec_deeds::Actor;
use dspec_record::Schema;
use std::alloc::AllocError;

/// Who looks on at a play. It can only be refused a growth.
pub trait Onlooker<S: Schema, B: TraceBuffer<S>> {
    /// What the actor's next step finds, in the turn of that number, counted from 1; 0 after the last turn.
    fn before(&mut self, world: &World<S, B>, turn: u64, actor: Actor) -> Result<(), AllocError>
        requires there { is_actor world.now.state.config actor ≡ true }
        requires busy { is_idle actor world.now.state ≡ false };

    /// What that step has left.
    fn after(&mut self, world: &World<S, B>) -> Result<(), AllocError>;
}

// Nobody looks on.
#[derive(Clone, Copy)]
pub(crate) struct Nobody;

impl<S: Schema, B: TraceBuffer<S>> Onlooker<S, B> for Nobody {
    fn before(&mut self, _: &World<S, B>, _: u64, _: Actor) -> Result<(), AllocError> {
        Ok(())
    }

    fn after(&mut self, _: &World<S, B>) -> Result<(), AllocError> {
        Ok(())
    }
}
