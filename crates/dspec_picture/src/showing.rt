//! What the world shows of slots before a step, and which word an exchange attempts.
ghost use Rattle.std.specs.Prelude.{◌<◌};
ghost use Rattle.dspec_interleaving.specs.Coherent.{IsSlot};

use dspec_buffer::TraceBuffer;
use dspec_core::World;
use dspec_record::Schema;
use dspec_word::{Act, SpecId, Word};

/// The word of a slot.
pub(crate) fn word_at<S: Schema, B: TraceBuffer<S>>(world: &World<S, B>, slot: u32) -> Word
    requires { IsSlot world.now.state.config slot }
{
    world.words()[(slot - 1) as usize]
}

/// Whether the CPU is a caller of the speculation, by the slot's mark.
pub(crate) fn is_marked<S: Schema, B: TraceBuffer<S>>(
    world: &World<S, B>,
    cpu: u32,
    id: SpecId,
) -> bool
    requires cpu { cpu < world.now.state.config.cpus }
    requires slot { IsSlot world.now.state.config id.slot }
{
    world.side(cpu).is_mine(id)
}

/// The CPU's acknowledgement of the slot: one more than the issue that it settled last, or 0.
pub(crate) fn ack<S: Schema, B: TraceBuffer<S>>(world: &World<S, B>, cpu: u32, slot: u32) -> u64
    requires cpu { cpu < world.now.state.config.cpus }
    requires slot { IsSlot world.now.state.config slot }
{
    world.side(cpu).acks[(slot - 1) as usize]
}

/// The word that an exchange attempts.
pub(crate) fn attempted(act: Act, from: Word) -> Word {
    match act {
        Act::Attempt(to) => to,
        _ => from,
    }
}
