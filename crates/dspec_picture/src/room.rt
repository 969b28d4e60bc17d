//! What a step finds room for, before it is made.
ghost use Rattle.std.specs.Prelude.{◌≡◌, ◌<◌, ◌^◌, true};
ghost use Rattle.dspec_interleaving.specs.{Calls.is_actor, Coherent.IsSlot, Promised.HasHeadline};
ghost use Rattle.dspec_picture.specs.Tellable.{CanBeTold};

use crate::showing::is_marked;
use dspec_buffer::TraceBuffer;
use dspec_core::World;
use dspec_deeds::Actor;
use dspec_interleaving::CallPlace;
use dspec_record::Schema;
use dspec_word::SpecId;

/// The buffers of a CPU as a step finds them.
#[derive(Clone, Copy, Debug)]
pub struct CpuBuffers {
    /// Whether the active principal buffer takes nothing more.
    pub closed: bool,
    /// How far that reaches, in bytes.
    pub reach: u32,
    /// What the CPU holds of the speculation that the step is about, in bytes.
    pub held: u32,
}

/// Nothing in them, and nothing closed.
pub(crate) const NO_BUFFERS: CpuBuffers = CpuBuffers {
    closed: false,
    reach: 0,
    held: 0,
};

/// What the CPU holds of a speculation, in bytes: nothing where it is no caller.
fn held_bytes<S: Schema, B: TraceBuffer<S>>(world: &World<S, B>, cpu: u32, id: SpecId) -> u32
    requires cpu { cpu < world.now.state.config.cpus }
    requires slot { IsSlot world.now.state.config id.slot }
{
    if is_marked(world, cpu, id) {
        return world.side(cpu).speculative[id.slot() as usize - 1].offset();
    }
    0
}

/// The same of the speculation that the next step of a call is about, where that may find no room.
fn aim_bytes<S: Schema, B: TraceBuffer<S>>(world: &World<S, B>, cpu: u32, flight: CallPlace) -> u32
    requires cpu { cpu < world.now.state.config.cpus }
    requires told { CanBeTold world.now.state.config flight }
{
    match flight {
        CallPlace::SpeculateLoad(id, _) => held_bytes(world, cpu, id),
        CallPlace::SpeculateTry(id, _, _) => held_bytes(world, cpu, id),
        CallPlace::CommitTry(id, _) => held_bytes(world, cpu, id),
        CallPlace::ServiceStore(slot, word, _) => {
            held_bytes(world, cpu, SpecId::of(word.issue(), slot))
        }
        _ => 0,
    }
}

/// The room that the CPU's next step finds.
fn room_of_cpu<S: Schema, B: TraceBuffer<S>>(world: &World<S, B>, cpu: u32) -> CpuBuffers
    requires promised { HasHeadline (S.shape_of world.now.schema) world.now.state }
    requires cpu { cpu < world.now.state.config.cpus }
{
    let flight = world.progress(cpu).flight;
    let held = match flight {
        None => 0,
        Some(flight) => aim_bytes(world, cpu, flight),
    };
    let side = world.side(cpu);
    CpuBuffers {
        closed: side.is_closed(world.config()),
        reach: side.active.offset(),
        held,
    }
}

/// The room that the actor's next step finds.
pub(crate) fn room_at<S: Schema, B: TraceBuffer<S>>(world: &World<S, B>, actor: Actor) -> CpuBuffers
    requires promised { HasHeadline (S.shape_of world.now.schema) world.now.state }
    requires exists { is_actor world.now.state.config actor ≡ true }
{
    match actor {
        Actor::Consumer => NO_BUFFERS,
        Actor::Cpu(cpu) => room_of_cpu(world, cpu),
    }
}

fn rounded(offset: u32, align: u32) -> u64
    ensures { result < 2 ^ 33 }
{
    let offset = u64::from(offset);
    if align == 8 {
        return (offset + 7) / 8 * 8;
    }
    (offset + 3) / 4 * 4
}

/// The bytes that so many take after a place, those of the padding before them with them.
pub(crate) fn bytes_needed(reach: u32, align: u32, size: u32) -> u64 {
    if size == 0 {
        return 0;
    }
    (rounded(reach, align) + u64::from(size)).saturating_sub(u64::from(reach))
}
