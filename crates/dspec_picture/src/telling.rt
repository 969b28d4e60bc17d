//! What the next step of a call in flight does, in words, as the world shows it.
ghost use Rattle.std.specs.Prelude.{◌≡◌, ◌<◌, true};
ghost use Rattle.dspec_interleaving.specs.{Calls.is_about, Calls.is_actor, Promised.HasHeadline};
ghost use Rattle.dspec_picture.specs.Tellable.{CanBeTold, ConsumerCanBeTold, IsNamedSlot};

use crate::showing::{ack, attempted, is_marked, word_at};
use crate::words::{tell_about, tell_exchange, tell_load};
use dspec_buffer::TraceBuffer;
use dspec_core::World;
use dspec_deeds::{Actor, ConsumerOp, CpuOp, Policy};
use dspec_interleaving::{CallPlace, ConsumerFlight, Spare};
use dspec_record::Schema;
use dspec_word::{Act, SpecId, Word, commit_at, discard_at, open_at, reap_at, speculate_at};
use std::alloc::AllocError;

/// A load of a slot's word.
fn tell_slot<S: Schema, B: TraceBuffer<S>>(
    text: &mut String,
    world: &World<S, B>,
    slot: u32,
) -> Result<(), AllocError>
    requires slot { IsNamedSlot world.now.state.config slot }
{
    tell_load(text, slot, word_at(world, slot))
}

/// An exchange of a slot's word, by what the call does at the word that it was shown.
fn tell_try<S: Schema, B: TraceBuffer<S>>(
    text: &mut String,
    world: &World<S, B>,
    slot: u32,
    from: Word,
    act: Act,
) -> Result<(), AllocError>
    requires slot { IsNamedSlot world.now.state.config slot }
{
    tell_exchange(text, slot, from, attempted(act, from), word_at(world, slot))
}

fn tell_running(text: &mut String, stopped: bool) -> Result<(), AllocError> {
    if stopped {
        return text.push_str("loads that the session is stopped");
    }
    text.push_str("loads that the session runs")
}

fn tell_ask(text: &mut String, wanted: bool) -> Result<(), AllocError> {
    if wanted {
        return text.push_str("loads the ask: a batch is wanted");
    }
    text.push_str("loads the ask: no batch is wanted")
}

/// Whether the consumer asked for a batch that the CPU hasn't sealed.
fn is_wanted<S: Schema, B: TraceBuffer<S>>(world: &World<S, B>, cpu: u32) -> bool
    requires cpu { cpu < world.now.state.config.cpus }
{
    world.side(cpu).seals < world.progress(cpu).want
}

/// The first step of a service.
fn tell_service<S: Schema, B: TraceBuffer<S>>(
    text: &mut String,
    world: &World<S, B>,
    cpu: u32,
) -> Result<(), AllocError>
    requires cpu { cpu < world.now.state.config.cpus }
    requires slot { IsNamedSlot world.now.state.config 1 }
{
    match world.config().policy {
        Policy::Fill => tell_slot(text, world, 1),
        Policy::Switch => tell_ask(text, is_wanted(world, cpu)),
    }
}

/// The first step of a CPU's call.
fn tell_begun<S: Schema, B: TraceBuffer<S>>(
    text: &mut String,
    world: &World<S, B>,
    cpu: u32,
    op: CpuOp,
) -> Result<(), AllocError>
    requires cpu { cpu < world.now.state.config.cpus }
    requires slot { IsNamedSlot world.now.state.config 1 }
{
    if matches!(op, CpuOp::Service) {
        return tell_service(text, world, cpu);
    }
    if world.side(cpu).calls >= world.config().max_calls {
        return text.push_str("has made all its calls");
    }
    tell_running(text, world.is_stopped())
}

fn tell_pop(text: &mut String, spare: Spare) -> Result<(), AllocError> {
    match spare {
        Spare::GivenBack => text.push_str("pops a spare buffer"),
        _ => text.push_str("finds no spare buffer to pop"),
    }
}

fn tell_take(text: &mut String, spare: Spare, cpu: u32) -> Result<(), AllocError> {
    match spare {
        Spare::Handed => write!(text, "pops a batch of cpu {cpu}"),
        _ => write!(text, "finds no batch to pop of cpu {cpu}"),
    }
}

fn tell_give_back(text: &mut String, spare: Spare, cpu: u32) -> Result<(), AllocError> {
    match spare {
        Spare::Out => write!(text, "pushes a spare buffer to cpu {cpu}"),
        _ => write!(text, "has no buffer to push to cpu {cpu}"),
    }
}

/// The next step of a CPU's call.
fn tell_cpu<S: Schema, B: TraceBuffer<S>>(
    text: &mut String,
    world: &World<S, B>,
    cpu: u32,
    flight: CallPlace,
) -> Result<(), AllocError>
    requires cpu { cpu < world.now.state.config.cpus }
    requires told { CanBeTold world.now.state.config flight }
{
    match flight {
        CallPlace::Begun(op) => tell_begun(text, world, cpu, op),
        CallPlace::ScanLoad(slot) => tell_slot(text, world, slot),
        CallPlace::ScanTry(slot, from) => {
            let act = open_at(from, world.config().max_issues);
            tell_try(text, world, slot, from, act)
        }
        CallPlace::SpeculateLoad(id, _) => tell_slot(text, world, id.slot()),
        CallPlace::SpeculateTry(id, _, from) => {
            let act = speculate_at(from, id, is_marked(world, cpu, id));
            tell_try(text, world, id.slot(), from, act)
        }
        CallPlace::CommitLoad(id) => tell_slot(text, world, id.slot()),
        CallPlace::CommitTry(id, from) => {
            let act = commit_at(from, id, is_marked(world, cpu, id));
            tell_try(text, world, id.slot(), from, act)
        }
        CallPlace::CommitRelease(id, _) => write!(text, "releases slot {}", id.slot()),
        CallPlace::DiscardLoad(id) => tell_slot(text, world, id.slot()),
        CallPlace::DiscardTry(id, from) => {
            let act = discard_at(from, id, is_marked(world, cpu, id));
            tell_try(text, world, id.slot(), from, act)
        }
        CallPlace::ServicePop => tell_pop(text, world.progress(cpu).spare),
        CallPlace::ServicePush => text.push_str("pushes the batch"),
        CallPlace::ServiceLoad(slot, _) => tell_slot(text, world, slot),
        CallPlace::ServiceStore(slot, _, _) => {
            write!(text, "stores its acknowledgement of slot {slot}")
        }
    }
}

/// The first step of the consumer's call.
fn tell_consumer_begun<S: Schema, B: TraceBuffer<S>>(
    text: &mut String,
    world: &World<S, B>,
    op: ConsumerOp,
) -> Result<(), AllocError>
    requires about { is_about world.now.state.config op ≡ true }
    requires slot { IsNamedSlot world.now.state.config 1 }
{
    match op {
        ConsumerOp::Ask(cpu) => write!(text, "stores the ask of cpu {cpu}"),
        ConsumerOp::Take(cpu) => tell_take(text, world.progress(cpu).spare, cpu),
        ConsumerOp::GiveBack(cpu) => tell_give_back(text, world.progress(cpu).spare, cpu),
        ConsumerOp::Clean => tell_slot(text, world, 1),
        ConsumerOp::Stop => text.push_str("stores the stop"),
    }
}

/// The load of an acknowledgement of a speculation.
fn tell_ack(text: &mut String, cpu: u32, id: SpecId, there: bool) -> Result<(), AllocError> {
    write!(text, "loads whether cpu {cpu} acknowledged {}", id.raw())?;
    if there {
        return text.push_str(": yes");
    }
    text.push_str(": no")
}

/// The next step of the consumer's call.
fn tell_consumer<S: Schema, B: TraceBuffer<S>>(
    text: &mut String,
    world: &World<S, B>,
    flight: ConsumerFlight,
) -> Result<(), AllocError>
    requires told { ConsumerCanBeTold world.now.state.config flight }
{
    match flight {
        ConsumerFlight::Begun(op) => tell_consumer_begun(text, world, op),
        ConsumerFlight::CleanLoad(slot, _) => tell_slot(text, world, slot),
        ConsumerFlight::CleanAck(slot, word, cpu, _) => {
            let id = SpecId::of(word.issue(), slot);
            tell_ack(text, cpu, id, word.issue() < ack(world, cpu, slot))
        }
        ConsumerFlight::CleanReap(slot, word, _) => {
            tell_try(text, world, slot, word, reap_at(word, true))
        }
    }
}

/// A call of a CPU, as a play's lines name it.
fn tell_cpu_op(text: &mut String, op: CpuOp) -> Result<(), AllocError> {
    match op {
        CpuOp::Service => text.push_str("service"),
        CpuOp::Trace(_) => text.push_str("trace"),
        CpuOp::Speculation => text.push_str("speculation"),
        CpuOp::Speculate(id, _) => tell_about(text, "speculate ", id),
        CpuOp::Commit(id) => tell_about(text, "commit ", id),
        CpuOp::Discard(id) => tell_about(text, "discard ", id),
    }
}

/// A call of the consumer, as a play's lines name it.
fn tell_consumer_op(text: &mut String, op: ConsumerOp) -> Result<(), AllocError> {
    match op {
        ConsumerOp::Clean => text.push_str("clean"),
        ConsumerOp::Stop => text.push_str("stop"),
        ConsumerOp::Ask(cpu) => write!(text, "ask {cpu}"),
        ConsumerOp::Take(cpu) => write!(text, "take {cpu}"),
        ConsumerOp::GiveBack(cpu) => write!(text, "giveback {cpu}"),
    }
}

/// A call of a CPU, between what is told before it and its step.
fn tell_cpu_name(text: &mut String, op: CpuOp) -> Result<(), AllocError> {
    text.push_str(" ")?;
    tell_cpu_op(text, op)?;
    text.push_str(": ")
}

/// The same of a call of the consumer.
fn tell_consumer_name(text: &mut String, op: ConsumerOp) -> Result<(), AllocError> {
    text.push_str(" ")?;
    tell_consumer_op(text, op)?;
    text.push_str(": ")
}

/// The CPU's call; nothing where none is in flight.
fn tell_cpu_call<S: Schema, B: TraceBuffer<S>>(
    text: &mut String,
    world: &World<S, B>,
    cpu: u32,
) -> Result<(), AllocError>
    requires { cpu < world.now.state.config.cpus }
{
    let flight = world.progress(cpu).flight;
    match flight {
        None => Ok(()),
        Some(flight) => tell_cpu_name(text, flight.op()),
    }
}

/// The consumer's call; nothing where none is in flight.
fn tell_consumer_call<S: Schema, B: TraceBuffer<S>>(
    text: &mut String,
    world: &World<S, B>,
) -> Result<(), AllocError> {
    let flight = world.consumer().flight;
    match flight {
        None => Ok(()),
        Some(flight) => tell_consumer_name(text, flight.op()),
    }
}

/// The next step of the CPU; nothing where no call is in flight.
fn tell_cpu_step<S: Schema, B: TraceBuffer<S>>(
    text: &mut String,
    world: &World<S, B>,
    cpu: u32,
) -> Result<(), AllocError>
    requires promised { HasHeadline (S.shape_of world.now.schema) world.now.state }
    requires cpu { cpu < world.now.state.config.cpus }
{
    let flight = world.progress(cpu).flight;
    match flight {
        None => Ok(()),
        Some(flight) => tell_cpu(text, world, cpu, flight),
    }
}

/// The next step of the consumer; nothing where no call is in flight.
fn tell_consumer_step<S: Schema, B: TraceBuffer<S>>(
    text: &mut String,
    world: &World<S, B>,
) -> Result<(), AllocError>
    requires { HasHeadline (S.shape_of world.now.schema) world.now.state }
{
    let flight = world.consumer().flight;
    match flight {
        None => Ok(()),
        Some(flight) => tell_consumer(text, world, flight),
    }
}

/// The actor's call, and its next step.
pub(crate) fn tell_step<S: Schema, B: TraceBuffer<S>>(
    text: &mut String,
    world: &World<S, B>,
    actor: Actor,
) -> Result<(), AllocError>
    requires promised { HasHeadline (S.shape_of world.now.schema) world.now.state }
    requires exists { is_actor world.now.state.config actor ≡ true }
{
    match actor {
        Actor::Cpu(cpu) => {
            tell_cpu_call(text, world, cpu)?;
            tell_cpu_step(text, world, cpu)
        }
        Actor::Consumer => {
            tell_consumer_call(text, world)?;
            tell_consumer_step(text, world)
        }
    }
}
