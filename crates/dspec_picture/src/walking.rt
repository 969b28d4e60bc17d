//! The play of turns, told step by step.
ghost use Rattle.std.specs.Prelude.{◌≡◌, ◌≢◌, IfErr, IfOk, None, Some};
ghost use Rattle.dspec_deeds.specs.Ranges.{start_fault};
ghost use Rattle.dspec_interleaving.specs.declared.outcome.PlayFault.TheVariants as failure;
ghost use Rattle.dspec_interleaving.specs.Plays.{play_fault};

use crate::room::{CpuBuffers, NO_BUFFERS, room_at};
use crate::telling::tell_step;
use crate::words::tell_after;
use dspec_buffer::TraceBuffer;
use dspec_core::{Onlooker, World, play_shown};
use dspec_deeds::{Actor, Config, Deed, Turn};
use dspec_interleaving::PlayFault;
use dspec_record::{Header, Schema};
use std::alloc::{AllocError, Global};

/// The number of a turn, counted from 1; 0 after the last.
fn tell_turn(text: &mut String, turn: u64) -> Result<(), AllocError> {
    if turn == 0 {
        return text.push_str("end, ");
    }
    write!(text, "turn {turn}, ")
}

fn tell_actor(text: &mut String, actor: Actor) -> Result<(), AllocError> {
    match actor {
        Actor::Consumer => text.push_str("consumer"),
        Actor::Cpu(cpu) => write!(text, "cpu {cpu}"),
    }
}

/// Deeds, each after what is told.
fn tell_deeds<S: Schema>(
    text: &mut String,
    config: &Config,
    schema: &S,
    room: CpuBuffers,
    header: Header,
    deeds: &[Deed],
) -> Result<(), AllocError> {
    for deed in deeds {
        tell_after(text, config, schema, room, header, deed)?;
    }
    Ok(())
}

/// The deeds after so many.
fn after(deeds: &[Deed], count: usize) -> &[Deed] {
    &deeds[count.min(deeds.len())..]
}

/// Who tells a play's steps: the text so far, and what the last step found.
#[derive(Drop)]
struct Teller {
    header: Header,
    text: String,
    room: CpuBuffers,
    deeds: usize,
}

impl<S: Schema, B: TraceBuffer<S>> Onlooker<S, B> for Teller {
    fn before(&mut self, world: &World<S, B>, turn: u64, actor: Actor) -> Result<(), AllocError> {
        self.deeds = world.deeds().len();
        self.room = room_at(world, actor);
        tell_turn(&mut self.text, turn)?;
        tell_actor(&mut self.text, actor)?;
        tell_step(&mut self.text, world, actor)
    }

    fn after(&mut self, world: &World<S, B>) -> Result<(), AllocError> {
        let deeds = after(world.deeds(), self.deeds);
        let (config, schema) = (world.config(), world.schema());
        tell_deeds(
            &mut self.text,
            config,
            schema,
            self.room,
            self.header,
            deeds,
        )?;
        self.text.push_str("\n")
    }
}

/// The steps of the play of these turns, a line each. Refused as `play` refuses it; `Memory` where a growth was refused.
pub fn steps_of<S: Schema>(
    alloc: Global,
    header: Header,
    config: &Config,
    schema: S,
    turns: &[Turn],
) -> Result<String, PlayFault>
    ensures played { IfOk result (λ _. play_fault (S.shape_of schema) (S.accepted schema) config.now turns.now ≡ None) }
    ensures refused { IfErr result (λ fault. fault ≢ failure.Memory → play_fault (S.shape_of schema) (S.accepted schema) config.now turns.now ≡ Some fault) }
    ensures memory { IfErr result (λ fault. fault ≡ failure.Memory → start_fault config.now ≡ None) }
{
    let mut teller = Teller {
        header,
        text: String::new(alloc),
        room: NO_BUFFERS,
        deeds: 0,
    };
    let _outcome = play_shown(alloc, config, schema, turns, &mut teller)?;
    Ok(teller.text)
}
