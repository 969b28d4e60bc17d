//! What a world shows beside its deeds: the words, whether it was stopped, and the sides of its CPUs.
ghost use Rattle.std.specs.Prelude.{◌≡◌, ◌<◌};

use super::worlds::{made, run_to_end};
use super::*;
use dspec_buffer::{ByteBuffer, ListBuffer, TraceBuffer};
use dspec_core::World;
use dspec_word::{Code, Word};

/// Two CPUs and two slots, with room for four records.
const FOUR: Config = Config {
    cpus: 2,
    nspec: 2,
    bufsize: 16,
    specsize: 8,
    ..SMALL
};

/// A whole call of a CPU, and what it has to answer.
fn call<B: TraceBuffer<DefaultAction>>(
    rt: &impl Abort,
    world: &mut World<DefaultAction, B>,
    cpu: u32,
    op: CpuOp,
    answer: Answer,
) -> Result<(), Fail>
    requires { cpu < world.old.state.config.cpus }
    ensures { world.new.state.config ≡ world.old.state.config }
{
    world.begin_cpu(cpu, op)?;
    let (told, _steps) = run_to_end(world, Actor::Cpu(cpu))?;
    assert!(rt; told == answer);
    Ok(())
}

/// Compares the words of both slots, and whether the session was stopped.
fn words<B: TraceBuffer<DefaultAction>>(
    rt: &impl Abort,
    world: &World<DefaultAction, B>,
    words: [Word; 2],
    is_stopped: bool,
) {
    assert!(rt; world.words() == words.as_slice());
    assert!(rt; world.is_stopped() == is_stopped);
}

/// Compares of a CPU how many calls it made, how many records its active buffer has and its buffer of the first slot, and how many
/// records it offered.
fn side<B: TraceBuffer<DefaultAction>>(
    rt: &impl Abort,
    world: &World<DefaultAction, B>,
    cpu: u32,
    numbers: [u64; 4],
)
    requires { cpu < world.now.state.config.cpus }
{
    let side = world.side(cpu);
    let held = match side.speculative.first() {
        Some(buffer) => buffer.count(),
        None => u32::MAX,
    };
    let found = [
        side.calls,
        u64::from(side.active.count()),
        u64::from(held),
        side.counts.offered,
    ];
    assert!(rt; found == numbers);
}

/// CPU 1 opens slot 1, keeps a record there and one beside, and commits: a call a row, and what is shown then. Then the session is stopped.
fn look<B: TraceBuffer<DefaultAction>>(rt: &(impl Abort + AllocGlobal)) -> Result<(), Fail> {
    let mut world: World<DefaultAction, B> = made(rt, FOUR, DefaultAction)?;
    let (inactive, id) = (Word::of(0, Code::Inactive), SpecId::from_raw(1));
    words(rt, &world, [inactive; 2], false);
    side(rt, &world, 1, [0, 0, 0, 0]);
    let opened = Answer::Opening(Opening::Id(id));
    call(rt, &mut world, 1, CpuOp::Speculation, opened)?;
    words(rt, &world, [Word::of(0, Code::Active), inactive], false);
    let (speculate, kept) = (CpuOp::Speculate(id, bare(7)), Answer::Spoken(Spoken::Kept));
    call(rt, &mut world, 1, speculate, kept)?;
    words(rt, &world, [Word::of(0, Code::ActiveOne), inactive], false);
    let (trace, kept) = (CpuOp::Trace(bare(8)), Answer::Traced(Traced::Kept));
    call(rt, &mut world, 1, trace, kept)?;
    side(rt, &world, 1, [3, 1, 1, 2]);
    let copied = Answer::Decided(Decided::Copied(1));
    call(rt, &mut world, 1, CpuOp::Commit(id), copied)?;
    words(rt, &world, [Word::of(1, Code::Inactive), inactive], false);
    side(rt, &world, 1, [4, 2, 0, 2]);
    side(rt, &world, 0, [0, 0, 0, 0]);
    world.begin_consumer(ConsumerOp::Stop)?;
    run_to_end(&mut world, Actor::Consumer)?;
    words(rt, &world, [Word::of(1, Code::Inactive), inactive], true);
    Ok(())
}

#[test]
fn words_and_sides(rt: HostRuntime) -> Result<(), Fail> {
    look::<ByteBuffer>(&rt)?;
    look::<ListBuffer>(&rt)?;
    Ok(())
}
