//! Calls of a world, over both kinds of buffer.
ghost use Rattle.std.specs.Prelude.{◌≡◌, ◌<◌, true, IfOk};
ghost use Rattle.dspec_core.specs.Calls.{is_actor};

use super::*;
use dspec_buffer::{ByteBuffer, ListBuffer, TraceBuffer};
use dspec_core::{BeginFault, StartFault, StepFault, Stepped, World};
use dspec_record::{DefaultAction, Enablings, Schema};
use dspec_samples::four_enablings;

/// A record with one value.
pub fn valued(epid: u32, value: u64) -> Rec {
    match Rec::new(epid, &[value]) {
        Some(rec) => rec,
        None => unreachable!(),
    }
}

/// A world, asked for once more where a growth was refused.
pub fn made<S: Schema, B: TraceBuffer<S>>(
    rt: &impl AllocGlobal,
    config: Config,
    schema: S,
) -> Result<World<S, B>, StartFault>
    ensures { IfOk result (λ world. world.state.config ≡ config) }
{
    match World::new(rt.alloc(), config, schema) {
        Err(StartFault::Memory) => World::new(rt.alloc(), config, schema),
        told => told,
    }
}

/// A step, which leaves the configuration as it is.
fn step_once<S: Schema, B: TraceBuffer<S>>(
    world: &mut World<S, B>,
    actor: Actor,
) -> Result<Stepped, StepFault>
    ensures { world.new.state.config ≡ world.old.state.config }
{
    world.step(actor)
}

/// A step, made once more where a growth was refused.
pub fn stepped<S: Schema, B: TraceBuffer<S>>(
    world: &mut World<S, B>,
    actor: Actor,
) -> Result<Stepped, StepFault>
    ensures { world.new.state.config ≡ world.old.state.config }
{
    match step_once(world, actor) {
        Err(StepFault::Memory) => step_once(world, actor),
        told => told,
    }
}

/// Steps of a call that has begun, to its end: its answer, and how many there were.
pub fn run_to_end<S: Schema, B: TraceBuffer<S>>(
    world: &mut World<S, B>,
    actor: Actor,
) -> Result<(Answer, u32), Fail>
    requires { is_actor world.old.state.config actor ≡ true }
    ensures { world.new.state.config ≡ world.old.state.config }
{
    for made in 0..100u32 {
        if world.steps(actor) != made {
            return Err(Fail::from("a step isn't counted"));
        }
        if let Stepped::Done(answer) = stepped(world, actor)? {
            return Ok((answer, made + 1));
        }
    }
    Err(Fail::from("the call goes on"))
}

/// A whole call of CPU 0 or the consumer, with the answer and the number of steps that are wanted.
fn run<S: Schema, B: TraceBuffer<S>>(
    rt: &impl Abort,
    world: &mut World<S, B>,
    line: Line,
    steps: u32,
) -> Result<(), Fail>
    requires { 0 < world.old.state.config.cpus }
    ensures { world.new.state.config ≡ world.old.state.config }
{
    let (_, op, answer) = line;
    let actor = match op {
        Op::Cpu(op) => {
            world.begin_cpu(0, op)?;
            Actor::Cpu(0)
        }
        Op::Consumer(op) => {
            world.begin_consumer(op)?;
            Actor::Consumer
        }
    };
    assert_eq!(rt; run_to_end(world, actor)?, (answer, steps));
    assert!(rt; world.is_idle(actor));
    Ok(())
}

/// Whole calls, one after another, each with the number of its steps.
pub fn runs<S: Schema, B: TraceBuffer<S>>(
    rt: &impl Abort,
    world: &mut World<S, B>,
    lines: &[(Line, u32)],
) -> Result<(), Fail>
    requires { 0 < world.old.state.config.cpus }
    ensures { world.new.state.config ≡ world.old.state.config }
{
    for (line, steps) in lines {
        run(rt, world, *line, *steps)?;
    }
    Ok(())
}

/// Closes the session of one CPU and compares its stream and its counts, before the close and by it. False where a growth was
/// refused, which gives the world up.
pub fn finish<S: Schema, B: TraceBuffer<S>>(
    rt: &(impl Abort + AllocGlobal),
    world: World<S, B>,
    stream: &[Rec],
    report: Report,
) -> Result<bool, Fail>
    requires { world.state.config.cpus ≡ 1 }
{
    assert!(rt; world.is_idle(Actor::Cpu(0)));
    assert!(rt; world.is_idle(Actor::Consumer));
    assert!(rt; world.accepted(0) == stream);
    assert_eq!(rt; world.report(0), report);
    let Ok(close) = world.finish(rt.alloc()) else {
        return Ok(false);
    };
    let streams = close.accepted.as_slice();
    assert!(rt; streams.len() == 1 && streams[0].as_slice() == stream);
    assert!(rt; close.reports.as_slice() == [report].as_slice());
    Ok(true)
}

/// A whole play of one CPU over principal and speculative buffers of these sizes: its calls, each with the number of its steps, all that
/// is accepted, how many records of that were taken, and its counts.
#[derive(Drop)]
struct Row<'a> {
    sizes: [u32; 2],
    policy: Policy,
    lines: &'a [(Line, u32)],
    stream: &'a [Rec],
    taken: usize,
    report: Report,
}

/// Plays a row. False where a growth was refused, which gives the world up.
fn plays<B: TraceBuffer<Enablings>>(
    rt: &(impl Abort + AllocGlobal),
    row: &Row<'_>,
) -> Result<bool, Fail> {
    let [bufsize, specsize] = row.sizes;
    let config = Config {
        bufsize,
        specsize,
        policy: row.policy,
        ..SMALL
    };
    let mut world: World<Enablings, B> = made(rt, config, four_enablings()?)?;
    runs(rt, &mut world, row.lines)?;
    assert!(rt; Some(world.taken(0)) == row.stream.get(..row.taken));
    finish(rt, world, row.stream, row.report)
}

/// Plays a row over both kinds of buffer.
fn plays_both(rt: &(impl Abort + AllocGlobal), row: &Row<'_>) -> Result<(), Fail> {
    assert!(rt; plays::<ByteBuffer>(rt, row)? || plays::<ByteBuffer>(rt, row)?);
    assert!(rt; plays::<ListBuffer>(rt, row)? || plays::<ListBuffer>(rt, row)?);
    Ok(())
}

fn serves(sealed: bool) -> Line {
    let answer = Answer::Served(Served { sealed, settled: 0 });
    whole(0, CpuOp::Service, answer)
}

/// A record for this identifier that isn't kept.
fn wastes(id: SpecId, answer: Spoken) -> Line {
    whole(0, CpuOp::Speculate(id, bare(1)), Answer::Spoken(answer))
}

/// Records after a padding word fill a buffer, which is sealed and taken; two don't fit. Then a block of three enablings is lost though
/// less would fit, and one that fits is copied. The CPU is the one caller, so the slot is given out again at once, and the old identifier is
/// void. The buffer that was given back is a step more of the service that seals another batch; after that a block stands at a multiple of
/// eight.
#[test]
fn switched(rt: HostRuntime) -> Result<(), Fail> {
    let [first, second, third] = [1, 65, 129].map(SpecId::from_raw);
    let (one, two, four) = (bare(1), valued(2, 7), valued(4, 9));
    let three = Rec::new(3, &[171, 4660]).ok_or("two values")?;
    let took = Answer::Took {
        drops: 2,
        from: 0,
        count: 3,
    };
    let row = Row {
        sizes: [32, 32],
        policy: Policy::Switch,
        lines: &[
            (traces(one, Traced::Kept), 1),
            (traces(two, Traced::Kept), 1),
            (traces(valued(2, 8), Traced::Dropped), 1),
            (traces(four, Traced::Kept), 1),
            (traces(one, Traced::Dropped), 1),
            (consumes(ConsumerOp::Ask(0), Answer::AskDone), 1),
            (serves(true), 3),
            (consumes(ConsumerOp::Take(0), took), 1),
            (traces(one, Traced::Kept), 1),
            (opens(0, Opening::Id(first)), 3),
            (speculates(0, first, one), 3),
            (speculates(0, first, two), 2),
            (speculates(0, first, three), 2),
            (wastes(first, Spoken::Dropped), 2),
            (commits(first, Decided::Lost(3)), 4),
            (traces(one, Traced::Kept), 1),
            (opens(0, Opening::Id(second)), 3),
            (speculates(0, second, one), 3),
            (speculates(0, second, two), 2),
            (commits(second, Decided::Copied(2)), 4),
            (wastes(first, Spoken::Void), 2),
            (consumes(ConsumerOp::GiveBack(0), Answer::GaveBack(true)), 1),
            (consumes(ConsumerOp::Ask(0), Answer::AskDone), 1),
            (serves(true), 4),
            (traces(one, Traced::Kept), 1),
            (opens(0, Opening::Id(third)), 3),
            (speculates(0, third, three), 3),
            (commits(third, Decided::Copied(1)), 4),
        ],
        stream: &[one, two, four, one, one, one, two, one, three],
        taken: 3,
        report: Report {
            dropped: 2,
            specdropped: 1,
            lost: 3,
            void: 1,
            drops: 3,
            ..counts(16, 9)
        },
    };
    plays_both(&rt, &row)
}

/// A record dropped in a speculative buffer closes nothing. One that doesn't fit closes the buffer to records that would, and to blocks
/// that have a record. A service is the load of the one word.
#[test]
fn filled(rt: HostRuntime) -> Result<(), Fail> {
    let [first, second, third] = [1, 65, 129].map(SpecId::from_raw);
    let row = Row {
        sizes: [32, 16],
        policy: Policy::Fill,
        lines: &[
            (opens(0, Opening::Id(first)), 3),
            (speculates(0, first, valued(4, 5)), 3),
            (speculates(0, first, valued(4, 6)), 2),
            (wastes(first, Spoken::Dropped), 2),
            (commits(first, Decided::Copied(2)), 4),
            (traces(bare(1), Traced::Kept), 1),
            (traces(valued(2, 7), Traced::Dropped), 1),
            (traces(bare(1), Traced::Dropped), 1),
            (opens(0, Opening::Id(second)), 3),
            (speculates(0, second, bare(1)), 3),
            (commits(second, Decided::Lost(1)), 4),
            (opens(0, Opening::Id(third)), 3),
            (commits(third, Decided::Copied(0)), 4),
            (consumes(ConsumerOp::Ask(0), Answer::AskDone), 1),
            (serves(false), 1),
            (consumes(ConsumerOp::Take(0), Answer::TookNone), 1),
        ],
        stream: &[valued(4, 5), valued(4, 6), bare(1)],
        taken: 0,
        report: Report {
            dropped: 2,
            specdropped: 1,
            lost: 1,
            drops: 3,
            ..counts(7, 3)
        },
    };
    plays_both(&rt, &row)
}

type Small = World<DefaultAction, ListBuffer>;

/// Begins a call of an actor, and compares what that is told.
fn begins(rt: &impl Abort, world: &mut Small, cpu: u32, op: CpuOp, told: Result<(), BeginFault>)
    ensures { world.new.state.config ≡ world.old.state.config }
{
    assert!(rt; world.begin_cpu(cpu, op) == told);
}

/// The same of the consumer.
fn asks(rt: &impl Abort, world: &mut Small, op: ConsumerOp, told: Result<(), BeginFault>)
    ensures { world.new.state.config ≡ world.old.state.config }
{
    assert!(rt; world.begin_consumer(op) == told);
}

/// A step of an actor, and what that is told.
fn steps(rt: &impl Abort, world: &mut Small, actor: Actor, told: Result<Stepped, StepFault>)
    ensures { world.new.state.config ≡ world.old.state.config }
{
    assert!(rt; stepped(world, actor) == told);
}

/// What a refused call may not change: whether the actors are idle, their steps, and the deeds.
fn stands(rt: &impl Abort, world: &Small, is_idle: bool, made: u32, deeds: &[Deed])
    requires { 0 < world.now.state.config.cpus }
{
    assert!(rt; world.is_idle(Actor::Cpu(0)) == is_idle);
    assert!(rt; world.is_idle(Actor::Consumer) == is_idle);
    assert!(rt; world.steps(Actor::Cpu(0)) == made);
    assert!(rt; world.steps(Actor::Consumer) == 0);
    assert!(rt; world.deeds() == deeds);
}

/// A call whose record no schema has.
fn no_record() -> CpuOp {
    CpuOp::Trace(bare(0))
}

/// Begins and steps that are refused, while both actors are idle and then while both are busy. No schema has the record.
#[test]
fn refused_calls(rt: HostRuntime) -> Result<(), Fail> {
    let mut world: Small = made(&rt, SMALL, DefaultAction)?;
    begins(
        &rt,
        &mut world,
        1,
        no_record(),
        Err(BeginFault::NoSuchActor),
    );
    begins(&rt, &mut world, 0, no_record(), Err(BeginFault::BadRecord));
    asks(
        &rt,
        &mut world,
        ConsumerOp::Take(1),
        Err(BeginFault::NoSuchActor),
    );
    steps(&rt, &mut world, Actor::Cpu(1), Err(StepFault::NoSuchActor));
    steps(&rt, &mut world, Actor::Cpu(0), Err(StepFault::IdleStep));
    steps(&rt, &mut world, Actor::Consumer, Err(StepFault::IdleStep));
    stands(&rt, &world, true, 0, &[]);
    begins(&rt, &mut world, 0, CpuOp::Speculation, Ok(()));
    asks(&rt, &mut world, ConsumerOp::Clean, Ok(()));
    steps(&rt, &mut world, Actor::Cpu(0), Ok(Stepped::Going));
    begins(&rt, &mut world, 0, no_record(), Err(BeginFault::Busy));
    asks(&rt, &mut world, ConsumerOp::Stop, Err(BeginFault::Busy));
    stands(&rt, &world, false, 1, &[Deed::Scan(0, true)]);
    Ok(())
}

/// Of a configuration with a fault neither a world is made nor a play; the first of two is told.
#[test]
fn refused_configurations(rt: HostRuntime) {
    for ([cpus, nspec, bufsize, specsize], max_issues, max_calls, fault) in [
        ([65, 64, 8, 8], 8, 8, StartFault::Cpus),
        ([1, 64, 12, 8], 8, 8, StartFault::Specs),
        ([1, 1, 12, 0], 8, 8, StartFault::BufSize),
        ([1, 1, 8, 0], 0, 8, StartFault::SpecSize),
        ([1, 1, 8, 8], (1 << 57) + 1, 0, StartFault::Issues),
        ([1, 1, 8, 8], 8, 0, StartFault::Calls),
    ] {
        let config = Config {
            max_issues,
            max_calls,
            ..Config::of(cpus, nspec, bufsize, specsize)
        };
        assert_eq!(rt; config.check().err(), Some(fault));
        let made = World::<DefaultAction, ByteBuffer>::new(rt.alloc(), config, DefaultAction);
        assert_eq!(rt; made.err(), Some(fault));
        let told = played(&rt, &config, &[]).err();
        assert_eq!(rt; told, Some(PlayFault::Setup(fault)));
    }
}
