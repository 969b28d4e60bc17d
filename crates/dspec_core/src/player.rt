ghost use Rattle.std.specs.Prelude.{◌≡◌, ◌≢◌, ◌<◌, ◌^◌, ℕ, List, true, false, None, Some, IfOk, IfErr, OnOk, reverse};
ghost use Rattle.dspec_interleaving.specs.declared.outcome.PlayFault.TheVariants as failure;
ghost use Rattle.dspec_interleaving.specs.declared.refusal.StepFault.TheVariants as step_failure;
ghost use Rattle.dspec_interleaving.specs.{Bounds.most_steps, Calls.idle_step_fault, Calls.is_idle, Plays.IsPlayingAt, Plays.Playing, Plays.all_ran, Plays.answers_of, Plays.begin_refusal};
ghost use Rattle.dspec_interleaving.specs.{Plays.deeds_of, Plays.play_fault, Plays.ran, Plays.refusal, Plays.step_refusal, Plays.stepped, Plays.turned, Plays.worn_count, Promised.HasHeadline};
ghost use Rattle.dspec_deeds.specs.{Closes.reports, Closes.streams, Headline.Headline, Legal.IsLegal, Ranges.start_fault};

use crate::onlooker::{Nobody, Onlooker};
use crate::world::World;
use dspec_buffer::{ListBuffer, TraceBuffer};
use dspec_deeds::{Actor, Answer, Config, Op, StartFault, Turn};
use dspec_interleaving::{BeginFault, Outcome, PlayFault, Series, StepFault};
use dspec_record::Schema;
use std::alloc::{AllocError, Global};

// What a refused begin of a turn is told as.
fn begin_refused(fault: BeginFault, number: usize) -> PlayFault
    ensures { Some result ≡ begin_refusal number (Some fault) }
{
    match fault {
        BeginFault::NoSuchActor => PlayFault::NoSuchActor(number),
        BeginFault::Busy => PlayFault::Busy(number),
        BeginFault::BadRecord => PlayFault::BadRecord(number),
    }
}

// What a refused step of a turn is told as.
fn step_refused(fault: StepFault, number: usize) -> PlayFault
    ensures refused { fault ≢ step_failure.Memory → Some result ≡ step_refusal number (Some fault) }
    ensures memory { fault ≡ step_failure.Memory → result ≡ failure.Memory }
{
    match fault {
        StepFault::NoSuchActor => PlayFault::NoSuchActor(number),
        StepFault::IdleStep => PlayFault::IdleStep(number),
        StepFault::Memory => PlayFault::Memory,
    }
}

// One atomic step of an actor, and whether it was its call's last; a call that ends is put down.
#[tactic(auto, using(crate::proofs::PlayerSteps::step_config))]
fn step_actor<S: Schema, B: TraceBuffer<S>, O: Onlooker<S, B>>(
    world: &mut World<S, B>,
    answers: &mut Series<(Actor, Op, Answer)>,
    onlooker: &mut O,
    turn: u64,
    actor: Actor,
) -> Result<bool, StepFault>
    requires promised { HasHeadline (S.shape_of world.old.schema) world.old.state }
    ensures allowed { OnOk result (idle_step_fault actor world.old.state ≡ None) }
    ensures stepped { OnOk result ((p : Playing) → IsPlayingAt world.old.state answers.old p
        → IsPlayingAt world.new.state answers.new (stepped (S.shape_of world.old.schema) actor p)) }
    ensures ended { IfOk result (λ ended. ended ≡ true → is_idle actor world.new.state ≡ true) }
    ensures schema { world.new.schema ≡ world.old.schema }
    ensures config { world.new.state.config ≡ world.old.state.config }
    ensures promised { HasHeadline (S.shape_of world.new.schema) world.new.state }
    ensures refused { IfErr result (λ fault. fault ≢ step_failure.Memory → idle_step_fault actor world.old.state ≡ Some fault) }
    ensures unchanged { IfErr result (λ fault. fault ≢ step_failure.Memory → (world.new ≡ world.old) × (answers.new ≡ answers.old)) }
{
    let call = world.call(actor)?;
    if onlooker.before(world, turn, actor).is_err() {
        return Err(StepFault::Memory);
    }
    let Ok(answer) = world.advance(actor) else {
        return Err(StepFault::Memory);
    };
    if onlooker.after(world).is_err() {
        return Err(StepFault::Memory);
    }
    let Some(answer) = answer else {
        return Ok(false);
    };
    if answers.push((actor, call, answer)).is_err() {
        return Err(StepFault::Memory);
    }
    Ok(true)
}

// Steps of an actor until no call of it is in flight.
fn run_actor<S: Schema, B: TraceBuffer<S>, O: Onlooker<S, B>>(
    world: &mut World<S, B>,
    answers: &mut Series<(Actor, Op, Answer)>,
    onlooker: &mut O,
    config: &Config,
    turn: u64,
    actor: Actor,
) -> Result<(), AllocError>
    requires config { world.old.state.config ≡ config.now }
    requires fine { start_fault config.now ≡ None }
    requires promised { HasHeadline (S.shape_of world.old.schema) world.old.state }
    ensures ran { OnOk result ((p : Playing) → IsPlayingAt world.old.state answers.old p
        → IsPlayingAt world.new.state answers.new (ran (S.shape_of world.old.schema) actor p)) }
    ensures schema { world.new.schema ≡ world.old.schema }
    ensures config { world.new.state.config ≡ world.old.state.config }
    ensures promised { HasHeadline (S.shape_of world.new.schema) world.new.state }
{
    let most = match actor {
        Actor::Cpu(_) => 3 + 2 * config.nspec,
        Actor::Consumer => config.nspec * (config.cpus + 2),
    };
    for _ in 0..most {
        match step_actor(world, answers, onlooker, turn, actor) {
            Ok(ended) => {
                if ended {
                    return Ok(());
                }
            }
            Err(StepFault::IdleStep) => return Ok(()),
            Err(_) => return Err(AllocError),
        }
    }
    Ok(())
}

// One turn, which the onlooker is told by a number that is one more than its place.
fn take_turn<S: Schema, B: TraceBuffer<S>, O: Onlooker<S, B>>(
    world: &mut World<S, B>,
    answers: &mut Series<(Actor, Op, Answer)>,
    onlooker: &mut O,
    config: &Config,
    turn: &Turn,
    number: usize,
) -> Result<(), PlayFault>
    requires config { world.old.state.config ≡ config.now }
    requires fine { start_fault config.now ≡ None }
    requires promised { HasHeadline (S.shape_of world.old.schema) world.old.state }
    requires small { number < 2 ^ 63 }
    ensures allowed { OnOk result (refusal (S.shape_of world.old.schema) (S.accepted world.old.schema) number turn.now world.old.state ≡ None) }
    ensures turned { OnOk result ((p : Playing) → IsPlayingAt world.old.state answers.old p
        → IsPlayingAt world.new.state answers.new (turned (S.shape_of world.old.schema) turn.now p)) }
    ensures schema { world.new.schema ≡ world.old.schema }
    ensures config { world.new.state.config ≡ world.old.state.config }
    ensures promised { HasHeadline (S.shape_of world.new.schema) world.new.state }
    ensures refused { IfErr result (λ fault. fault ≢ failure.Memory → refusal (S.shape_of world.old.schema) (S.accepted world.old.schema) number turn.now world.old.state ≡ Some fault) }
{
    let turn = *turn;
    let told = number as u64 + 1;
    match turn {
        Turn::BeginCpu(cpu, op) => match world.begin_cpu(cpu, op) {
            Ok(()) => Ok(()),
            Err(fault) => Err(begin_refused(fault, number)),
        },
        Turn::BeginConsumer(op) => match world.begin_consumer(op) {
            Ok(()) => Ok(()),
            Err(fault) => Err(begin_refused(fault, number)),
        },
        Turn::Step(actor) => match step_actor(world, answers, onlooker, told, actor) {
            Ok(_) => Ok(()),
            Err(fault) => Err(step_refused(fault, number)),
        },
        Turn::RunCpu(cpu, op) => {
            if let Err(fault) = world.begin_cpu(cpu, op) {
                return Err(begin_refused(fault, number));
            }
            run_actor(world, answers, onlooker, config, told, Actor::Cpu(cpu))?;
            Ok(())
        }
        Turn::RunConsumer(op) => {
            if let Err(fault) = world.begin_consumer(op) {
                return Err(begin_refused(fault, number));
            }
            run_actor(world, answers, onlooker, config, told, Actor::Consumer)?;
            Ok(())
        }
    }
}

// Runs all calls in flight to their ends, CPU 0's first and the consumer's last.
fn run_all<S: Schema, B: TraceBuffer<S>, O: Onlooker<S, B>>(
    world: &mut World<S, B>,
    answers: &mut Series<(Actor, Op, Answer)>,
    onlooker: &mut O,
    config: &Config,
) -> Result<(), AllocError>
    requires config { world.old.state.config ≡ config.now }
    requires fine { start_fault config.now ≡ None }
    requires promised { HasHeadline (S.shape_of world.old.schema) world.old.state }
    ensures ran { OnOk result ((p : Playing) → IsPlayingAt world.old.state answers.old p
        → IsPlayingAt world.new.state answers.new (all_ran (S.shape_of world.old.schema) p)) }
    ensures schema { world.new.schema ≡ world.old.schema }
    ensures config { world.new.state.config ≡ world.old.state.config }
    ensures promised { HasHeadline (S.shape_of world.new.schema) world.new.state }
{
    for cpu in 0..config.cpus {
        run_actor(world, answers, onlooker, config, 0, Actor::Cpu(cpu))?;
    }
    run_actor(world, answers, onlooker, config, 0, Actor::Consumer)
}

/// Plays a schedule, turn by turn, then runs the calls still in flight to their ends, CPU 0's first and the consumer's
/// last, and closes the session. The first turn that is refused ends it, with that turn's number; a refused growth of
/// memory does too. Memory only where the configuration has no fault.
pub fn play<S: Schema>(
    alloc: Global,
    config: &Config,
    schema: S,
    turns: &[Turn],
) -> Result<Outcome, PlayFault>
    ensures played { IfOk result (λ _. play_fault (S.shape_of schema) (S.accepted schema) config.now turns.now ≡ None) }
    ensures refused { IfErr result (λ fault. fault ≢ failure.Memory → play_fault (S.shape_of schema) (S.accepted schema) config.now turns.now ≡ Some fault) }
    ensures memory { IfErr result (λ fault. fault ≡ failure.Memory → start_fault config.now ≡ None) }

    ensures deeds { IfOk result (λ outcome. outcome.close.deeds ≡ reverse (deeds_of (S.shape_of schema) config.now turns.now)) }
    ensures answers { IfOk result (λ outcome. outcome.answers ≡ answers_of (S.shape_of schema) config.now turns.now) }
    ensures accepted { IfOk result (λ outcome. outcome.close.accepted ≡ streams config.now (reverse outcome.close.deeds)) }
    ensures reports { IfOk result (λ outcome. outcome.close.reports ≡ reports config.now (worn_count outcome.answers) (reverse outcome.close.deeds)) }

    ensures legal { IfOk result (λ outcome. IsLegal (S.shape_of schema) config.now (reverse outcome.close.deeds)) }
    ensures headline { IfOk result (λ outcome. (cpu : ℕ) → Headline config.now cpu (reverse outcome.close.deeds)) }
{
    play_shown(alloc, config, schema, turns, &mut Nobody)
}

/// As `play`, and shows the world to an onlooker before each step and after it. A growth that it was refused ends the play too.
pub fn play_shown<S: Schema, O: Onlooker<S, ListBuffer>>(
    alloc: Global,
    config: &Config,
    schema: S,
    turns: &[Turn],
    onlooker: &mut O,
) -> Result<Outcome, PlayFault>
    ensures played { IfOk result (λ _. play_fault (S.shape_of schema) (S.accepted schema) config.now turns.now ≡ None) }
    ensures refused { IfErr result (λ fault. fault ≢ failure.Memory → play_fault (S.shape_of schema) (S.accepted schema) config.now turns.now ≡ Some fault) }
    ensures memory { IfErr result (λ fault. fault ≡ failure.Memory → start_fault config.now ≡ None) }

    ensures deeds { IfOk result (λ outcome. outcome.close.deeds ≡ reverse (deeds_of (S.shape_of schema) config.now turns.now)) }
    ensures answers { IfOk result (λ outcome. outcome.answers ≡ answers_of (S.shape_of schema) config.now turns.now) }
    ensures accepted { IfOk result (λ outcome. outcome.close.accepted ≡ streams config.now (reverse outcome.close.deeds)) }
    ensures reports { IfOk result (λ outcome. outcome.close.reports ≡ reports config.now (worn_count outcome.answers) (reverse outcome.close.deeds)) }

    ensures legal { IfOk result (λ outcome. IsLegal (S.shape_of schema) config.now (reverse outcome.close.deeds)) }
    ensures headline { IfOk result (λ outcome. (cpu : ℕ) → Headline config.now cpu (reverse outcome.close.deeds)) }
{
    let mut world: World<S, ListBuffer> = match World::new(alloc, *config, schema) {
        Ok(world) => world,
        Err(StartFault::Memory) => return Err(PlayFault::Memory),
        Err(fault) => return Err(PlayFault::Setup(fault)),
    };
    let mut answers = Series::new(alloc);
    for (number, turn) in turns.iter().enumerate() {
        take_turn(&mut world, &mut answers, onlooker, config, turn, number)?;
    }
    run_all(&mut world, &mut answers, onlooker, config)?;
    let close = world.finish(alloc)?;
    Ok(Outcome { close, answers })
}
