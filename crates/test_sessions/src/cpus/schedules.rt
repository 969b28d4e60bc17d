//! Schedules of whole calls, played by the CPUs of a session in place of the player.
ghost use Rattle.std.specs.Prelude.{◌≡◌, []};
ghost use Rattle.dspec_table.specs.Seats.{IsConsumerAt, known_there, set_up};
ghost use Rattle.dspec_cpu.specs.{Lists.schema_of, Lists.words_of, Standing.Belongs, Standing.identity};

use super::playing::{Cpus, call, same, session};
use super::taking::Taker;
use dspec_cpu::Cpu;
use dspec_deeds::{Actor, Answer, ConsumerOp, Op, Report, StartFault, Turn};
use dspec_interleaving::{Close, Outcome, Series};
use dspec_record::{DefaultAction, Header, Rec, Schema};
use dspec_schedule::{Schedule, ScheduleFault, printed, read_schedule};
use std::alloc::{AllocError, Global};
use std::process::Abort;
use std::test::Fail;

/// A schedule of whole calls of two CPUs, and what it prints. Before the calls the consumer asks the first CPU for so many batches,
/// and gives it buffers of these sizes, in bytes, that it never took; those in stock it has too, and gives them back first. After
/// each call it may meet both CPUs.
pub struct Row<'a> {
    pub name: &'a str,
    pub asked: u64,
    pub lent: &'a [u32],
    pub stock: &'a [u32],
    pub meets: bool,
    /// The schedule's lines in front of its enablings.
    pub config: &'a str,
    /// Whether it has the four enablings; else its records are those of the default action.
    pub enabled: bool,
    /// The lines of its calls.
    pub calls: &'a str,
    /// What its answers print, and the first CPU's report and stream.
    pub wanted: &'a str,
    /// What the second CPU's report and stream print.
    pub second: &'a str,
}

/// The four enablings of the worked examples.
const FOUR_ENABLINGS: &str = "enable
enable 8
enable 1 2
enable 4";

/// What the other rows are made of: nothing is asked, lent or met, and the second CPU offers nothing.
pub const PLAIN: Row<'static> = Row {
    name: "",
    asked: 0,
    lent: &[],
    stock: &[],
    meets: false,
    config: "",
    enabled: false,
    calls: "",
    wanted: "",
    second: "report cpu 1 offered 0 accepted 0 dropped 0 specdropped 0 lost 0 discarded 0 void 0 held 0 drops 0 unavailable 0 busy 0 stopped 0 worn 0
stream cpu 1:
",
};

/// The text of a row's schedule.
fn schedule_text(alloc: Global, row: &Row<'_>) -> Result<Vec<u8>, AllocError> {
    let mut text = Vec::new(alloc);
    for lines in [
        row.config,
        if row.enabled { FOUR_ENABLINGS } else { "" },
        row.calls,
    ] {
        if !lines.is_empty() {
            text.extend_from_slice(lines.as_bytes())?;
            text.push(b'\n')?;
        }
    }
    Ok(text)
}

/// Asks the first CPU for so many batches, before any other ask.
fn ask<S: Schema>(cpus: &mut Cpus<S>, count: u64)
    requires consumer { IsConsumerAt (words_of cpus.old.shared) cpus.old.consumer }
    requires unasked { ((known_there cpus.old.consumer).asks ≡ []) × ((set_up (words_of cpus.old.shared)).cpus ≡ 2) }
    ensures consumer { IsConsumerAt (words_of cpus.new.shared) cpus.new.consumer }
    ensures rest { (cpus.new.shared ≡ cpus.old.shared) × (cpus.new.first ≡ cpus.old.first) × (cpus.new.second ≡ cpus.old.second) }
{
    let shared = &cpus.shared;
    cpus.consumer.store_ask(shared.words(), 0, count);
}

/// The answer of a whole call. The consumer stops the session, and takes of the first CPU and gives back to it.
fn answer<S: Schema>(
    rt: &impl Abort,
    schema: &S,
    cpus: &mut Cpus<S>,
    taker: &mut Taker,
    turn: Turn,
) -> Result<(Actor, Op, Answer), Fail>
    requires first { Belongs (words_of cpus.old.shared) (identity cpus.old.first) }
    requires second { Belongs (words_of cpus.old.shared) (identity cpus.old.second) }
    requires schemas { (schema_of cpus.old.first ≡ schema.now) × (schema_of cpus.old.second ≡ schema.now) }
    requires consumer { IsConsumerAt (words_of cpus.old.shared) cpus.old.consumer }
    ensures first { Belongs (words_of cpus.new.shared) (identity cpus.new.first) }
    ensures second { Belongs (words_of cpus.new.shared) (identity cpus.new.second) }
    ensures schemas { (schema_of cpus.new.first ≡ schema.now) × (schema_of cpus.new.second ≡ schema.now) }
    ensures consumer { IsConsumerAt (words_of cpus.new.shared) cpus.new.consumer }
{
    match turn {
        Turn::RunCpu(0, op) => {
            let answer = call(rt, schema, &cpus.shared, &mut cpus.first, &op);
            Ok((Actor::Cpu(0), Op::Cpu(op), answer))
        }
        Turn::RunCpu(_, op) => {
            let answer = call(rt, schema, &cpus.shared, &mut cpus.second, &op);
            Ok((Actor::Cpu(1), Op::Cpu(op), answer))
        }
        Turn::RunConsumer(op) => {
            let answer = match op {
                ConsumerOp::Stop => {
                    let shared = &cpus.shared;
                    cpus.consumer.store_activity(shared.words());
                    Answer::StopDone
                }
                ConsumerOp::Take(0) => taker.take(schema)?,
                ConsumerOp::GiveBack(0) => taker.give_back(),
                _ => return Err("a call that isn't played here".into()),
            };
            Ok((Actor::Consumer, Op::Consumer(op), answer))
        }
        _ => Err("no whole call".into()),
    }
}

/// The consumer meets both CPUs, where it is to.
fn meet<S: Schema>(_schema: &S, cpus: &mut Cpus<S>, meets: bool)
    requires first { Belongs (words_of cpus.old.shared) (identity cpus.old.first) }
    requires second { Belongs (words_of cpus.old.shared) (identity cpus.old.second) }
    requires schemas { (schema_of cpus.old.first ≡ _schema.now) × (schema_of cpus.old.second ≡ _schema.now) }
    requires consumer { IsConsumerAt (words_of cpus.old.shared) cpus.old.consumer }
    ensures first { Belongs (words_of cpus.new.shared) (identity cpus.new.first) }
    ensures second { Belongs (words_of cpus.new.shared) (identity cpus.new.second) }
    ensures schemas { (schema_of cpus.new.first ≡ _schema.now) × (schema_of cpus.new.second ≡ _schema.now) }
    ensures consumer { IsConsumerAt (words_of cpus.new.shared) cpus.new.consumer }
{
    if !meets {
        return;
    }
    let shared = &cpus.shared;
    cpus.first.meet(shared, &mut cpus.consumer);
    cpus.second.meet(shared, &mut cpus.consumer);
}

/// The reports of both CPUs.
fn reported<S: Schema>(alloc: Global, cpus: &Cpus<S>) -> Result<Series<Report>, AllocError>
    requires first { Belongs (words_of cpus.now.shared) (identity cpus.now.first) }
    requires second { Belongs (words_of cpus.now.shared) (identity cpus.now.second) }
{
    let mut reports = Series::new(alloc);
    reports.push(cpus.first.report(&cpus.shared))?;
    reports.push(cpus.second.report(&cpus.shared))?;
    Ok(reports)
}

/// What is left of a CPU after what was taken of it: what waits in the ring, the batch held back, and the one that grew
/// last.
fn leave<S: Schema>(schema: &S, cpu: Cpu<S>, taker: &mut Taker) -> Result<(), Fail> {
    taker.take(schema)?;
    taker.take(schema)?;
    let (_, _, rest) = cpu.part();
    let (waiting, last) = rest.batches();
    if let Some(batch) = waiting {
        taker.read(schema, &batch)?;
    }
    taker.read(schema, &last)?;
    Ok(())
}

/// Both streams, the first CPU's in front.
fn streams(
    alloc: Global,
    near: Series<Rec>,
    far: Series<Rec>,
) -> Result<Series<Series<Rec>>, AllocError> {
    let mut both = Series::new(alloc);
    both.push(near)?;
    both.push(far)?;
    Ok(both)
}

/// The answers of all calls.
fn answers<S: Schema>(
    rt: &(impl Abort + AllocGlobal),
    schema: &S,
    cpus: &mut Cpus<S>,
    taker: &mut Taker,
    turns: &[Turn],
    meets: bool,
) -> Result<Series<(Actor, Op, Answer)>, Fail>
    requires first { Belongs (words_of cpus.old.shared) (identity cpus.old.first) }
    requires second { Belongs (words_of cpus.old.shared) (identity cpus.old.second) }
    requires schemas { (schema_of cpus.old.first ≡ schema.now) × (schema_of cpus.old.second ≡ schema.now) }
    requires consumer { IsConsumerAt (words_of cpus.old.shared) cpus.old.consumer }
    ensures first { Belongs (words_of cpus.new.shared) (identity cpus.new.first) }
    ensures second { Belongs (words_of cpus.new.shared) (identity cpus.new.second) }
{
    let mut answers = Series::new(rt.alloc());
    for turn in turns {
        answers.push(answer(rt, schema, cpus, taker, *turn)?)?;
        meet(schema, cpus, meets);
    }
    Ok(answers)
}

/// The outcome of a play, once all calls were made.
fn outcome<S: Schema>(
    alloc: Global,
    schema: &S,
    cpus: Cpus<S>,
    near: Taker,
    far: Taker,
    answers: Series<(Actor, Op, Answer)>,
) -> Result<Outcome, Fail>
    requires first { Belongs (words_of cpus.shared) (identity cpus.first) }
    requires second { Belongs (words_of cpus.shared) (identity cpus.second) }
{
    let (mut near, mut far) = (near, far);
    let reports = reported(alloc, &cpus)?;
    let Cpus { first, second, .. } = cpus;
    leave(schema, first, &mut near)?;
    leave(schema, second, &mut far)?;
    let close = Close {
        deeds: Series::new(alloc),
        accepted: streams(alloc, near.stream, far.stream)?,
        reports,
    };
    Ok(Outcome { close, answers })
}

/// Plays the calls of a schedule.
fn play<S: Schema>(
    rt: &(impl Abort + AllocGlobal),
    schedule: &Schedule,
    schema: S,
    row: &Row<'_>,
) -> Result<Outcome, Fail>
    requires two { schedule.now.config.cpus ≡ 2 }
{
    let alloc = rt.alloc();
    let (mut cpus, near, far) = match session(alloc, &schedule.config, schema) {
        Ok(begun) => begun,
        Err(StartFault::Memory) => return Err(AllocError.into()),
        Err(_) => return Err("a fault that isn't there".into()),
    };
    let mut near = Taker::new(alloc, near);
    let far = Taker::new(alloc, far);
    ask(&mut cpus, row.asked);
    near.lend_all(rt, row.lent)?;
    near.stock_all(rt, row.stock)?;
    let turns = schedule.turns.as_slice();
    let answers = answers(rt, &schema, &mut cpus, &mut near, turns, row.meets)?;
    outcome(alloc, &schema, cpus, near, far, answers)
}

/// Plays a schedule, and compares what that prints, whole. Without enablings the records are those of the default
/// action.
pub fn played(rt: &(impl Abort + AllocGlobal), row: &Row<'_>) -> Result<(), Fail> {
    let text = schedule_text(rt.alloc(), row)?;
    let schedule = match read_schedule(rt.alloc(), text.as_slice()) {
        Ok(schedule) => schedule,
        Err(ScheduleFault::Memory) => return Err(AllocError.into()),
        Err(_) => return Err("no schedule".into()),
    };
    assert!(rt; schedule.config.cpus == 2);
    let outcome = match schedule.enablings {
        Some(enablings) => play(rt, &schedule, enablings, row)?,
        None => play(rt, &schedule, DefaultAction, row)?,
    };
    let told = printed(rt.alloc(), Header::One, &outcome)?;
    let first = told.as_str().strip_suffix(row.second);
    same(rt, (row.name, first), (row.name, Some(row.wanted)));
    Ok(())
}

/// Plays schedules, each in a session of its own.
pub fn play_all(rt: &(impl Abort + AllocGlobal), rows: &[Row<'_>]) -> Result<(), Fail> {
    for row in rows {
        played(rt, row)?;
    }
    Ok(())
}
