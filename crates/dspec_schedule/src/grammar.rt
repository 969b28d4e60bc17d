ghost use Rattle.std.specs.{Prelude.◌≡◌, Prelude.map, Result.result_map_both};
ghost use Rattle.dspec_schedule.specs.Calls.{actor_call_of, actor_read, begun_call, call_read, consumer_call_read, cpu_call_read, cpu_read, epid_of, id_of, record_read, speculate_of};
ghost use Rattle.dspec_schedule.specs.Calls.{stamped_epid_of, stepping_of, turn_read, whole_call};
ghost use Rattle.dspec_schedule.specs.LineWords.{no_word, only_word};

use crate::fault::LineKind;
use crate::number::{number, small_number};
use dspec_deeds::{Actor, ConsumerOp, CpuOp, Turn};
use dspec_record::{Header, Rec};
use dspec_word::SpecId;

/// The most values of a record.
const MAX_VALUES: usize = 8;

/// A call with its actor.
#[derive(Clone, Copy, Debug, PartialEq, Eq)]
pub enum ActorCall {
    Cpu(u32, CpuOp),
    Consumer(ConsumerOp),
}

/// The turn of a line, by its first word and those after it.
#[tactic(auto, unfolding(crate::specs::Calls::turn_read))]
pub fn turn(header: Header, first: &str, words: &[&str]) -> Result<Turn, LineKind>
    ensures { result ≡ turn_read header first.now (map (λ word. word.now) words.now) }
{
    match first {
        "run" => Ok(whole(named_call(header, words)?)),
        "begin" => Ok(begun(named_call(header, words)?)),
        "step" => Ok(Turn::Step(stepping(words)?)),
        _ => Err(LineKind::UnknownWord),
    }
}

/// The turn that makes a whole call.
fn whole(call: ActorCall) -> Turn
    ensures { result ≡ whole_call call }
{
    match call {
        ActorCall::Cpu(cpu, op) => Turn::RunCpu(cpu, op),
        ActorCall::Consumer(op) => Turn::RunConsumer(op),
    }
}

/// The turn that begins a call.
fn begun(call: ActorCall) -> Turn
    ensures { result ≡ begun_call call }
{
    match call {
        ActorCall::Cpu(cpu, op) => Turn::BeginCpu(cpu, op),
        ActorCall::Consumer(op) => Turn::BeginConsumer(op),
    }
}

/// An actor alone.
#[tactic(auto, unfolding(crate::specs::Calls::stepping_of))]
fn stepping(words: &[&str]) -> Result<Actor, LineKind>
    ensures { result ≡ stepping_of (map (λ word. word.now) words.now) }
{
    let [who, rest @ ..] = words else {
        return Err(LineKind::WordCount);
    };
    let actor = actor(who)?;
    no_more(rest)?;
    Ok(actor)
}

/// An actor, and a call of it.
#[tactic(auto, unfolding(crate::specs::Calls::call_read))]
fn named_call(header: Header, words: &[&str]) -> Result<ActorCall, LineKind>
    ensures { result ≡ call_read header (map (λ word. word.now) words.now) }
{
    let [who, operation, operands @ ..] = words else {
        return Err(LineKind::WordCount);
    };
    let actor = actor(who)?;
    call_by(header, actor, operation, operands)
}

/// A call of this actor: its operation, and what the operation takes.
#[tactic(auto, unfolding(crate::specs::Calls::actor_call_of))]
fn call_by(
    header: Header,
    actor: Actor,
    operation: &str,
    operands: &[&str],
) -> Result<ActorCall, LineKind>
    ensures { result ≡ actor_call_of header actor operation.now (map (λ word. word.now) operands.now) }
{
    match actor {
        Actor::Cpu(cpu) => Ok(ActorCall::Cpu(cpu, cpu_call(header, operation, operands)?)),
        Actor::Consumer => Ok(ActorCall::Consumer(consumer_call(operation, operands)?)),
    }
}

/// The consumer, or a CPU by its number.
#[tactic(auto, unfolding(crate::specs::Calls::actor_read))]
fn actor(word: &str) -> Result<Actor, LineKind>
    ensures { result ≡ actor_read word.now }
{
    match word {
        "consumer" => Ok(Actor::Consumer),
        _ => Ok(Actor::Cpu(small_number(word)?)),
    }
}

/// A call of a CPU: its operation, and what the operation takes.
#[tactic(auto, unfolding(crate::specs::Calls::cpu_call_read))]
fn cpu_call(header: Header, operation: &str, operands: &[&str]) -> Result<CpuOp, LineKind>
    ensures { result ≡ cpu_call_read header operation.now (map (λ word. word.now) operands.now) }
{
    match operation {
        "trace" => Ok(CpuOp::Trace(record(header, operands)?)),
        "speculation" => {
            no_more(operands)?;
            Ok(CpuOp::Speculation)
        }
        "speculate" => speculate(header, operands),
        "commit" => Ok(CpuOp::Commit(id(only(operands)?)?)),
        "discard" => Ok(CpuOp::Discard(id(only(operands)?)?)),
        "service" => {
            no_more(operands)?;
            Ok(CpuOp::Service)
        }
        _ => Err(LineKind::UnknownWord),
    }
}

/// A call of the consumer: its operation, and what the operation takes.
#[tactic(auto, unfolding(crate::specs::Calls::consumer_call_read))]
fn consumer_call(operation: &str, operands: &[&str]) -> Result<ConsumerOp, LineKind>
    ensures { result ≡ consumer_call_read operation.now (map (λ word. word.now) operands.now) }
{
    match operation {
        "ask" => Ok(ConsumerOp::Ask(cpu(operands)?)),
        "take" => Ok(ConsumerOp::Take(cpu(operands)?)),
        "giveback" => Ok(ConsumerOp::GiveBack(cpu(operands)?)),
        "clean" => {
            no_more(operands)?;
            Ok(ConsumerOp::Clean)
        }
        "stop" => {
            no_more(operands)?;
            Ok(ConsumerOp::Stop)
        }
        _ => Err(LineKind::UnknownWord),
    }
}

/// The one CPU that a call of the consumer is about.
#[tactic(auto, unfolding(crate::specs::Calls::cpu_read))]
fn cpu(words: &[&str]) -> Result<u32, LineKind>
    ensures { result ≡ cpu_read (map (λ word. word.now) words.now) }
{
    small_number(only(words)?)
}

/// What `speculate` takes: a speculation, and a record.
#[tactic(auto, unfolding(crate::specs::Calls::speculate_of))]
fn speculate(header: Header, words: &[&str]) -> Result<CpuOp, LineKind>
    ensures { result ≡ speculate_of header (map (λ word. word.now) words.now) }
{
    let [first, rest @ ..] = words else {
        return Err(LineKind::WordCount);
    };
    if rest.is_empty() || rest.len() > 1 + MAX_VALUES {
        return Err(LineKind::WordCount);
    }
    let id = id(first)?;
    Ok(CpuOp::Speculate(id, record(header, rest)?))
}

/// The speculation of a number.
#[tactic(auto, unfolding(crate::specs::Calls::id_of))]
fn id(word: &str) -> Result<SpecId, LineKind>
    ensures { result ≡ id_of word.now }
{
    Ok(SpecId::from_raw(number(word)?))
}

/// A record: its probe identifier, under header 2 with a stamp, and at most 8 values.
#[tactic(auto, unfolding(crate::specs::Calls::record_read))]
fn record(header: Header, words: &[&str]) -> Result<Rec, LineKind>
    ensures { result ≡ record_read header (map (λ word. word.now) words.now) }
{
    let Some((epid, rest)) = words.split_first() else {
        return Err(LineKind::WordCount);
    };
    if rest.len() > MAX_VALUES {
        return Err(LineKind::WordCount);
    }
    let (epid, stamp) = header_epid(header, epid)?;
    let mut values = [0; MAX_VALUES];
    for (index, word) in rest.iter().enumerate() {
        values[index] = number(word)?;
    }
    Rec::stamped(epid, stamp, &values[..rest.len()]).ok_or(LineKind::WordCount)
}

/// A probe identifier and its stamp, which no record has under header 1.
#[tactic(auto, unfolding(crate::specs::Calls::epid_of))]
fn header_epid(header: Header, word: &str) -> Result<(u32, u64), LineKind>
    ensures { result ≡ epid_of header word.now }
{
    match header {
        Header::One => Ok((small_number(word)?, 0)),
        Header::Two => stamped_epid(word),
    }
}

/// A probe identifier, and after an `@` its stamp, which is 0 where there is none.
#[tactic(auto, unfolding(crate::specs::Calls::stamped_epid_of))]
fn stamped_epid(word: &str) -> Result<(u32, u64), LineKind>
    ensures { result ≡ stamped_epid_of word.now }
{
    match word.split_once('@') {
        None => Ok((small_number(word)?, 0)),
        Some((epid, stamp)) => Ok((small_number(epid)?, number(stamp)?)),
    }
}

/// The only word.
#[tactic(auto, unfolding(crate::specs::LineWords::only_word))]
pub(crate) fn only<'a>(words: &[&'a str]) -> Result<&'a str, LineKind>
    ensures { result_map_both (λ word. word.now) (λ kind. kind) result ≡ only_word (map (λ word. word.now) words.now) }
{
    match words {
        [word] => Ok(*word),
        _ => Err(LineKind::WordCount),
    }
}

/// No word.
#[tactic(auto, unfolding(crate::specs::LineWords::no_word))]
fn no_more(words: &[&str]) -> Result<(), LineKind>
    ensures { result ≡ no_word (map (λ word. word.now) words.now) }
{
    if words.is_empty() {
        Ok(())
    } else {
        Err(LineKind::WordCount)
    }
}
