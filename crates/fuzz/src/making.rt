//! Random configurations, schemas and turns.

ghost use Rattle.std.specs.Prelude.{◌<◌, ◌≡◌, [], All, IfOk, IsSome};
ghost use Rattle.dspec_replay.specs.Replayed.{whole_call_of};

use crate::records::record;
use crate::sample::{MOST_FIELDS, Sample, SampleFields};
use dspec_deeds::{Config, ConsumerOp, CpuOp, Policy, Turn};
use dspec_record::{Enablings, Field, Header};
use dspec_samples::Dice;
use dspec_schedule::Schedule;
use dspec_word::SpecId;
use std::alloc::{AllocError, Global};

/// Sizes of buffers, in bytes.
const SIZES: [u32; 8] = [8, 8, 16, 16, 24, 32, 64, 128];

/// The most speculations of a session.
const MOST_SPECS: usize = 4;

/// The most turns of a schedule.
const MOST_TURNS: u32 = 96;

/// A configuration or a size in so many is one that is refused.
const STRANGE_IN: u32 = 60;

/// A CPU of a turn in so many is one that there isn't.
const STRANGE_CPU_IN: u32 = 800;

/// A size of buffers; seldom one that is refused.
fn size(dice: &mut Dice) -> u32 {
    if dice.once_in(STRANGE_IN) {
        return dice.roll(20);
    }
    SIZES[dice.roll(8) as usize]
}

/// A bound on calls or issues: small in one of four, else none that a schedule reaches.
fn bound(dice: &mut Dice, small: u32) -> u64
    requires { 0 < small }
{
    if dice.once_in(4) {
        u64::from(1 + dice.roll(small))
    } else {
        1000
    }
}

fn config(dice: &mut Dice) -> Config {
    let strange = dice.once_in(STRANGE_IN);
    let cpus = 1 + dice.roll(4);
    let nspec = if dice.once_in(2) {
        1
    } else {
        1 + dice.roll(MOST_SPECS as u32)
    };
    Config {
        cpus: if strange && dice.once_in(2) { 0 } else { cpus },
        nspec: if strange { 64 } else { nspec },
        bufsize: size(dice),
        specsize: size(dice),
        max_issues: bound(dice, 4),
        max_calls: bound(dice, 12),
        policy: if dice.once_in(4) {
            Policy::Fill
        } else {
            Policy::Switch
        },
    }
}

fn field(dice: &mut Dice) -> Field {
    match dice.roll(4) {
        0 => Field::One,
        1 => Field::Two,
        2 => Field::Four,
        _ => Field::Eight,
    }
}

/// The fields of up to four enablings; none, for the default action, in one of three.
fn probes(alloc: Global, dice: &mut Dice) -> Result<Vec<SampleFields>, AllocError> {
    let mut probes = Vec::new(alloc);
    if dice.once_in(3) {
        return Ok(probes);
    }
    for _ in 0..1 + dice.roll(4) {
        let mut fields = [Field::One; MOST_FIELDS];
        for place in 0..MOST_FIELDS {
            fields[place] = field(dice);
        }
        probes.push(SampleFields::new(fields, dice.roll(4) as usize))?;
    }
    Ok(probes)
}

/// The enablings of these fields; None, for the default action, where there is none.
fn enabled(header: Header, probes: &[SampleFields]) -> Option<Enablings> {
    if probes.is_empty() {
        return None;
    }
    let mut enablings = match header {
        Header::One => Enablings::new(),
        Header::Two => Enablings::new().stamped(),
    };
    for probe in probes {
        // There are fewer than may be enabled, of fewer fields than one may have.
        let _ = enablings.enable(probe.fields());
    }
    Some(enablings)
}

/// What identifiers a schedule's turns name: for each slot a guess at the issue that it has come to.
#[derive(Debug, Clone, Copy, PartialEq, Eq)]
struct Guess {
    issues: [u64; MOST_SPECS],
}

/// An identifier: most often one that may be open, else an older or a newer one, or one of no slot.
fn id(dice: &mut Dice, guess: &Guess, nspec: u32) -> SpecId {
    if dice.once_in(80) {
        return SpecId::from_raw(dice.word());
    }
    let place = dice.roll(nspec.clamp(1, MOST_SPECS as u32)) as usize;
    let issue = if dice.once_in(8) {
        u64::from(dice.roll(4))
    } else {
        guess.issues[place]
    };
    let slot = if dice.once_in(40) {
        u64::from(dice.roll(64))
    } else {
        place as u64 + 1
    };
    SpecId::from_raw(issue.wrapping_mul(64).wrapping_add(slot))
}

/// After a decision the slot may have come to its next issue.
fn decided(dice: &mut Dice, guess: &mut Guess, id: SpecId) {
    let place = (id.raw() % 64).wrapping_sub(1) as usize;
    if place < MOST_SPECS && dice.once_in(2) {
        guess.issues[place] = id.issue().wrapping_add(1);
    }
}

/// A call of a CPU, of any kind.
fn cpu_op(dice: &mut Dice, guess: &mut Guess, sample: &Sample) -> CpuOp {
    let header = sample.schedule.header();
    let nspec = sample.schedule.config.nspec;
    let probes = sample.probes.as_slice();
    match dice.roll(16) {
        0..=3 => CpuOp::Trace(record(dice, header, probes)),
        4..=5 => CpuOp::Speculation,
        6..=9 => CpuOp::Speculate(id(dice, guess, nspec), record(dice, header, probes)),
        10..=11 => {
            let id = id(dice, guess, nspec);
            decided(dice, guess, id);
            CpuOp::Commit(id)
        }
        12 => {
            let id = id(dice, guess, nspec);
            decided(dice, guess, id);
            CpuOp::Discard(id)
        }
        _ => CpuOp::Service,
    }
}

/// A call of the consumer, of any kind; a stop comes seldom.
fn consumer_op(dice: &mut Dice, cpu: u32) -> ConsumerOp {
    match dice.roll(48) {
        0..=15 => ConsumerOp::Ask(cpu),
        16..=24 => ConsumerOp::Take(cpu),
        25..=33 => ConsumerOp::GiveBack(cpu),
        34..=46 => ConsumerOp::Clean,
        _ => ConsumerOp::Stop,
    }
}

/// A whole call.
fn turn(dice: &mut Dice, guess: &mut Guess, sample: &Sample) -> Turn
    ensures { IsSome (whole_call_of result) }
{
    let cpus = sample.schedule.config.cpus;
    let cpu = if dice.once_in(STRANGE_CPU_IN) {
        cpus
    } else {
        dice.roll(cpus.max(1))
    };
    if dice.once_in(4) {
        Turn::RunConsumer(consumer_op(dice, cpu))
    } else {
        Turn::RunCpu(cpu, cpu_op(dice, guess, sample))
    }
}

/// A random schedule without turns.
fn without_turns(alloc: Global, dice: &mut Dice) -> Result<Sample, AllocError>
    ensures { IfOk result (λ sample. sample.schedule.turns.items ≡ []) }
{
    let config = config(dice);
    let header = if dice.once_in(3) {
        Header::Two
    } else {
        Header::One
    };
    let probes = probes(alloc, dice)?;
    let enablings = enabled(header, probes.as_slice());
    let schedule = Schedule {
        config,
        config_line: 1,
        named_header: Some(header),
        is_policy_named: true,
        enablings,
        turns: Vec::new(alloc),
        lines: Vec::new(alloc),
    };
    Ok(Sample { probes, schedule })
}

/// A random schedule, of whole calls alone.
pub fn sample(alloc: Global, dice: &mut Dice) -> Result<Sample, AllocError>
    ensures whole { IfOk result (λ sample. All (λ turn. IsSome (whole_call_of turn)) sample.schedule.turns.items) }
{
    // The check knows a turn's parts by the types that are named in this function.
    let _named: Option<CpuOp> = None;
    let mut sample = without_turns(alloc, dice)?;
    let mut guess = Guess {
        issues: [0; MOST_SPECS],
    };
    for _ in 0..1 + dice.roll(MOST_TURNS) {
        let turn = turn(dice, &mut guess, &sample);
        sample.schedule.turns.push(turn)?;
    }
    Ok(sample)
}
