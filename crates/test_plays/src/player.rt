//! Plays whose deeds are compared, calls of a world, and the happy path of each public call. Whole plays by their answers,
//! streams and reports are schedules of `examples/`.
//!
//! What takes memory is asked once more where a growth was refused, and must then be served as if none had been. None is
//! refused in an ordinary run; `tests/refused-growth-player` refuses each growth of a test in turn.
use dspec_core::{
    Actor, Answer, Config, ConsumerOp, CpuOp, Decided, Deed, Op, Opening, Outcome, PlayFault,
    Policy, Report, Served, Spoken, Traced, Turn, play,
};
use dspec_record::{DefaultAction, Rec};
use dspec_word::SpecId;
use std::process::Abort;
use std::test::Fail;

mod looks;
mod plays;
mod texts;
mod values;
mod worlds;

/// A configuration with eight issues of a slot and a hundred calls of a CPU.
const SMALL: Config = Config {
    cpus: 1,
    nspec: 1,
    bufsize: 8,
    specsize: 8,
    max_issues: 8,
    max_calls: 100,
    policy: Policy::Switch,
};

/// The record of the default action.
fn bare(epid: u32) -> Rec {
    match Rec::new(epid, &[]) {
        Some(rec) => rec,
        None => unreachable!(),
    }
}

/// A call that ended, with the answer that is wanted.
type Line = (Actor, Op, Answer);

fn whole(cpu: u32, op: CpuOp, answer: Answer) -> Line {
    (Actor::Cpu(cpu), Op::Cpu(op), answer)
}

fn consumes(op: ConsumerOp, answer: Answer) -> Line {
    (Actor::Consumer, Op::Consumer(op), answer)
}

fn traces(rec: Rec, traced: Traced) -> Line {
    whole(0, CpuOp::Trace(rec), Answer::Traced(traced))
}

fn opens(cpu: u32, opening: Opening) -> Line {
    whole(cpu, CpuOp::Speculation, Answer::Opening(opening))
}

fn speculates(cpu: u32, id: SpecId, rec: Rec) -> Line {
    let op = CpuOp::Speculate(id, rec);
    whole(cpu, op, Answer::Spoken(Spoken::Kept))
}

fn commits(id: SpecId, decided: Decided) -> Line {
    whole(0, CpuOp::Commit(id), Answer::Decided(decided))
}

/// A report that counts offered and accepted records alone.
fn counts(offered: u64, accepted: u64) -> Report {
    Report {
        offered,
        accepted,
        ..Report::default()
    }
}

/// A play of the default action, asked for once more where a growth was refused.
fn played(rt: &impl AllocGlobal, config: &Config, turns: &[Turn]) -> Result<Outcome, PlayFault> {
    match play(rt.alloc(), config, DefaultAction, turns) {
        Err(PlayFault::Memory) => play(rt.alloc(), config, DefaultAction, turns),
        told => told,
    }
}
