//! The picture of a play, as text.

ghost use Rattle.std.specs.Prelude.{◌≤◌, IfErr, IfOk, length};
ghost use Rattle.specview.specs.Pictures.{IsPictureFault, IsPictured, IsPlayPictureFault};

use crate::fault::ViewFault;
use dspec_core::{Actor, Answer, ConsumerOp, Op, Outcome};
use dspec_picture::{PictureFault, picture};
use dspec_replay::play_text;
use dspec_schedule::Schedule;
use std::alloc::{AllocError, Global};

/// Whether the call took a batch of the CPU.
fn took_of(cpu: u32, op: Op, answer: Answer) -> bool {
    let Op::Consumer(ConsumerOp::Take(from)) = op else {
        return false;
    };
    match answer {
        Answer::Took { .. } => cpu == from,
        _ => false,
    }
}

/// How many batches of each CPU the consumer took.
fn batches_taken(
    alloc: Global,
    cpus: u32,
    answers: &[(Actor, Op, Answer)],
) -> Result<Vec<u64>, AllocError> {
    let mut taken = Vec::new(alloc);
    for cpu in 0..cpus {
        let of_cpu = answers
            .iter()
            .filter(|ended| took_of(cpu, ended.1, ended.2));
        taken.push(of_cpu.count() as u64)?;
    }
    Ok(taken)
}

/// The picture of a play.
fn picture_of_play(
    alloc: Global,
    schedule: &Schedule,
    outcome: &Outcome,
) -> Result<String, ViewFault>
    ensures few { IfOk result (λ _. length outcome.now.close.deeds ≤ 2000) }
    ensures fault { IfErr result (IsPlayPictureFault (length outcome.now.close.deeds)) }
{
    let batches = batches_taken(alloc, schedule.config.cpus, outcome.answers.as_slice())?;
    let deeds = outcome.close.deeds.as_slice();
    let header = schedule.header();
    match picture(alloc, &schedule.config, header, batches.as_slice(), deeds) {
        Ok(svg) => Ok(svg),
        Err(PictureFault::TooManyDeeds) => Err(ViewFault::TooManyDeeds),
        Err(PictureFault::Memory) => Err(ViewFault::Memory),
    }
}

/// Plays the schedule of a text, and gives the picture of its play.
#[tactic(auto, using(crate::proofs::Taking::text_fault, crate::proofs::Taking::play_fault_told))]
pub fn picture_of(alloc: Global, text: &[u8]) -> Result<String, ViewFault>
    ensures played { IfOk result (λ _. IsPictured text.now) }
    ensures fault { IfErr result (IsPictureFault text.now) }
{
    let played = play_text(alloc, text)?;
    picture_of_play(alloc, &played.schedule, &played.outcome)
}
