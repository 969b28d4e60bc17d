use dspec_deeds::{Answer, Opening};
use dspec_samples::{Flaw, LoggedCall, Story, Sums, identifier_in};
use dspec_word::SpecId;
use std::io;

/// The most calls that are told of a contradiction.
const MOST: u32 = 24;

/// Whether the contradiction is about this call: the one that it names, or one that gives out, speculates to or decides its identifier.
fn concerns(flaw: &Flaw, cpu: u32, number: usize, called: &LoggedCall) -> bool {
    if flaw.cpu == cpu && flaw.call == Some(number) {
        return true;
    }
    if flaw.id == SpecId::NONE {
        return false;
    }
    let given = match called.answer {
        Answer::Opening(Opening::Id(id)) => id == flaw.id,
        _ => false,
    };
    given || identifier_in(called.op) == Some(flaw.id)
}

/// Tells of a contradiction, and of the calls that it is about.
pub fn tell<R: Print>(rt: &R, seed: u64, story: &Story, flaw: &Flaw) -> io::Result<()> {
    println!(rt; "seed {seed}: {flaw}")?;
    let mut told = 0;
    for (cpu, log) in story.logs.iter().enumerate() {
        for (number, called) in log.calls.iter().enumerate() {
            if told < MOST && concerns(flaw, (cpu % 64) as u32, number, called) {
                let (op, answer) = (called.op, called.answer);
                println!(rt; "  cpu {cpu} call {number}: {op:?} answered {answer:?}")?;
                told += 1;
            }
        }
    }
    Ok(())
}

/// Tells what went on in all sessions.
pub fn tell_sums<R: Print>(rt: &R, sums: &Sums) -> io::Result<()> {
    let Sums {
        calls,
        offered,
        accepted,
        dropped,
        specdropped,
        lost,
        discarded,
        void,
        held,
        decided,
        shared,
        batches,
    } = *sums;
    print!(rt;
        "calls {calls} offered {offered} accepted {accepted} dropped {dropped} specdropped {specdropped} "
    )?;
    print!(rt; "lost {lost} discarded {discarded} void {void} held {held} ")?;
    println!(rt; "decided {decided} shared {shared} batches {batches}")
}
