ghost use Rattle.std.specs.Prelude.{◌↔◌, IsTrue, OnOk};
ghost use Rattle.dspec_samples.specs.Balanced.{IsBalanced};

use crate::answers::{is_stopped, is_void, is_worn, record_in};
use crate::blocks::Blocks;
use crate::flaws::{Checked, Flaw, FlawKind, Number};
use crate::identifiers::Identifiers;
use crate::logging::LoggedCall;
use crate::stories::CpuBatches;
use dspec_deeds::{Answer, Opening, Report, Spoken, Traced};
use dspec_word::SpecId;

/// Adds one.
fn more(count: &mut u64) {
    *count = count.saturating_add(1);
}

/// What a call adds to its CPU's report.
fn count_call(due: &mut Report, called: &LoggedCall) {
    if is_worn(called.answer) {
        more(&mut due.worn);
        return;
    }
    if record_in(called.op).is_some() {
        more(&mut due.offered);
        if is_stopped(called.answer) || is_void(called.answer) {
            more(&mut due.void);
        }
    }
    if is_stopped(called.answer) {
        more(&mut due.stopped);
    }
    match called.answer {
        Answer::Traced(Traced::Dropped) => {
            more(&mut due.dropped);
            more(&mut due.drops);
        }
        Answer::Spoken(Spoken::Dropped) => more(&mut due.specdropped),
        Answer::Opening(Opening::Unavailable) => more(&mut due.unavailable),
        Answer::Opening(Opening::Busy) => more(&mut due.busy),
        _ => {}
    }
}

/// What the blocks add: those of a commit that weren't found are lost, those of a discard discarded, and the others held.
fn count_blocks(due: &mut Report, blocks: &Blocks, identifiers: &Identifiers) {
    for (raw, block) in blocks.all.iter() {
        let size = block.kept.len() as u64;
        match identifiers.decision(SpecId::from_raw(*raw)) {
            Some(true) => {
                if !block.seen && size > 0 {
                    due.lost = due.lost.saturating_add(size);
                    more(&mut due.drops);
                }
            }
            Some(false) => due.discarded = due.discarded.saturating_add(size),
            None => due.held = due.held.saturating_add(size),
        }
    }
}

/// The report that is due, where so many records were found.
pub fn report_due(
    calls: &[LoggedCall],
    found: u64,
    blocks: &Blocks,
    identifiers: &Identifiers,
) -> Report {
    let mut due = Report {
        accepted: found,
        ..Report::default()
    };
    for called in calls {
        count_call(&mut due, called);
    }
    count_blocks(&mut due, blocks, identifiers);
    due
}

/// The numbers of a report, by their names.
fn numbers(report: &Report) -> [(Number, u64); 13] {
    [
        (Number::Offered, report.offered),
        (Number::Accepted, report.accepted),
        (Number::Dropped, report.dropped),
        (Number::Specdropped, report.specdropped),
        (Number::Lost, report.lost),
        (Number::Discarded, report.discarded),
        (Number::Void, report.void),
        (Number::Held, report.held),
        (Number::Drops, report.drops),
        (Number::Unavailable, report.unavailable),
        (Number::Busy, report.busy),
        (Number::Stopped, report.stopped),
        (Number::Worn, report.worn),
    ]
}

/// Whether each offered record has one fate in the report.
fn is_balanced(report: &Report) -> bool
    ensures { IsTrue result ↔ IsBalanced report.now }
{
    let taken = u128::from(report.accepted) + u128::from(report.dropped);
    let refused = u128::from(report.specdropped) + u128::from(report.lost);
    let ended = u128::from(report.discarded) + u128::from(report.void);
    taken + refused + ended + u128::from(report.held) == u128::from(report.offered)
}

/// Refuses a report that doesn't add up, or that isn't the one due.
pub fn check_report(cpu: u32, told: &Report, due: &Report) -> Checked<()>
    ensures { OnOk result (IsBalanced told.now) }
{
    if !is_balanced(told) {
        return Err(Flaw::new(FlawKind::Unbalanced, cpu).into());
    }
    for (number, wanted) in numbers(told).iter().zip(numbers(due).iter()) {
        if number.1 != wanted.1 {
            let flaw = Flaw::new(FlawKind::Report(number.0), cpu);
            return Err(flaw.with(number.1, wanted.1).into());
        }
    }
    Ok(())
}

/// Refuses batches whose drops aren't those of the report, and a CPU that settled more than was decided.
pub fn check_sums(
    cpu: u32,
    calls: &[LoggedCall],
    stream: &CpuBatches,
    report: &Report,
    decided: u64,
) -> Checked<()> {
    let mut drops = 0u64;
    for part in &stream.parts {
        drops = drops.saturating_add(part.drops);
    }
    if drops != report.drops {
        let flaw = Flaw::new(FlawKind::AllDrops, cpu);
        return Err(flaw.with(drops, report.drops).into());
    }
    let mut settled = 0u64;
    for called in calls {
        if let Answer::Served(served) = called.answer {
            settled = settled.saturating_add(u64::from(served.settled));
        }
    }
    if settled > decided {
        let flaw = Flaw::new(FlawKind::Settled, cpu);
        return Err(flaw.with(settled, decided).into());
    }
    Ok(())
}
