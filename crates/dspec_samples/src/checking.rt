use crate::blocks::Blocks;
use crate::calls::check_calls;
use crate::due::{check_report, check_sums, report_due};
use crate::flaws::{Checked, Flaw, FlawKind};
use crate::identifiers::Identifiers;
use crate::order::OrderCheck;
use crate::stories::Story;
use crate::sums::Sums;
use std::alloc::Global;

/// Checks what is known of one CPU.
fn check_cpu(alloc: Global, cpu: u32, story: &Story, identifiers: &Identifiers) -> Checked<()> {
    let place = cpu as usize;
    let (Some(log), Some(stream), Some(report)) = (
        story.logs.get(place),
        story.streams.get(place),
        story.reports.get(place),
    ) else {
        return Err(Flaw::new(FlawKind::LogMissing, cpu).into());
    };
    if log.torn {
        return Err(Flaw::new(FlawKind::LogMissing, cpu).into());
    }
    let calls = log.calls.as_slice();
    check_calls(alloc, cpu, calls, &story.config, identifiers)?;
    let mut blocks = Blocks::read(alloc, cpu, calls)?;
    let mut walk = OrderCheck::new(alloc, cpu, calls)?;
    walk.walk(stream, &mut blocks, identifiers)?;
    let due = report_due(calls, walk.found, &blocks, identifiers);
    check_report(cpu, report, &due)?;
    check_sums(cpu, calls, stream, report, identifiers.decided())
}

/// Looks for the first contradiction in what is known of a session, and adds what went on in it.
pub fn check(alloc: Global, story: &Story, sums: &mut Sums) -> Checked<()> {
    if story.refused > 0 {
        let flaw = Flaw::new(FlawKind::GiveBackRefused, 0);
        return Err(flaw.with(story.refused, 0).into());
    }
    let identifiers = Identifiers::read(alloc, story)?;
    identifiers.check(story)?;
    for cpu in 0..story.config.cpus {
        check_cpu(alloc, cpu, story, &identifiers)?;
    }
    sums.add(story, &identifiers);
    Ok(())
}
