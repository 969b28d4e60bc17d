use crate::answers::{
    decision_in, identifier_in, is_granted, is_kept, is_refused, is_stopped, is_void, is_worn,
};
use crate::flaws::{Checked, Flaw, FlawKind};
use crate::identifiers::Identifiers;
use crate::logging::LoggedCall;
use dspec_deeds::{Answer, Config, CpuOp, Decided, Traced};
use std::alloc::Global;
use std::collections::BTreeSet;

/// What the calls of a CPU so far tell of the next ones.
#[derive(Drop)]
struct Standing {
    /// How many calls count towards the most that it makes.
    made: u64,
    stopped: bool,
    /// Whether its principal buffer has refused something.
    refused: bool,
    /// The identifiers that a call found decided.
    closed: BTreeSet<u64>,
}

impl Standing {
    /// Once a call was stopped all are, and those are worn that come after the most calls. A service is neither.
    fn check_bounds(&mut self, called: &LoggedCall, config: &Config) -> Result<(), FlawKind> {
        if called.op == CpuOp::Service {
            return Ok(());
        }
        if is_worn(called.answer) != (self.made >= config.max_calls) {
            return Err(FlawKind::Worn);
        }
        self.made = self.made.saturating_add(1);
        if is_worn(called.answer) {
            return Ok(());
        }
        if self.stopped && !is_stopped(called.answer) {
            return Err(FlawKind::AfterStop);
        }
        self.stopped = is_stopped(called.answer);
        Ok(())
    }

    /// Under policy fill nothing is kept after the first refusal.
    fn check_full(&mut self, called: &LoggedCall, config: &Config) -> Result<(), FlawKind> {
        let takes = match called.answer {
            Answer::Traced(Traced::Kept) => true,
            Answer::Decided(Decided::Copied(size)) => size > 0,
            _ => false,
        };
        if takes && self.refused && config.policy.is_fill() {
            return Err(FlawKind::AfterFull);
        }
        self.refused = self.refused || is_refused(called.answer);
        Ok(())
    }
}

/// Refuses a call whose answer its CPU's earlier calls rule out.
pub fn check_calls(
    alloc: Global,
    cpu: u32,
    calls: &[LoggedCall],
    config: &Config,
    identifiers: &Identifiers,
) -> Checked<()> {
    let mut standing = Standing {
        made: 0,
        stopped: false,
        refused: false,
        closed: BTreeSet::new(alloc),
    };
    for (number, called) in calls.iter().enumerate() {
        if let Err(kind) = standing.check_bounds(called, config) {
            return Err(Flaw::new(kind, cpu).at(number).into());
        }
        if let Err(kind) = standing.check_full(called, config) {
            return Err(Flaw::new(kind, cpu).at(number).into());
        }
        let Some(id) = identifier_in(called.op) else {
            continue;
        };
        let decides = decision_in(called.answer).is_some();
        if (is_granted(called.answer) || is_kept(called.answer) || decides)
            && standing.closed.contains(&id.raw())
        {
            return Err(Flaw::new(FlawKind::Revived, cpu).at(number).of(id).into());
        }
        if decides || (is_void(called.answer) && identifiers.is_given(id)) {
            standing.closed.insert(id.raw())?;
        }
    }
    Ok(())
}
