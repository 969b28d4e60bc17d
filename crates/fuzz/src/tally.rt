use crate::comparing::Comparison;
use std::fmt;

/// How many schedules both made the same of, how many turns they had, how many of them both refused, and how many differed.
#[derive(Debug, Clone, Copy, Default, PartialEq, Eq)]
pub struct Tally {
    pub passed: u64,
    pub failed: u64,
    pub calls: u64,
    pub refused: u64,
}

impl Tally {
    /// Counts a schedule of so many calls. Of one that was refused the calls don't count.
    pub fn count(&mut self, verdict: Comparison, calls: u64) {
        match verdict {
            Comparison::Alike => {
                self.passed = self.passed.saturating_add(1);
                self.calls = self.calls.saturating_add(calls);
            }
            Comparison::RefusedAlike => {
                self.passed = self.passed.saturating_add(1);
                self.refused = self.refused.saturating_add(1);
            }
            Comparison::Differ => self.failed = self.failed.saturating_add(1),
        }
    }
}

impl fmt::Display for Tally {
    fn fmt<W: fmt::Write>(&self, f: &mut fmt::Formatter<W>) -> fmt::Result {
        let Tally {
            passed,
            failed,
            calls,
            refused,
        } = self;
        write!(
            f,
            "{calls} calls, {refused} schedules refused by both\n{passed} passed, {failed} failed"
        )
    }
}
