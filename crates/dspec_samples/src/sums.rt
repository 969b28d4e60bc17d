use crate::identifiers::Identifiers;
use crate::stories::Story;

/// What went on in some sessions, all together.
#[derive(Clone, Copy, Debug, Default, PartialEq, Eq)]
pub struct Sums {
    /// How many calls the CPUs made.
    pub calls: u64,
    pub offered: u64,
    pub accepted: u64,
    pub dropped: u64,
    pub specdropped: u64,
    pub lost: u64,
    pub discarded: u64,
    pub void: u64,
    pub held: u64,
    /// How many identifiers were decided.
    pub decided: u64,
    /// How many identifiers have granted records of several CPUs.
    pub shared: u64,
    /// How many batches the consumer took, and how many were left.
    pub batches: u64,
}

/// Adds, up to the most that there is room for.
fn add(sum: &mut u64, number: u64) {
    *sum = sum.saturating_add(number);
}

impl Sums {
    /// One session more.
    pub fn add(&mut self, story: &Story, identifiers: &Identifiers) {
        for report in &story.reports {
            add(&mut self.offered, report.offered);
            add(&mut self.accepted, report.accepted);
            add(&mut self.dropped, report.dropped);
            add(&mut self.specdropped, report.specdropped);
            add(&mut self.lost, report.lost);
            add(&mut self.discarded, report.discarded);
            add(&mut self.void, report.void);
            add(&mut self.held, report.held);
        }
        for log in &story.logs {
            add(&mut self.calls, log.calls.len() as u64);
        }
        for stream in &story.streams {
            add(&mut self.batches, stream.parts.len() as u64);
        }
        add(&mut self.decided, identifiers.decided());
        add(&mut self.shared, identifiers.shared());
    }
}
