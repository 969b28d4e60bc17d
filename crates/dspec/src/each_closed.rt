ghost use Rattle.std.specs.Prelude.{◌≤◌, length};

use crate::closing::{ClosedCpu, closed_cpu};
use dspec_session_core::Closed;

/// What is left of each CPU of a closed session, CPU 0 first.
#[derive(Drop)]
pub struct ClosedCpus<'a> {
    pub(crate) closed: &'a Closed,
    pub(crate) next: u32,
    ghost within: { next ≤ length closed.now },
}

impl<'a> Iterator for ClosedCpus<'a> {
    type Item = ClosedCpu<'a>;

    ghost use Rattle.std.specs.Iterator.{YieldsFirstBy, item_count};
    ghost use Rattle.dspec.specs.ClosedCpus.{cpus_left, left_shown};

    ghost next_gives = { YieldsFirstBy left_shown cpus_left };

    ghost remaining = { item_count cpus_left };

    fn next(&mut self) -> Option<ClosedCpu<'a>> {
        let number = self.next;
        if number >= self.closed.cpus() {
            return None;
        }
        self.next = number + 1;
        Some(closed_cpu(self.closed, number))
    }
}
