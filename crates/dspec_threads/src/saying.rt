ghost use Rattle.std.specs.Prelude.{◌≡◌, ◌≤◌, ◌+◌, ◌++◌, [], ◌∷◌, MatchBool};
ghost use Rattle.dspec_threads.specs.Said.{room_of_lane, said_by, said_into};

use crate::judging::{Judging, Said};
use crate::verdict::Verdict;
use rtrb::Producer;
use std::alloc::Global;

/// The end of a lane's ring of verdicts that the consumer has. It can move to another thread.
#[derive(Drop)]
pub struct Sayer<J: Judging> {
    pub(crate) going: Producer<Verdict, Global, Said<J>>,
}

impl<J: Judging> Sayer<J> {
    /// Says a verdict to the lane. False, and nothing was said, where the ring is full, as far as this end can see.
    #[must_use]
    #[inline]
    pub fn say(&mut self, verdict: Verdict) -> bool
        requires { J.may verdict.path.id verdict.keep }
        ensures ring { said_into self.new ≡ said_into self.old }
        ensures said { MatchBool result (said_by self.new ≡ said_by self.old ++ verdict ∷ []) (said_by self.new ≡ said_by self.old) }
        ensures room { MatchBool result (room_of_lane self.old ≤ room_of_lane self.new + 1) (room_of_lane self.old ≡ 0) }
    {
        self.going.push(verdict).is_ok()
    }
}
