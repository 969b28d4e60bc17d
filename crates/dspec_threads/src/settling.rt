ghost use Rattle.std.specs.Prelude.{◌≡◌, ℕ, ◌++◌, [], List, length, IfOk};
ghost use mathlib.Core.List.{IsPrefix};
ghost use Rattle.dspec.specs.Lanes.{place_of};
ghost use Rattle.dspec_threads.specs.{Said.room_of_lane, Said.said_by, Said.said_into, Settled.DoesVerdict, Settled.SettlesNext, Settled.seen_by, Settled.settled_by, Settled.settled_from};
ghost use Rattle.dspec_threads.specs.{declared.verdict.Verdict.Verdict};

use crate::judging::{Judging, Said};
use crate::saying::Sayer;
use crate::verdict::Verdict;
use dspec::{Lane, Path};
use dspec_cpu::{Cpu, Listed};
use dspec_record::Schema;
use rtrb::{Consumer, RingBuffer};
use std::alloc::{AllocError, Global};

/// The end of a lane's ring of verdicts that the lane has. It can move to another thread.
#[derive(Drop)]
pub struct Settler<J: Judging> {
    pub(crate) coming: Consumer<Verdict, Global, Said<J>>,
}

// Does what was said of one path.
#[inline]
fn decide<S: Schema>(lane: &mut Lane<'_, S>, verdict: Verdict)
    ensures { DoesVerdict ⟦<Cpu<S> as Listed>⟧.has_list verdict lane.old lane.new }
{
    let Verdict { path, keep } = verdict;
    let path = Path::take(path);
    if keep {
        path.commit(lane);
        return;
    }
    path.discard(lane);
}

impl<J: Judging> Settler<J> {
    /// Decides on this lane what was said since, in the order in which it was said, each once, and answers of how many paths: as many
    /// as are seen in the ring when it begins. A path that was decided before is void, which its decision's answer would tell.
    pub fn settle<S: Schema>(&mut self, lane: &mut Lane<'_, S>) -> usize
        ensures same { place_of lane.new ≡ place_of lane.old }
        ensures ring { settled_from self.new ≡ settled_from self.old }
        ensures does { SettlesNext ⟦<Cpu<S> as Listed>⟧.has_list J.may (settled_by self.old) (settled_by self.new) result lane.old lane.new }
        ensures seen { IsPrefix (settled_by self.old ++ seen_by self.old) (settled_by self.new) }
    {
        let count = self.coming.slots();
        for _ in 0..count {
            let verdict = self.coming.pop_known();
            decide(lane, verdict);
        }
        count
    }

    /// How many verdicts were said and not settled, where both ends are in one thread again: what was settled, and then these, is
    /// just what was said.
    pub fn left(&mut self, sayer: &mut Sayer<J>) -> usize
        requires { settled_from self.old ≡ said_into sayer.old }
        ensures ring { (said_into sayer.new ≡ said_into sayer.old) × (settled_from self.new ≡ settled_from self.old) }
        ensures same { (said_by sayer.new ≡ said_by sayer.old) × (settled_by self.new ≡ settled_by self.old) }
        ensures rest { (rest : List Verdict) × (settled_by self.new ++ rest ≡ said_by sayer.new) × (result ≡ length rest) }
    {
        self.coming.slots_beside(&mut sayer.going)
    }
}

/// The two ends of one lane's ring, with room for so many verdicts. Takes all memory that they will need.
pub fn pair<J: Judging>(alloc: Global, room: usize) -> Result<(Sayer<J>, Settler<J>), AllocError>
    ensures ends { IfOk result (λ r. settled_from r.1 ≡ said_into r.0) }
    ensures unused { IfOk result (λ r. (said_by r.0 ≡ []) × (settled_by r.1 ≡ [])) }
    ensures room { IfOk result (λ r. room_of_lane r.0 ≡ room) }
{
    let (going, coming) = RingBuffer::<Verdict>::with_protocol::<Global, Said<J>>(alloc, room)?;
    Ok((Sayer { going }, Settler { coming }))
}
