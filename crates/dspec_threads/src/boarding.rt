ghost use Rattle.std.specs.Prelude.{◌≡◌, [], IfOk, length, map, replicate};
ghost use Rattle.dspec.specs.Lanes.{place_of};
ghost use Rattle.dspec_threads.specs.{Said.SaysTo, Said.SaysWithin, Said.rooms_of_lanes, Said.said_into, Said.said_to_each, Settled.SettlesSome, Settled.settled_from};

use crate::judging::Judging;
use crate::saying::Sayer;
use crate::settling::{Settler, pair};
use crate::verdict::Verdict;
use dspec::{Handed, Lane};
use dspec_cpu::{Cpu, Listed};
use dspec_record::Schema;
use std::alloc::{AllocError, Global};
use std::sync::Mutex;

/// What the consumer has: it says verdicts. A sink holds it.
#[derive(Drop)]
pub struct Judge<J: Judging> {
    sayers: Vec<Sayer<J>>,
}

/// What the lanes share: they settle what was said. A work holds it by reference.
#[derive(Drop)]
pub struct Verdicts<J: Judging> {
    settlers: Vec<Mutex<Settler<J>>>,
}

/// Both ends of a board for so many lanes, each with room for so many verdicts that wait. Takes all memory that it will need.
pub fn board<J: Judging>(
    alloc: Global,
    lanes: u32,
    room: usize,
) -> Result<(Judge<J>, Verdicts<J>), AllocError>
    ensures judge { IfOk result (λ r. said_to_each r.0.sayers.items ≡ replicate lanes []) }
    ensures rooms { IfOk result (λ r. rooms_of_lanes r.0.sayers.items ≡ replicate lanes room) }
    ensures lanes { IfOk result (λ r. length r.1.settlers.items ≡ lanes) }
{
    let (mut sayers, mut settlers) = (Vec::new(alloc), Vec::new(alloc));
    for _ in 0..lanes {
        let (sayer, settler) = pair(alloc, room)?;
        sayers.push(sayer)?;
        settlers.push(Mutex::new(settler))?;
    }
    Ok((Judge { sayers }, Verdicts { settlers }))
}

/// As `board`, with an end for each lane to settle by, in order: each is for one worker to hold.
pub fn settlers<J: Judging>(
    alloc: Global,
    lanes: u32,
    room: usize,
) -> Result<(Judge<J>, Vec<Settler<J>>), AllocError>
    ensures judge { IfOk result (λ r. said_to_each r.0.sayers.items ≡ replicate lanes []) }
    ensures rooms { IfOk result (λ r. rooms_of_lanes r.0.sayers.items ≡ replicate lanes room) }
    ensures lanes { IfOk result (λ r. length r.1.items ≡ lanes) }
    ensures ends { IfOk result (λ r. map settled_from r.1.items ≡ map said_into r.0.sayers.items) }
{
    let (mut sayers, mut ends) = (Vec::new(alloc), Vec::new(alloc));
    for _ in 0..lanes {
        let (sayer, end) = pair(alloc, room)?;
        sayers.push(sayer)?;
        ends.push(end)?;
    }
    Ok((Judge { sayers }, ends))
}

impl<J: Judging> Judge<J> {
    /// Says to a lane what is to become of a path, true for keep. Whoever says it has to heed the answer. Any lane of the session can decide any path; the one from whose
    /// batch the word came is the nearest. False, and nothing was said, where the lane's ring is full, as far as can be seen, or where
    /// there is no such lane.
    #[must_use]
    pub fn say(&mut self, lane: u32, path: Handed, keep: bool) -> bool
        requires { J.may path.id keep }
        ensures says { SaysTo lane (record { path = path; keep = keep }) result self.old.sayers.items self.new.sayers.items }
        ensures room { SaysWithin lane result self.old.sayers.items self.new.sayers.items }
    {
        let index = lane as usize;
        if index >= self.sayers.len() {
            return false;
        }
        let sayer = &mut self.sayers[index];
        sayer.say(Verdict { path, keep })
    }
}

impl<J: Judging> Verdicts<J> {
    /// Decides on this lane what was said to it since, each once, and answers of how many paths. A worker's loop calls it beside
    /// `service`. It waits for nobody: where another thread is settling what was said to a lane of this number, it answers 0.
    pub fn settle<S: Schema>(&self, lane: &mut Lane<'_, S>) -> usize
        ensures same { place_of lane.new ≡ place_of lane.old }
        ensures does { SettlesSome ⟦<Cpu<S> as Listed>⟧.has_list J.may result lane.old lane.new }
    {
        let Some(settler) = self.settlers.get(lane.number() as usize) else {
            return 0;
        };
        let Some(mut settler) = settler.try_lock() else {
            return 0;
        };
        settler.settle(lane)
    }
}
