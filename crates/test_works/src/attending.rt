//! A lane that waits for a path settles what is said to it meanwhile.
ghost use Rattle.std.specs.Prelude.{◌≡◌};
ghost use Rattle.dspec.specs.Lanes.{place_of};

use crate::lanes_out::{started, told_of};
use dspec::{Enablings, Lane, Worker};
use dspec_threads::{Anything, Giver, Sayer, Settler, Taker, Verdict, belt, open_settling, pair};
use std::test::Fail;

/// Both ends of a ring of verdicts and of a belt, and how many answers were as they are due.
#[derive(Drop)]
struct Waits {
    sayer: Sayer<Anything>,
    settler: Settler<Anything>,
    giver: Giver,
    taker: Taker,
    due: u32,
}

/// A path is opened, and nobody goes on with it.
fn take_a_slot(lane: &mut Lane<'_, Enablings>)
    ensures { place_of lane.new ≡ place_of lane.old }
{
    let _ = lane.path().hand();
}

impl Waits {
    fn count(&mut self, is_due: bool) {
        self.due = self.due.saturating_add(u32::from(is_due));
    }

    /// Says of a path of one record what is to become of it.
    fn say_of_one(&mut self, lane: &mut Lane<'_, Enablings>, keep: bool)
        ensures { place_of lane.new ≡ place_of lane.old }
    {
        let path = lane.path();
        let _ = path.record(lane, 1, 0, &[7]);
        let path = path.hand();
        let said = self.sayer.say(Verdict { path, keep });
        self.count(said);
    }

    /// Whether a path comes. It is thrown away.
    fn comes(&mut self, lane: &mut Lane<'_, Enablings>) -> bool
        ensures { place_of lane.new ≡ place_of lane.old }
    {
        let Some(path) = self.taker.take_settling(lane, &mut self.settler, 3) else {
            return false;
        };
        path.discard(lane);
        true
    }

    /// Whether there is a slot, once what was said is done. Its path is thrown away.
    fn opens(&mut self, lane: &mut Lane<'_, Enablings>) -> bool
        ensures { place_of lane.new ≡ place_of lane.old }
    {
        let path = open_settling(lane, &mut self.settler, 3);
        let given = path.opening().id().raw() != 0;
        path.discard(lane);
        given
    }

    /// Of four slots all are taken, until what was said of one path is done.
    fn waits_for_a_slot(&mut self, lane: &mut Lane<'_, Enablings>) -> bool
        ensures { place_of lane.new ≡ place_of lane.old }
    {
        take_a_slot(lane);
        take_a_slot(lane);
        take_a_slot(lane);
        self.say_of_one(lane, false);
        self.opens(lane)
    }
}

impl Worker<Enablings> for Waits {
    fn work(&mut self, lane: &mut Lane<'_, Enablings>) {
        self.say_of_one(lane, true);
        let came = self.comes(lane);
        self.count(!came && lane.report().accepted == 1);
        let path = lane.path();
        let _ = path.record(lane, 1, 0, &[8]);
        self.say_of_one(lane, true);
        if let Err(back) = self.giver.give(path) {
            back.discard(lane);
        }
        let came = self.comes(lane);
        self.count(came && lane.report().accepted == 1);
        self.settler.settle(lane);
        self.count(lane.report().accepted == 2);
        let given = self.waits_for_a_slot(lane);
        self.count(given);
    }
}

#[test]
fn waiting_settles(rt: HostRuntime) -> Result<(), Fail> {
    let mut running = started(rt.alloc())?;
    let (giver, taker) = belt(rt.alloc(), 2)?;
    let (sayer, settler) = pair(rt.alloc(), 2)?;
    let mut waits = Waits {
        sayer,
        settler,
        giver,
        taker,
        due: 0,
    };
    let Some(mut lane) = running.free_lane(0)? else {
        return Err("it is at home".into());
    };
    lane.lend(&mut waits);
    drop(lane);
    let Ok((closed, _sink)) = running.end() else {
        return Err("all lanes are back".into());
    };
    assert!(rt; waits.due == 7 && told_of(&closed, 0)?.accepted == 2);
    Ok(())
}
