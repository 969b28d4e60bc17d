//! A board of three lanes, all on one thread: what is said to a lane is settled on that lane, and each lane has the room that was asked for.
use crate::handing::schema;
use crate::lanes_out::told_of;
use crate::workers::Counted;
use dspec::{Config, Enablings, Handed, Lane, Worker};
use dspec_threads::{Anything, FreeLane, Judge, Running, Verdicts, board};
use std::test::Fail;

/// How many verdicts a lane has room for.
const ROOM: usize = 2;

/// It opens a path of one record, and hands its word on.
#[derive(Drop)]
struct Opens {
    word: u64,
}

impl Worker<Enablings> for Opens {
    fn work(&mut self, lane: &mut Lane<'_, Enablings>) {
        let path = lane.path();
        let _ = path.record(lane, 1, 0, &[7]);
        self.word = path.hand().raw();
    }
}

/// It settles what was said to its lane, and tells how much that was.
#[derive(Drop)]
struct Settles<'a> {
    verdicts: &'a Verdicts<Anything>,
    settled: usize,
}

impl Worker<Enablings> for Settles<'_> {
    fn work(&mut self, lane: &mut Lane<'_, Enablings>) {
        self.settled = self.verdicts.settle(lane);
    }
}

/// Says to a lane, of paths that it opens, that they are kept: how often that was taken of so many times.
fn said(lane: &mut FreeLane, judge: &mut Judge<Anything>, times: usize) -> usize {
    let mut taken = 0usize;
    for _ in 0..times {
        let mut opens = Opens { word: 0 };
        lane.lend(&mut opens);
        if judge.say(lane.number(), Handed::from_raw(opens.word), true) {
            taken = taken.saturating_add(1);
        }
    }
    taken
}

/// How much a lane settles.
fn settled(lane: &mut FreeLane, verdicts: &Verdicts<Anything>) -> usize {
    let mut settles = Settles {
        verdicts,
        settled: 0,
    };
    lane.lend(&mut settles);
    settles.settled
}

#[test]
fn each_lane_settles_what_it_was_told(rt: HostRuntime) -> Result<(), Fail> {
    let config = Config::of(3, 8, 64, 64);
    let sink = Counted {
        batches: 0,
        bytes: 0,
    };
    let started = Running::<Anything, Counted>::start(rt.alloc(), &config, schema()?, sink);
    let Ok(mut running) = started else {
        return Err("no session".into());
    };
    let (Some(mut first), Some(mut middle)) = (running.free_lane(0)?, running.free_lane(1)?) else {
        return Err("three lanes are due".into());
    };
    let Some(mut last) = running.free_lane(2)? else {
        return Err("three lanes are due".into());
    };
    let (mut judge, verdicts) = board::<Anything>(rt.alloc(), 3, ROOM)?;
    assert!(rt; said(&mut first, &mut judge, 1) == 1);
    assert!(rt; said(&mut last, &mut judge, 3) == ROOM);
    assert!(rt; !judge.say(3, Handed::from_raw(1), true));
    assert!(rt; settled(&mut middle, &verdicts) == 0);
    assert!(rt; settled(&mut first, &verdicts) == 1);
    assert!(rt; settled(&mut last, &verdicts) == ROOM);
    assert!(rt; said(&mut middle, &mut judge, 2) == ROOM);
    assert!(rt; settled(&mut first, &verdicts) == 0);
    assert!(rt; settled(&mut middle, &verdicts) == ROOM);
    first.give_back();
    middle.give_back();
    last.give_back();
    let Ok((closed, _sink)) = running.end() else {
        return Err("all lanes are back".into());
    };
    let third = told_of(&closed, 2)?;
    assert!(rt; told_of(&closed, 0)?.accepted == 1 && told_of(&closed, 1)?.accepted == 2);
    assert!(rt; third.accepted == 2 && third.held == 1);
    Ok(())
}
