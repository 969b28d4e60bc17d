//! A session on threads of a program's own: its lanes go out, and come back in any order.
use crate::workers::Counted;
use dspec::{Closed, Config, Enablings, Field, Handed, Lane, Path, Report, StartFault, Worker};
use dspec_threads::{Anything, FreeLane, Running};
use std::alloc::Global;
use std::test::Fail;
use std::thread;

/// It records its number so often as it was called.
#[derive(Drop)]
struct Caller {
    calls: u64,
}

impl Worker<Enablings> for Caller {
    fn work(&mut self, lane: &mut Lane<'_, Enablings>) {
        let _ = lane.record(1, 0, &[self.calls]);
        lane.service();
        self.calls = self.calls.wrapping_add(1);
    }
}

/// It opens a path of one record and hands it on; or, where it is to keep it, adds one and keeps it.
#[derive(Drop)]
struct Shared {
    word: Option<Handed>,
    keep: bool,
}

impl Worker<Enablings> for Shared {
    fn work(&mut self, lane: &mut Lane<'_, Enablings>) {
        let path = match self.word {
            Some(word) => Path::take(word),
            None => lane.path(),
        };
        let _ = path.record(lane, 1, 0, &[7]);
        if self.keep {
            path.commit(lane);
            return;
        }
        self.word = Some(path.hand());
    }
}

/// It reads how many records its lane has in the trace.
#[derive(Drop)]
struct Told {
    accepted: u64,
}

impl Worker<Enablings> for Told {
    fn work(&mut self, lane: &mut Lane<'_, Enablings>) {
        self.accepted = lane.report().accepted;
    }
}

/// What a thread does with a lane.
fn call_and_give_back(lane: FreeLane, worker: Caller) -> Caller {
    let (mut lane, mut worker) = (lane, worker);
    lane.lend(&mut worker);
    lane.lend(&mut worker);
    lane.give_back();
    worker
}

/// What a CPU's report says, where there is such a CPU.
pub fn told_of(closed: &Closed, cpu: u32) -> Result<Report, Fail> {
    if cpu < closed.cpus() {
        Ok(*closed.report(cpu))
    } else {
        Err("there is such a CPU".into())
    }
}

/// A session of two CPUs.
pub fn started(alloc: Global) -> Result<Running<Anything, Counted>, Fail> {
    let mut schema = Enablings::new();
    if schema.enable(&[Field::Eight]).is_err() {
        return Err("a field is in range".into());
    }
    let (config, sink) = (
        Config::of(2, 4, 64, 64),
        Counted {
            batches: 0,
            bytes: 0,
        },
    );
    match Running::<Anything, Counted>::start(alloc, &config, schema, sink) {
        Ok(running) => Ok(running),
        Err(_) => Err("no session".into()),
    }
}

#[test]
fn lanes_come_back_in_any_order(rt: HostRuntime) -> Result<(), Fail> {
    let mut running = started(rt.alloc())?;
    let (Some(first), Some(second)) = (running.free_lane(0)?, running.free_lane(1)?) else {
        return Err("two lanes are due".into());
    };
    assert!(rt; first.number() == 0 && second.number() == 1);
    second.give_back();
    assert!(rt; !running.is_home());
    let Err(running) = running.end() else {
        return Err("a lane is out".into());
    };
    let mut running = running;
    let Ok(child) = thread::spawn(&rt, move || call_and_give_back(first, Caller { calls: 0 }))
    else {
        return Err("no thread".into());
    };
    running.round();
    let worker = child.join(&rt);
    running.round();
    assert!(rt; running.is_home() && running.sink().bytes <= 32);
    let Ok((closed, sink)) = running.end() else {
        return Err("all lanes are back".into());
    };
    assert!(rt; worker.calls == 2 && sink.bytes == 32);
    assert!(rt; told_of(&closed, 0)?.offered == 2 && told_of(&closed, 1)?.offered == 0);
    Ok(())
}

/// A lane that is back goes out again; one that is out doesn't, and there is no third.
#[test]
fn lanes_go_out_again(rt: HostRuntime) -> Result<(), Fail> {
    let mut running = started(rt.alloc())?;
    let Some(mut lane) = running.free_lane(1)? else {
        return Err("it is at home".into());
    };
    assert!(rt; running.free_lane(1)?.is_none() && running.free_lane(2)?.is_none());
    let mut caller = Caller { calls: 0 };
    lane.lend(&mut caller);
    // a lane that is let go gives itself back
    drop(lane);
    let Some(mut again) = running.free_lane(1)? else {
        return Err("it is back".into());
    };
    again.lend(&mut caller);
    again.give_back();
    let Ok((closed, _sink)) = running.end() else {
        return Err("all lanes are back".into());
    };
    assert!(rt; told_of(&closed, 1)?.offered == 2 && told_of(&closed, 0)?.offered == 0);
    Ok(())
}

/// A CPU at home settles what another one decides once it is tended: until then its part of the path isn't in the trace.
#[test]
fn lanes_at_home_are_tended(rt: HostRuntime) -> Result<(), Fail> {
    let mut running = started(rt.alloc())?;
    let (Some(mut first), Some(mut second)) = (running.free_lane(0)?, running.free_lane(1)?) else {
        return Err("two lanes are due".into());
    };
    let mut shared = Shared {
        word: None,
        keep: false,
    };
    first.lend(&mut shared);
    drop(first);
    assert!(rt; running.free_lane(0)?.is_some());
    shared.keep = true;
    second.lend(&mut shared);
    running.tend();
    let Some(mut again) = running.free_lane(0)? else {
        return Err("it is back".into());
    };
    let mut told = Told { accepted: 0 };
    again.lend(&mut told);
    assert!(rt; told.accepted == 1);
    Ok(())
}

#[test]
fn configuration_is_refused(rt: HostRuntime) -> Result<(), Fail> {
    let config = Config::of(65, 4, 64, 64);
    let sink = Counted {
        batches: 0,
        bytes: 0,
    };
    let refused = Running::<Anything, Counted>::start(rt.alloc(), &config, Enablings::new(), sink);
    let Err(fault) = refused else {
        return Err("a session of 65 CPUs".into());
    };
    assert!(rt; fault == StartFault::Cpus);
    Ok(())
}
