//! `tour` takes the tracer of one CPU through a session. What its requests touched is recorded speculatively: it is kept of
//! the request that failed, and thrown away of the one that didn't. The program prints what the sink kept and the report.
#![tactic(auto)]

ghost use Rattle.std.specs.Prelude.{IfOk};
ghost use Rattle.tour.specs.Toured.{IsTour};

use anyhow::Result;
use dspec::{
    Config, Enablings, Lane, Probe, Probes, Rec, RecordSink, Recording, Report, Work, closed_cpu,
    trace,
};
use std::alloc::Global;
use std::thread::Threads;

/// What the CPU does, by its two probes: a request has a number; a touch has an address, and what was done to it.
#[derive(Drop)]
struct Requests {
    request: Probe<(u32,)>,
    touch: Probe<(u64, u8)>,
}

impl Work<Enablings> for Requests {
    ghost use Rattle.tour.specs.Requests.{DoesRequests};

    ghost does = { λ schema work _ before after. DoesRequests schema work before after };

    /// One request fails and one doesn't, and three plain records are traced, of which the last has no room.
    fn work(&self, lane: &mut Lane<'_, Enablings>) {
        let (Ok(request), Ok(touch)) = (self.request.on(lane), self.touch.on(lane)) else {
            return;
        };
        let failed = lane.path();
        touch.record_in(lane, &failed, 0, (4096, 5));
        touch.record_in(lane, &failed, 0, (8192, 0));
        failed.commit(lane);
        let fine = lane.path();
        touch.record_in(lane, &fine, 0, (12288, 0));
        fine.discard(lane);
        request.record(lane, 0, (7,));
        request.record(lane, 0, (8,));
        request.record(lane, 0, (9,));
    }
}

/// The session of that work. It gives back the records that the sink kept, and the report of its CPU.
fn tour<R: Threads + Sync>(rt: &R, alloc: Global) -> Result<(Vec<Rec>, Report)>
    ensures { IfOk result (λ r. IsTour r.0.items r.1) }
{
    let mut probes = Probes::unstamped(alloc);
    let request = probes.probe("request", &["number"])?;
    let touch = probes.probe("touch", &["address", "access"])?;
    let work = Requests { request, touch };
    let config = Config::of(1, 2, 64, 64);
    let mut kept = RecordSink::new(alloc);
    let closed = trace(rt, alloc, &config, probes.enablings(), &work, &mut kept)?;
    let records = kept.records()?;
    Ok((records, *closed_cpu(&closed, 0).report))
}

fn main(rt: HostRuntime) -> Result<()> {
    let (records, report) = tour(&rt, rt.alloc())?;
    for rec in &records {
        println!(rt; "taken {rec}")?;
    }
    println!(rt; "report cpu 0 {report}")?;
    Ok(())
}
