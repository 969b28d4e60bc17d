//! `examples relay` is a server whose requests go over two workers, each on a lane of its own: the first accepts a request, and opens a
//! path for its records; the second answers it. The path is handed on from one to the other as a word. Whether its records are kept is
//! said at the end, by the reader: those of a slow request are. So how long it took is known before anything of it is kept, and neither
//! worker waits for the reader.
//!
//! The second worker traces a record that has the path's word and the time; the sink reads it in a batch and says its verdict to that
//! worker's lane, which settles it between requests. Each has a part of the path in buffers of its own; that of the first arrives when it
//! calls `service`, or at the close.
//!
//! Records are stamped by the system's clock. How long a request takes is made up, so that the same is printed however the threads run.

mod belt;
mod deciding;
mod probes;
mod serving;

use crate::relay::belt::{Belt, REQUESTS};
use crate::relay::deciding::Decider;
use crate::relay::probes::RequestProbes;
use crate::relay::serving::Server;
use anyhow::{Result, ensure};
use dspec::{Both, Closed, Config, Probes, Rec, RecordSink, SystemClock, closed_cpus, trace};
use dspec_threads::{Anything, board};
use std::io;
use std::thread::Threads;

/// How many records of each probe the sink kept.
fn tell_records<R: Print>(rt: &R, probes: &RequestProbes, records: &[Rec]) -> io::Result<()> {
    let (mut accepted, mut answered, mut ended) = (0u64, 0u64, 0u64);
    for rec in records {
        accepted = accepted.saturating_add(u64::from(probes.accepted.read(rec).is_some()));
        answered = answered.saturating_add(u64::from(probes.answered.read(rec).is_some()));
        ended = ended.saturating_add(u64::from(probes.ended.read(rec).is_some()));
    }
    println!(rt; "records: accepted {accepted}, answered {answered}, ended {ended}")
}

/// What the CPUs report. Each record that was offered is in the trace or was thrown away: none waits, and none was lost.
fn tell_reports<R: Print>(rt: &R, closed: &Closed) -> Result<()> {
    for cpu in closed_cpus(closed) {
        let (number, report) = (cpu.number, cpu.report);
        let (offered, accepted, discarded) = (report.offered, report.accepted, report.discarded);
        println!(rt;
            "cpu {number}: offered {offered}, accepted {accepted}, discarded {discarded}"
        )?;
        let balanced = offered == accepted.saturating_add(discarded);
        ensure!(balanced, "cpu {number} isn't balanced: {report}");
    }
    Ok(())
}

/// Serves all requests, and tells what came of them.
pub fn main<R: Threads + Sync>(rt: &HostRuntime, threads: &R) -> Result<()> {
    let alloc = rt.alloc();
    let mut declared = Probes::new(alloc);
    let probes = RequestProbes::declare(&mut declared)?;
    let (judge, verdicts) = board::<Anything>(alloc, 2, REQUESTS)?;
    let clock = SystemClock::start(rt)?;
    let work = Server::new(Belt::new(alloc)?, &clock, probes, &verdicts);
    let mut sink = Both {
        first: RecordSink::new(alloc),
        second: Decider::new(judge, probes.ended),
    };
    let config = Config::of(2, 16, 65536, 256);
    let closed = trace(
        threads,
        alloc,
        &config,
        declared.enablings(),
        &work,
        &mut sink,
    )?;
    let Both { first, second } = sink;
    let (kept, thrown) = (second.kept(), second.thrown());
    println!(rt; "requests: {REQUESTS}, of which {kept} were kept and {thrown} thrown away")?;
    tell_records(rt, &probes, first.records()?.as_slice())?;
    tell_reports(rt, &closed)
}
