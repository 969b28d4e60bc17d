//! `examples jobs` is a queue of jobs, and three workers, one stage each. A job has one path over all three: it goes on from worker to
//! worker over belts, and the last one keeps it where the job failed.

mod stage;

use crate::jobs::stage::{JobProbes, Stage};
use anyhow::Result;
use dspec::{Config, Probes, RecordSink, closed_cpus, trace_workers};
use dspec_threads::belt;
use std::thread::Threads;

/// Does all jobs, and tells what was kept.
pub fn main<R: Threads + Sync>(rt: &HostRuntime, threads: &R) -> Result<()> {
    let alloc = rt.alloc();
    let mut declared = Probes::unstamped(alloc);
    let probes = JobProbes::declare(&mut declared)?;
    // a belt has room for all paths that can be open
    let config = Config::of(3, 8, 8192, 256);
    let ((to_second, from_first), (to_third, from_second)) = (belt(alloc, 8)?, belt(alloc, 8)?);
    let mut workers = Vec::new(alloc);
    workers.push(Stage::new(None, Some(to_second), probes))?;
    workers.push(Stage::new(Some(from_first), Some(to_third), probes))?;
    workers.push(Stage::new(Some(from_second), None, probes))?;
    let (schema, mut kept) = (declared.enablings(), RecordSink::new(alloc));
    let closed = trace_workers(threads, alloc, &config, schema, &mut workers, &mut kept)?;
    let (mut begun, mut staged) = (0u32, 0u32);
    for rec in kept.records()? {
        begun = begun.saturating_add(u32::from(probes.begun.read(&rec).is_some()));
        staged = staged.saturating_add(u32::from(probes.staged.read(&rec).is_some()));
    }
    println!(rt; "kept: begun {begun}, staged {staged}")?;
    for (cpu, worker) in closed_cpus(&closed).zip(workers) {
        let (number, done, held) = (cpu.number, worker.done, cpu.report.held);
        println!(rt; "cpu {number}: {done} jobs, {held} records held")?;
    }
    Ok(())
}
