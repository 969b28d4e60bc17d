//! `examples pool` has two threads before it has a session: they take jobs from a channel for as long as there are any. Then a session is
//! started on them: a job carries a lane and a worker with a state of its own into whichever thread is free. The workers work without an
//! end, until the sink has enough batches and sets a flag that all of them read.
//!
//! What is printed is the same however the threads run.

mod counting;
mod enough;
mod job;

use crate::pool::counting::Counter;
use crate::pool::enough::Enough;
use crate::pool::job::Job;
use anyhow::{Result, bail, ensure};
use crossbeam_channel::{Receiver, Sender, bounded};
use dspec::{Closed, Config, Enablings, Field, Report, Stop, closed_cpus};
use dspec_threads::{Anything, Running};
use std::alloc::Global;
use std::sync::{Arc, Wait};
use std::thread;
use std::thread::{JoinHandle, Threads};

/// How many threads the pool has.
const THREADS: u32 = 2;

/// How often the consumer's thread looks before it gives up.
const MOST_ROUNDS: u64 = 100_000_000;

/// What a thread of the pool does: jobs, as they come, for as long as somebody may send one.
fn serve<R: Wait>(rt: &R, jobs: &Receiver<Job, Global>) -> u32 {
    let mut done = 0u32;
    for job in jobs.iter(rt) {
        job.run(rt);
        done = done.saturating_add(1);
    }
    done
}

/// Sends each lane, with a worker, to the pool.
fn send_all<R: Wait>(
    rt: &R,
    running: &mut Running<Anything, Enough>,
    stop: &Arc<Stop, Global>,
    epid: u32,
    sender: &Sender<Job, Global>,
    done: &Sender<Counter, Global>,
) -> Result<()> {
    for number in 0..THREADS {
        let Some(lane) = running.free_lane(number)? else {
            bail!("lane {number} is out");
        };
        let worker = Counter::new(Arc::try_clone(stop)?, epid);
        let done = done.clone()?;
        let _ = sender.send(rt, Job { lane, worker, done });
    }
    Ok(())
}

/// Rounds until all lanes are back; then the session ends.
fn consume(running: Running<Anything, Enough>) -> Result<(Closed, Enough)> {
    let mut running = running;
    for _ in 0..MOST_ROUNDS {
        running.round();
        running.tend();
        if running.is_home() {
            break;
        }
        thread::yield_now();
    }
    let Ok(ended) = running.end() else {
        bail!("a lane isn't back");
    };
    Ok(ended)
}

/// How many records the CPU offered, each in exactly one of the counts after.
fn told(report: &Report) -> Option<u64> {
    let dropped = report.dropped.checked_add(report.specdropped)?;
    let lost = report.lost.checked_add(report.discarded)?;
    let open = report.void.checked_add(report.held)?;
    let gone = dropped.checked_add(lost)?.checked_add(open)?;
    report.accepted.checked_add(gone)
}

/// Tells what became of the session: each worker counted just what the CPUs offered.
fn tell<R: Print>(rt: &R, closed: &Closed, counted: u64) -> Result<()> {
    let mut offered = 0u64;
    for cpu in closed_cpus(closed) {
        let report = cpu.report;
        ensure!(
            told(report) == Some(report.offered),
            "cpu {}: {report}",
            cpu.number
        );
        offered = offered.saturating_add(report.offered);
    }
    ensure!(
        offered == counted,
        "{offered} were offered, and {counted} counted"
    );
    println!(rt; "each record that was counted was offered, and each CPU is balanced")?;
    Ok(())
}

/// Starts the threads of the pool.
fn start_threads<R: Threads + Wait + Copy + Send + 'static>(
    rt: R,
    alloc: Global,
    jobs: &Receiver<Job, Global>,
) -> Result<Vec<JoinHandle<u32>>> {
    let mut threads = Vec::new(alloc);
    for _ in 0..THREADS {
        let jobs = jobs.clone()?;
        threads.push(thread::spawn(&rt, move || serve(&rt, &jobs))?)?;
    }
    Ok(threads)
}

/// Does the jobs, and tells what became of them.
pub fn main<R: Threads + Wait + Copy + Send + 'static>(rt: &HostRuntime, threads: R) -> Result<()> {
    let alloc = rt.alloc();
    let (sender, jobs) = bounded::<Job, Global>(alloc, 8)?;
    let children = start_threads(threads, alloc, &jobs)?;
    let mut schema = Enablings::new();
    let epid = schema.enable(&[Field::Eight])?;
    let stop = Arc::new(alloc, Stop::new())?;
    let config = Config::of(THREADS, 8, 1024, 64);
    let sink = Enough::new(Arc::try_clone(&stop)?);
    let mut running = Running::<Anything, Enough>::start(alloc, &config, schema, sink)?;
    let (done, workers) = bounded::<Counter, Global>(alloc, 8)?;
    send_all(&threads, &mut running, &stop, epid, &sender, &done)?;
    let (closed, sink) = consume(running)?;
    drop((sender, done));
    let mut jobs_done = 0u32;
    for child in children {
        jobs_done = jobs_done.saturating_add(child.join(&threads));
    }
    let mut counted = 0u64;
    for worker in workers.iter(&threads) {
        counted = counted.saturating_add(worker.done());
    }
    let (stopped, enough) = (stop.is_set(), sink.has_enough());
    println!(rt; "jobs {jobs_done}, stopped {stopped}, enough records {enough}")?;
    tell(rt, &closed, counted)
}
