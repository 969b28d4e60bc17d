//! Speculations by several CPUs at once, each in a thread of its own, while the consumer goes its rounds, or without it.
ghost use Rattle.std.specs.Prelude.{◌≡◌};
ghost use Rattle.dspec.specs.{Lanes.place_of, Lent.AllCallable};
ghost use Rattle.dspec_cpu.specs.Standing.{IsCallable};

use crate::push::number_of;
use dspec::{
    Closed, Config, Cpu, Enablings, Field, Lane, RecordSink, Session, Shared, Work, trace,
};
use std::alloc::Global;
use std::sync::atomic::{AtomicU64, Ordering};
use std::thread::Threads;
use std::time::Instant;
use std::{io, thread};

/// How many records a speculation has.
const BLOCK_RECORDS: u32 = 20;

/// The most CPUs, and the most speculations of each, that a run has.
const MOST_CPUS: u32 = 8;

const MOST_NUMBER: u32 = 10_000_000;

/// What each CPU does: so many speculations, each thrown away, so that no buffer is ever full.
#[derive(Drop)]
struct Speculating {
    epid: u32,
    number: u32,
}

fn speculate_once(lane: &mut Lane<'_, Enablings>, epid: u32)
    ensures { place_of lane.new ≡ place_of lane.old }
{
    let path = lane.path();
    for _ in 0..BLOCK_RECORDS {
        let _ = path.record(lane, epid, 0, &[7]);
    }
    path.discard(lane);
}

impl Work<Enablings> for Speculating {
    fn work(&self, lane: &mut Lane<'_, Enablings>) {
        for _ in 0..self.number {
            speculate_once(lane, self.epid);
        }
    }
}

/// The schema and the work of a run; None where there is no such schema.
fn work_of(number: u32) -> Option<(Enablings, Speculating)> {
    let mut schema = Enablings::new();
    match schema.enable(&[Field::Four]) {
        Ok(epid) => Some((schema, Speculating { epid, number })),
        Err(_) => None,
    }
}

/// The configuration of so many CPUs.
fn config_of(cpus: u32) -> Config {
    Config::of(cpus, 8, 4096, 4096)
}

/// How many records the CPUs of a closed session offered.
fn offered(closed: &Closed) -> u64 {
    let mut sum: u64 = 0;
    for cpu in 0..closed.cpus() {
        sum = sum.wrapping_add(closed.report(cpu).offered);
    }
    sum
}

/// A session of so many CPUs whose speculations are so many each: how many records they offered; 0 where it couldn't start.
fn speculate_all<R: Threads + Sync>(threads: &R, alloc: Global, cpus: u32, number: u32) -> u64 {
    let Some((schema, work)) = work_of(number) else {
        return 0;
    };
    let mut nobody: Option<RecordSink> = None;
    match trace(threads, alloc, &config_of(cpus), schema, &work, &mut nobody) {
        Ok(closed) => offered(&closed),
        Err(_) => 0,
    }
}

/// Each CPU works in a thread of its own: how many records they offered.
fn work_apart<R: Threads + Sync>(
    threads: &R,
    cpus: Vec<Cpu<Enablings>>,
    shared: &Shared,
    work: &Speculating,
) -> u64
    requires callable { AllCallable shared.now cpus.items }
{
    let mut cpus = cpus;
    let sum = AtomicU64::new(0);
    let offered = &sum;
    let part = move |_number: usize, cpu: &mut Cpu<Enablings>|
        requires { IsCallable shared.now cpu.now }
    {
        let mut lane = Lane::of(shared, cpu);
        work.work(&mut lane);
        offered.fetch_add(lane.report().offered, Ordering::SeqCst);
    };
    thread::for_each_mut(threads, cpus.as_mut_slice(), MOST_CPUS as usize, &part);
    sum.load(Ordering::SeqCst)
}

/// The same without a consumer beside them.
fn speculate_apart<R: Threads + Sync>(threads: &R, alloc: Global, cpus: u32, number: u32) -> u64 {
    let Some((schema, work)) = work_of(number) else {
        return 0;
    };
    match Session::start(alloc, &config_of(cpus), schema) {
        Ok(session) => work_apart(threads, session.cpus, &session.shared, &work),
        Err(_) => 0,
    }
}

/// Two CPUs at once, with a consumer and without: how many records they offered.
pub fn check<R: Threads + Sync>(threads: &R, rt: &HostRuntime) -> io::Result<()> {
    let together = speculate_all(threads, rt.alloc(), 2, 100);
    println!(rt; "together 2: {together}")?;
    let apart = speculate_apart(threads, rt.alloc(), 2, 100);
    println!(rt; "apart 2: {apart}")
}

/// How many CPUs, and how many speculations of each, the words ask for; None where they ask for nothing that is done here.
fn numbers_of(words: &[String]) -> Option<(u32, u32)> {
    let [cpus, number] = words else {
        return None;
    };
    let cpus = number_of(cpus.as_str(), MOST_CPUS)?;
    let number = number_of(number.as_str(), MOST_NUMBER)?;
    Some((cpus, number))
}

/// Prints what so many speculations took since then.
fn tell(rt: &HostRuntime, name: &str, number: u32, count: u64, start: &Instant) -> io::Result<()> {
    let nanos = start.elapsed(rt)?.as_nanos();
    let records = u128::from(number).wrapping_mul(u128::from(BLOCK_RECORDS));
    let tenths = nanos.wrapping_mul(10).checked_div(records).unwrap_or(0);
    println!(rt;
        "{name}: {count} records, {}.{} nanoseconds a record of each CPU",
        tenths / 10,
        tenths % 10
    )
}

/// Times so many CPUs with so many speculations each; false where the words ask for nothing that is done here.
pub fn run<R: Threads + Sync>(threads: &R, rt: &HostRuntime, words: &[String]) -> io::Result<bool> {
    let Some((cpus, number)) = numbers_of(words) else {
        return Ok(false);
    };
    let start = Instant::now(rt)?;
    let count = speculate_all(threads, rt.alloc(), cpus, number);
    tell(rt, "together", number, count, &start)?;
    Ok(true)
}

/// The same without a consumer beside them.
pub fn run_apart<R: Threads + Sync>(
    threads: &R,
    rt: &HostRuntime,
    words: &[String],
) -> io::Result<bool> {
    let Some((cpus, number)) = numbers_of(words) else {
        return Ok(false);
    };
    let start = Instant::now(rt)?;
    let count = speculate_apart(threads, rt.alloc(), cpus, number);
    tell(rt, "apart", number, count, &start)?;
    Ok(true)
}
