//! `examples kv [--ctf FOLDER]` is a key-value store. Three workers serve requests on one table, and stamp what they do by the system's
//! clock. The paths of failed and of slow requests are kept: a sink tells them while the workers run, and with `--ctf` they are written
//! as a trace.

mod live;
mod probes;
mod serving;

use crate::kv::live::Live;
use crate::kv::probes::StoreProbes;
use crate::kv::serving::Server;
use anyhow::{Result, bail};
use dspec::{Both, Config, Probes, SystemClock, closed_cpus, trace_workers};
use dspec_ctf_sink::{Identity, KeptRoom, Names, SystemFolder, Telling, TraceFolder, tell_untold};
use std::sync::atomic::AtomicU64;
use std::thread::Threads;

/// How many workers there are.
const WORKERS: u32 = 3;

/// A trace that is being written, and room on its disk for what its end tells, where the disk has it.
type Begun<'a> = (
    Telling<'a, TraceFolder<SystemFolder<'a>>>,
    Option<KeptRoom<'a>>,
);

/// A trace of this process, with the names of these probes, if the command line asks for one. What it loses is told on the error output.
fn trace_asked<'a>(
    rt: &'a HostRuntime,
    words: &[String],
    probes: &Probes<'_>,
) -> Result<Option<Begun<'a>>> {
    let mut words = words.iter().skip(1);
    let Some(flag) = words.next() else {
        return Ok(None);
    };
    let (Some(path), "--ctf") = (words.next(), flag.as_str()) else {
        bail!("usage: examples kv [--ctf FOLDER]");
    };
    let folder = SystemFolder::new(rt, path.as_str())?;
    let room = folder.keep_room(WORKERS).ok();
    let identity = Identity::of_system(rt)?;
    let (origin, names) = (identity.origin("kv"), Names::Given(probes.names()));
    let begun = TraceFolder::of(rt.alloc(), folder, &origin, &probes.enablings(), &names)?;
    Ok(Some((Telling::new(rt, "kv", begun), room)))
}

/// Serves by these words, the first of which is the program's name.
pub fn main<R: Threads + Sync>(rt: &HostRuntime, threads: &R, words: &[String]) -> Result<()> {
    let alloc = rt.alloc();
    let mut declared = Probes::new(alloc);
    let probes = StoreProbes::declare(&mut declared)?;
    let (first, room) = trace_asked(rt, words, &declared)?.unzip();
    let schema = declared.enablings();
    let second = Some(Live {
        rt,
        probes,
        missing: 0,
    });
    let (clock, table) = (SystemClock::start(rt)?, [0u8; 8].map(|_| AtomicU64::new(0)));
    let mut workers = Vec::new(alloc);
    for _ in 0..WORKERS {
        workers.push(Server::new(&table, &clock, probes))?;
    }
    let (config, mut sink) = (Config::of(WORKERS, 4, 65536, 512), Both { first, second });
    let closed = trace_workers(threads, alloc, &config, schema, &mut workers, &mut sink)?;
    let Both { mut first, second } = sink;
    let _ = room.flatten().map(KeptRoom::give_back);
    tell_untold(alloc, &schema, &closed, &mut first)?;
    if let Some(folder) = first {
        folder.sink.finish()?;
    }
    for (cpu, worker) in closed_cpus(&closed).zip(workers) {
        let (number, failed, offered) = (cpu.number, worker.failed, cpu.report.offered);
        println!(rt; "cpu {number}: {failed} requests failed, {offered} records offered")?;
    }
    if let Some(live) = second {
        println!(rt; "{} missing keys were told", live.missing)?;
    }
    Ok(())
}
