//! Sessions that run into a folder which is begun, and to a sink beside it.

ghost use Rattle.std.specs.Prelude.{◌≡◌, ◌∷◌, [], IfErr, IfOk, List, None, OnErr, Option, Some};
ghost use Rattle.dspec_deeds.specs.Ranges.{start_fault};
ghost use Rattle.dspec.specs.{Serving.ThenServed, Workers.one_for, Workers.with_cpus};
ghost use Rattle.dspec_ctf_sink.specs.{Ending.TellsUntold, Places.written_in, Writes.made_at};
ghost use Rattle.dspec_trace_reading.specs.{Begun.RefusesFolder, Ran.RanBegun, Ran.RanWorkers, declared.fault.ToFolderFault.TheVariants.Start};

use crate::fault::ToFolderFault;
use dspec::{
    Both, Closed, Config, Enablings, Sink, StartFault, Work, Worker, trace, trace_workers,
};
use dspec_ctf_sink::{FolderFault, Identity, KeptRoom, Lossy, SystemFolder, Telling, Untold};
use std::alloc::Global;
use std::thread::Threads;

/// What the end of a trace needs beside its sinks.
#[derive(Drop)]
pub(crate) struct AtEnd<'a> {
    pub(crate) uuid: [u8; 16],
    pub(crate) room: Option<KeptRoom<'a>>,
    pub(crate) untold: Untold,
}

/// A trace that is begun.
#[derive(Drop)]
pub(crate) struct Begun<'a, T: Drop> {
    pub(crate) sink: Telling<'a, T>,
    pub(crate) at_end: AtEnd<'a>,
}

/// Makes the folder, and what the end of a trace of so many CPUs needs: room for it is kept where the disk has it.
pub(crate) fn prepare<'a>(
    rt: &'a HostRuntime,
    cpus: u32,
    path: &str,
) -> Result<(SystemFolder<'a>, Identity, AtEnd<'a>), FolderFault>
    ensures made { IfOk result (λ made. written_in made.0 ≡ Some (made_at path.now ∷ [])) }
    ensures uuid { IfOk result (λ made. made.2.uuid ≡ made.1.uuid) }
{
    let untold = Untold::new(rt.alloc())?;
    let folder = SystemFolder::new(rt, path)?;
    let room = folder.keep_room(cpus).ok();
    let identity = Identity::of_system(rt)?;
    let uuid = identity.origin("").uuid;
    let at_end = AtEnd { uuid, room, untold };
    Ok((folder, identity, at_end))
}

/// A trace whose session is closed, and whose sink was told its end.
#[derive(Drop)]
pub(crate) struct Ran<T: Drop> {
    pub(crate) closed: Closed,
    pub(crate) sink: T,
    pub(crate) uuid: [u8; 16],
}

// After the close: the kept room goes back, and what the reports count besides is told.
fn end_in<T: Sink<Enablings> + Lossy>(
    schema: &Enablings,
    closed: Closed,
    sink: Telling<'_, T>,
    at_end: AtEnd<'_>,
) -> Ran<T>
    ensures closed { result.closed ≡ closed }
    ensures uuid { result.uuid ≡ at_end.entry.uuid }
    ensures tells { TellsUntold (T.gets schema.now) closed sink.entry.sink result.sink }
{
    let AtEnd { uuid, room, untold } = at_end;
    let _ = room.map(KeptRoom::give_back);
    let mut sink = sink;
    untold.tell(schema, &closed, &mut sink);
    Ran {
        closed,
        sink: sink.sink,
        uuid,
    }
}

// Where no session started the kept room goes back.
fn give_up(at_end: AtEnd<'_>, fault: StartFault) -> ToFolderFault
    ensures { result ≡ Start fault }
{
    let _ = at_end.room.map(KeptRoom::give_back);
    ToFolderFault::Start(fault)
}

/// The configuration of a session with so many CPUs.
pub(crate) fn config_for(config: &Config, cpus: usize) -> Result<Config, ToFolderFault>
    ensures is { IfOk result (λ k. k ≡ with_cpus cpus config.now) }
    ensures refused { IfErr result (RefusesFolder (with_cpus cpus config.now)) }
{
    let Ok(cpus) = u32::try_from(cpus) else {
        return Err(ToFolderFault::Start(StartFault::Cpus));
    };
    Ok(Config { cpus, ..*config })
}

/// A session whose CPUs do one work, where a folder is begun.
pub(crate) fn run_in<
    'a,
    R: Threads + Sync,
    W: Work<Enablings>,
    K: Sink<Enablings>,
    T: Sink<Enablings> + Lossy,
>(
    threads: &R,
    alloc: Global,
    config: &Config,
    schema: Enablings,
    work: &W,
    sink: K,
    begun: Result<Begun<'a, T>, ToFolderFault>,
) -> (K, Result<Ran<T>, ToFolderFault>)
    requires refused { IfErr begun (RefusesFolder config.now) }
    ensures refused { IfErr result.1 (RefusesFolder config.now) }
    ensures unchanged { OnErr result.1 (result.0 ≡ sink) }
    ensures started { IfOk result.1 (λ _. start_fault config.now ≡ None) }
    ensures ran { IfOk result.1 (λ t. RanBegun (T.gets schema) (K.gets schema) (ThenServed (W.does schema work.now)) schema config.now sink begun.entry t result.0) }
{
    let Begun {
        sink: second,
        at_end,
    } = match begun {
        Ok(begun) => begun,
        Err(fault) => return (sink, Err(fault)),
    };
    let mut both = Both {
        first: sink,
        second,
    };
    let ended = trace(threads, alloc, config, schema, work, &mut both);
    let Both { first, second } = both;
    match ended {
        Ok(closed) => (first, Ok(end_in(&schema, closed, second, at_end))),
        Err(fault) => (first, Err(give_up(at_end, fault))),
    }
}

/// A session with a worker for each CPU, where a folder is begun.
pub(crate) fn run_workers_in<
    'a,
    R: Threads + Sync,
    W: Worker<Enablings>,
    K: Sink<Enablings>,
    T: Sink<Enablings> + Lossy,
>(
    threads: &R,
    alloc: Global,
    config: &Config,
    schema: Enablings,
    workers: &mut Vec<W>,
    sink: K,
    begun: Result<Begun<'a, T>, ToFolderFault>,
) -> (K, Result<Ran<T>, ToFolderFault>)
    requires refused { IfErr begun (RefusesFolder (one_for workers.old.items config.now)) }
    ensures refused { IfErr result.1 (RefusesFolder (one_for workers.old.items config.now)) }
    ensures unchanged { OnErr result.1 ((result.0 ≡ sink) × (workers.new ≡ workers.old)) }
    ensures started { IfOk result.1 (λ _. start_fault (one_for workers.old.items config.now) ≡ None) }
    ensures ran { IfOk result.1 (λ r. RanWorkers (T.gets schema) (K.gets schema) (W.does schema) schema config.now workers.old.items workers.new.items sink begun.entry r result.0) }
{
    let begun = match begun {
        Ok(begun) => begun,
        Err(fault) => return (sink, Err(fault)),
    };
    let mut both = Both {
        first: sink,
        second: begun.sink,
    };
    let ended = trace_workers(threads, alloc, config, schema, workers, &mut both);
    let at_end = begun.at_end;
    match ended {
        Ok(closed) => {
            let traced = end_in(&schema, closed, both.second, at_end);
            (both.first, Ok(traced))
        }
        Err(fault) => {
            let fault = give_up(at_end, fault);
            (both.first, Err(fault))
        }
    }
}
