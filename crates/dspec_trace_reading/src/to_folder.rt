//! A session that is traced into a folder by one call, as its batches are taken.

ghost use Rattle.std.specs.Prelude.{◌≡◌, Err, IfErr, IfOk, IsOk, None, OnErr};
ghost use Rattle.dspec_deeds.specs.Ranges.{start_fault};
ghost use Rattle.dspec.specs.{Serving.ThenServed, Workers.one_for, Workers.with_cpus};
ghost use Rattle.dspec_trace_reading.specs.{Begun.IsBegunTrace, Begun.RefusesFolder, IntoFolders.AreOneTrace, IntoFolders.AreTracedInto, IntoFolders.IsOneTrace, IntoFolders.IsTracedInto};
ghost use Rattle.dspec_trace_reading.specs.{Ran.IsOfTrace};

use crate::fault::ToFolderFault;
use crate::folder_trace::{FolderPlace, FolderTrace};
use crate::numbers::origin_told;
use crate::running::{Begun, Ran, config_for, prepare, run_in, run_workers_in};
use dspec::{Config, Enablings, Probes, Sink, Work, Worker};
use dspec_ctf_reading::laws::{live_file_reads_back, metadata_reads_back};
use dspec_ctf_sink::{FolderFault, Names, SystemFolder, Telling, TraceFolder};
use std::thread::Threads;

// Makes the folder and writes the metadata.
fn make<'a>(
    rt: &'a HostRuntime,
    cpus: u32,
    probes: &Probes<'_>,
    place: FolderPlace<'a>,
) -> Result<Begun<'a, TraceFolder<SystemFolder<'a>>>, FolderFault>
    ensures { IfOk result (λ begun. IsBegunTrace probes.now.schema probes.now.names place.entry.path.now place.entry.name.now begun.at_end.uuid begun.sink.sink) }
{
    let (folder, identity, at_end) = prepare(rt, cpus, place.path)?;
    let origin = identity.origin(place.name);
    origin_told(&origin);
    let names = Names::Given(probes.names());
    let sink = TraceFolder::of(rt.alloc(), folder, &origin, &probes.enablings(), &names)?;
    let sink = Telling::new(rt, place.path, sink);
    Ok(Begun { sink, at_end })
}

// The same, where a session may be started.
fn begin<'a>(
    rt: &'a HostRuntime,
    config: &Config,
    probes: &Probes<'_>,
    place: FolderPlace<'a>,
) -> Result<Begun<'a, TraceFolder<SystemFolder<'a>>>, ToFolderFault>
    ensures begun { IfOk result (λ begun. IsBegunTrace probes.now.schema probes.now.names place.entry.path.now place.entry.name.now begun.at_end.uuid begun.sink.sink) }
    ensures refused { IfErr result (RefusesFolder config.now) }
{
    if let Err(fault) = config.check() {
        return Err(ToFolderFault::Start(fault));
    }
    match make(rt, config.cpus, probes, place) {
        Ok(begun) => Ok(begun),
        Err(fault) => Err(ToFolderFault::Folder(fault)),
    }
}

// The same of a session with so many CPUs.
fn begin_for<'a>(
    rt: &'a HostRuntime,
    config: &Config,
    cpus: usize,
    probes: &Probes<'_>,
    place: FolderPlace<'a>,
) -> Result<Begun<'a, TraceFolder<SystemFolder<'a>>>, ToFolderFault>
    ensures begun { IfOk result (λ begun. IsBegunTrace probes.now.schema probes.now.names place.entry.path.now place.entry.name.now begun.at_end.uuid begun.sink.sink) }
    ensures refused { IfErr result (RefusesFolder (with_cpus cpus config.now)) }
{
    match config_for(config, cpus) {
        Ok(config) => begin(rt, &config, probes, place),
        Err(fault) => Err(fault),
    }
}

// What came of a trace.
fn came<'a>(
    ran: Result<Ran<TraceFolder<SystemFolder<'a>>>, ToFolderFault>,
) -> Result<FolderTrace<'a>, ToFolderFault>
    ensures traced { IfOk result (λ t. IfOk ran.entry (λ r. IsOfTrace r t)) }
    ensures ran { IfOk result (λ _. IsOk ran.entry) }
    ensures refused { IfErr result (λ fault. ran.entry ≡ Err fault) }
{
    let Ran { closed, sink, uuid } = match ran {
        Ok(ran) => ran,
        Err(fault) => return Err(fault),
    };
    let (folder, lost) = sink.end();
    Ok(FolderTrace {
        closed,
        folder,
        uuid,
        lost,
    })
}

/// Traces a session into a new folder of the system, and beside it to a sink, which comes back: `None::<RecordSink>` where there is no other. The folder is
/// made, or is there and empty; room for the trace's end is kept on its disk where that has some. What can't be written is told on the error output while
/// the session runs, the first time of each CPU, counted in the trace, and answered (`lost`). At the end the trace tells what the reports count as lost
/// besides. Whatever the work did, what is read of the folder is the stream that the page promises of each CPU, without the batches that were lost. Where an
/// `Err` is answered no work ran, and the sink is as it was.
pub fn trace_to_folder<'a, R: Threads + Sync, W: Work<Enablings>, K: Sink<Enablings>>(
    rt: &'a HostRuntime,
    threads: &R,
    config: &Config,
    probes: &Probes<'_>,
    place: FolderPlace<'a>,
    work: &W,
    sink: K,
) -> (K, Result<FolderTrace<'a>, ToFolderFault>)
    ensures refused { IfErr result.1 (RefusesFolder config.now) }
    ensures unchanged { OnErr result.1 (result.0 ≡ sink) }
    ensures started { IfOk result.1 (λ _. start_fault config.now ≡ None) }
    ensures read { IfOk result.1 (λ t. IsTracedInto (K.gets probes.now.schema) (ThenServed (W.does probes.now.schema work.now)) probes.now place.entry config.now sink t result.0) }
    ensures one_list { IfOk result.1 (λ t. IsOneTrace (K.gets probes.now.schema) (ThenServed (W.does probes.now.schema work.now)) probes.now place.entry config.now sink t result.0) }
{
    metadata_reads_back();
    live_file_reads_back();
    let begun = begin(rt, config, probes, place);
    let schema = probes.enablings();
    let (sink, ran) = run_in(threads, rt.alloc(), config, schema, work, sink, begun);
    (sink, came(ran))
}

/// As `trace_to_folder`, with a worker for each CPU, which comes back as `trace_workers` says: there are as many CPUs as workers, and the configuration's own
/// number isn't read.
pub fn trace_workers_to_folder<'a, R: Threads + Sync, W: Worker<Enablings>, K: Sink<Enablings>>(
    rt: &'a HostRuntime,
    threads: &R,
    config: &Config,
    probes: &Probes<'_>,
    place: FolderPlace<'a>,
    workers: &mut Vec<W>,
    sink: K,
) -> (K, Result<FolderTrace<'a>, ToFolderFault>)
    ensures refused { IfErr result.1 (RefusesFolder (one_for workers.old.items config.now)) }
    ensures unchanged { OnErr result.1 ((result.0 ≡ sink) × (workers.new ≡ workers.old)) }
    ensures started { IfOk result.1 (λ _. start_fault (one_for workers.old.items config.now) ≡ None) }
    ensures read { IfOk result.1 (λ t. AreTracedInto (K.gets probes.now.schema) (W.does probes.now.schema) probes.now place.entry config.now workers.old.items workers.new.items sink t result.0) }
    ensures one_list { IfOk result.1 (λ t. AreOneTrace (K.gets probes.now.schema) (W.does probes.now.schema) probes.now place.entry config.now workers.old.items workers.new.items sink t result.0) }
{
    metadata_reads_back();
    live_file_reads_back();
    let begun = begin_for(rt, config, workers.len(), probes, place);
    let schema = probes.enablings();
    let alloc = rt.alloc();
    let (sink, ran) = run_workers_in(threads, alloc, config, schema, workers, sink, begun);
    (sink, came(ran))
}
