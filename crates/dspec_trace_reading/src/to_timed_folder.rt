//! A session that is traced into a folder by one call, by time.

ghost use Rattle.std.specs.Prelude.{◌≡◌, Err, IfErr, IfOk, IsOk, None, OnErr};
ghost use Rattle.dspec_deeds.specs.Ranges.{start_fault};
ghost use Rattle.dspec.specs.{Serving.ThenServed, Workers.one_for, Workers.with_cpus};
ghost use Rattle.dspec_trace_reading.specs.{Begun.IsBegunByTime, Begun.RefusesFolder, IntoFolders.AreTimedInto, IntoFolders.AreOneTimed, IntoFolders.IsTimedInto, IntoFolders.IsOneTimed};
ghost use Rattle.dspec_trace_reading.specs.{Ran.IsOfTimedTrace};

use crate::fault::ToFolderFault;
use crate::folder_trace::{FolderPlace, FolderTrace, StampClock};
use crate::numbers::{number_told, origin_told};
use crate::running::{Begun, Ran, config_for, prepare, run_in, run_workers_in};
use dspec::{Config, Enablings, Probes, Sink, Work, Worker};
use dspec_ctf::laws::{files_have_all, runs_have_all};
use dspec_ctf_reading::laws::{files_join, live_file_reads_back, metadata_reads_back};
use dspec_ctf_sink::{FolderFault, Names, Origin, SystemFolder, Telling, TimedFolder};
use std::thread::Threads;

// Makes the folder and writes the metadata, with a clock.
fn make<'a>(
    rt: &'a HostRuntime,
    cpus: u32,
    probes: &Probes<'_>,
    place: FolderPlace<'a>,
    clock: StampClock,
) -> Result<Begun<'a, TimedFolder<SystemFolder<'a>>>, FolderFault>
    ensures { IfOk result (λ begun. IsBegunByTime probes.now.schema probes.now.names place.entry.path.now place.entry.name.now clock.hertz clock.start begun.at_end.uuid begun.sink.sink) }
{
    let (folder, identity, at_end) = prepare(rt, cpus, place.path)?;
    let start = clock.start;
    let origin = Origin {
        start,
        ..identity.origin(place.name)
    };
    origin_told(&origin);
    number_told(clock.hertz);
    let names = Names::Given(probes.names());
    let alloc = rt.alloc();
    let schema = probes.enablings();
    let sink = TimedFolder::of(alloc, folder, &origin, clock.hertz, &schema, &names)?;
    let sink = Telling::new(rt, place.path, sink);
    Ok(Begun { sink, at_end })
}

// The same of a session with so many CPUs, where it may be started.
fn begin_for<'a>(
    rt: &'a HostRuntime,
    clock: StampClock,
    config: &Config,
    cpus: usize,
    probes: &Probes<'_>,
    place: FolderPlace<'a>,
) -> Result<Begun<'a, TimedFolder<SystemFolder<'a>>>, ToFolderFault>
    ensures begun { IfOk result (λ begun. IsBegunByTime probes.now.schema probes.now.names place.entry.path.now place.entry.name.now clock.hertz clock.start begun.at_end.uuid begun.sink.sink) }
    ensures refused { IfErr result (RefusesFolder (with_cpus cpus config.now)) }
{
    match config_for(config, cpus) {
        Ok(config) => begin(rt, &config, probes, place, clock),
        Err(fault) => Err(fault),
    }
}

// What came of a trace.
fn came<'a>(
    ran: Result<Ran<TimedFolder<SystemFolder<'a>>>, ToFolderFault>,
) -> Result<FolderTrace<'a>, ToFolderFault>
    ensures refused { IfErr result (λ fault. ran.entry ≡ Err fault) }
    ensures ran { IfOk result (λ _. IsOk ran.entry) }
    ensures traced { IfOk result (λ t. IfOk ran.entry (λ r. IsOfTimedTrace r t)) }
{
    let ran = match ran {
        Err(fault) => return Err(fault),
        Ok(ran) => ran,
    };
    let Ran { closed, sink, uuid } = ran;
    let (folder, lost) = sink.end();
    Ok(FolderTrace {
        uuid,
        lost,
        folder,
        closed,
    })
}

// The same of a configuration, where a session may be started.
fn begin<'a>(
    rt: &'a HostRuntime,
    config: &Config,
    probes: &Probes<'_>,
    place: FolderPlace<'a>,
    clock: StampClock,
) -> Result<Begun<'a, TimedFolder<SystemFolder<'a>>>, ToFolderFault>
    ensures begun { IfOk result (λ begun. IsBegunByTime probes.now.schema probes.now.names place.entry.path.now place.entry.name.now clock.hertz clock.start begun.at_end.uuid begun.sink.sink) }
    ensures refused { IfErr result (RefusesFolder config.now) }
{
    if let Err(fault) = config.check() {
        return Err(ToFolderFault::Start(fault));
    }
    match make(rt, config.cpus, probes, place, clock) {
        Ok(begun) => Ok(begun),
        Err(fault) => Err(ToFolderFault::Folder(fault)),
    }
}

/// As `trace_to_folder`, by time: several files for each CPU, whose records have stamps that don't fall, so that tools merge them. The session has to
/// have stamps, and this is their clock. What is read of each CPU's files is the stream that the page promises of it, each record in one file,
/// without the records that were lost: of each batch those from some record on.
pub fn trace_to_timed_folder<'a, R: Threads + Sync, W: Work<Enablings>, K: Sink<Enablings>>(
    rt: &'a HostRuntime,
    threads: &R,
    config: &Config,
    probes: &Probes<'_>,
    place: FolderPlace<'a>,
    clock: StampClock,
    work: &W,
    sink: K,
) -> (K, Result<FolderTrace<'a>, ToFolderFault>)
    ensures started { IfOk result.1 (λ _. start_fault config.now ≡ None) }
    ensures refused { IfErr result.1 (RefusesFolder config.now) }
    ensures unchanged { OnErr result.1 (result.0 ≡ sink) }
    ensures read { IfOk result.1 (λ t. IsTimedInto (K.gets probes.now.schema) (ThenServed (W.does probes.now.schema work.now)) probes.now place.entry clock config.now sink t result.0) }
    ensures one_list { IfOk result.1 (λ t. IsOneTimed (K.gets probes.now.schema) (ThenServed (W.does probes.now.schema work.now)) probes.now place.entry clock config.now sink t result.0) }
{
    metadata_reads_back();
    live_file_reads_back();
    let begun = begin(rt, config, probes, place, clock);
    files_join();
    files_have_all();
    runs_have_all();
    let schema = probes.enablings();
    let (sink, ran) = run_in(threads, rt.alloc(), config, schema, work, sink, begun);
    (sink, came(ran))
}

/// As `trace_workers_to_folder`, by time, as `trace_to_timed_folder` says.
pub fn trace_workers_to_timed_folder<
    'a,
    W: Worker<Enablings>,
    R: Threads + Sync,
    K: Sink<Enablings>,
>(
    rt: &'a HostRuntime,
    threads: &R,
    config: &Config,
    probes: &Probes<'_>,
    place: FolderPlace<'a>,
    clock: StampClock,
    workers: &mut Vec<W>,
    sink: K,
) -> (K, Result<FolderTrace<'a>, ToFolderFault>)
    ensures started { IfOk result.1 (λ _. start_fault (one_for workers.old.items config.now) ≡ None) }
    ensures refused { IfErr result.1 (RefusesFolder (one_for workers.old.items config.now)) }
    ensures unchanged { OnErr result.1 ((result.0 ≡ sink) × (workers.new ≡ workers.old)) }
    ensures read { IfOk result.1 (λ t. AreTimedInto (K.gets probes.now.schema) (W.does probes.now.schema) probes.now place.entry clock config.now workers.old.items workers.new.items sink t result.0) }
    ensures one_list { IfOk result.1 (λ t. AreOneTimed (K.gets probes.now.schema) (W.does probes.now.schema) probes.now place.entry clock config.now workers.old.items workers.new.items sink t result.0) }
{
    files_join();
    files_have_all();
    runs_have_all();
    let begun = begin_for(rt, clock, config, workers.len(), probes, place);
    metadata_reads_back();
    live_file_reads_back();
    let schema = probes.enablings();
    let alloc = rt.alloc();
    let (sink, ran) = run_workers_in(threads, alloc, config, schema, workers, sink, begun);
    (sink, came(ran))
}
