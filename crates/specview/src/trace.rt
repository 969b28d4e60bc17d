//! The trace of a play: its metadata, and the bytes of each CPU's file.

ghost use Rattle.std.specs.Prelude.{◌≡◌, ◌≢◌, ℕ, ◌+◌, ◌^◌, ◌<◌, ◌≤◌, map, reverse, length, All, IfOk, IfErr};
ghost use Rattle.dspec_ctf.specs.{ByTime.ArePacketsOfRecords, Streams.Accepts};
ghost use Rattle.dspec_deeds.specs.Own.{stream as stream_of};
ghost use Rattle.dspec_schedule.specs.{Reading.HasOneHeader, Schedules.plan_of};
ghost use Rattle.dspec_replay.specs.PlayedTexts.{IsPlayOf};
ghost use Rattle.specview.specs.Batches.{TellsCounts, last_share, shares, shown_share};
ghost use Rattle.specview.specs.Traces.{AllTellSmall, AreFiles, HaveShortEvents, AreStreams, IsFile, IsFileFault, IsFormFault, IsOfNumbered, IsPlayTrace, IsPlayTraceFault, TellsSmall, IsTraceFault};
ghost use Rattle.specview.specs.Traces.{IsTraceOf, event_rows, file_as_taken, missed_by, packets_following, refused_in, written_shares};

use crate::batches::{Share, shares_of, with_last};
use crate::clock::see_clock;
use crate::events::events_of;
use crate::fault::ViewFault;
use dspec_core::{Close, Deed, Outcome, Report};
use dspec_ctf::{
    Form, MetadataFault, Names, PacketFault, Stream, TimeFault, first_refused, metadata,
};
use dspec_record::{Enablings, Rec};
use dspec_replay::play_text;
use dspec_schedule::Schedule;
use std::alloc::{AllocError, Global};
use uuid::Uuid;

/// A trace, before it is written.
#[derive(Debug, Drop)]
pub struct Trace {
    /// The text of the file `metadata`.
    pub metadata: String,
    /// The bytes of each CPU's file; empty where it has none.
    pub files: Vec<Vec<u8>>,
}

/// Memory is wanting: there is no other reason why records whose numbers are small have no packet.
fn no_memory(fault: PacketFault) -> AllocError
    requires { fault ≡ PacketFault.Memory }
{
    match fault {
        PacketFault::Memory => AllocError,
        _ => unreachable!(),
    }
}

/// The packets of these batches, one each.
fn put_shares(
    alloc: Global,
    mut stream: Stream<'_>,
    shares: &[Share<'_>],
) -> Result<Vec<u8>, AllocError>
    requires known { All (λ s. All (Accepts stream.enablings.now) s.records) (map shown_share shares.now) }
    requires counted { stream.missed + refused_in (map shown_share shares.now) < 2 ^ 64 }
    requires short { HaveShortEvents stream.enablings.now (map shown_share shares.now) }
    ensures { IfOk result (λ bytes. bytes.items
        ≡ packets_following stream.entry.uuid stream.entry.enablings.now stream.entry.cpu stream.entry.missed (map shown_share shares.now)) }
{
    let mut bytes = Vec::new(alloc);
    for share in shares {
        let packet = match stream.packet_of(alloc, share.drops, share.records) {
            Ok(packet) => packet,
            Err(fault) => return Err(no_memory(fault)),
        };
        bytes.extend_from_slice(packet.as_slice())?;
    }
    Ok(bytes)
}

/// The batches that a CPU's file has packets of: of a CPU without records one, where reservations were refused.
fn shares_to_write<'a>(
    alloc: Global,
    cpu: u32,
    deeds: &[Deed],
    records: &'a [Rec],
    drops: u64,
) -> Result<Vec<Share<'a>>, AllocError>
    requires accepted { records.now ≡ stream_of cpu (reverse deeds.now) }
    requires told { TellsCounts cpu (reverse deeds.now) }
    ensures { IfOk result (λ found. map shown_share found.items ≡ written_shares cpu (reverse deeds.now) drops) }
{
    if records.is_empty() {
        return with_last(Vec::new(alloc), Share { drops, records });
    }
    shares_of(alloc, cpu, deeds, records)
}

/// A CPU's file as taken, of all its records.
fn file_as_taken(
    alloc: Global,
    stream: Stream<'_>,
    deeds: &[Deed],
    records: &[Rec],
    drops: u64,
) -> Result<Vec<u8>, AllocError>
    requires fresh { stream.missed ≡ 0 }
    requires accepted { records.now ≡ stream_of stream.cpu (reverse deeds.now) }
    requires told { TellsCounts stream.cpu (reverse deeds.now) }
    requires known { All (Accepts stream.enablings.now) records.now }
    requires refused { refused_in (written_shares stream.cpu (reverse deeds.now) drops) ≤ drops }
    requires short { HaveShortEvents stream.enablings.now (written_shares stream.cpu (reverse deeds.now) drops) }
    ensures { IfOk result (λ bytes. bytes.items
        ≡ file_as_taken stream.entry.uuid stream.entry.enablings.now stream.entry.cpu (reverse deeds.now) drops) }
{
    let shares = shares_to_write(alloc, stream.cpu, deeds, records, drops)?;
    put_shares(alloc, stream, shares.as_slice())
}

/// A CPU's file by time, of all its records.
fn file_by_time(
    alloc: Global,
    mut stream: Stream<'_>,
    form: Form,
    records: &[Rec],
    report: &Report,
) -> Result<Vec<u8>, ViewFault>
    requires known { All (Accepts stream.enablings.now) records.now }
    requires by_time { form ≢ Form.AsTaken }
    requires missed { missed_by report.now ≤ report.now.offered }
    ensures file { IfOk result (λ bytes. ArePacketsOfRecords stream.entry.enablings.now stream.entry.uuid
        (missed_by report.now) stream.entry.cpu records.now bytes.items) }
    ensures fault { IfErr result (IsFileFault form stream.entry.enablings.now records.now) }
{
    stream.missed = report.dropped + report.specdropped + report.lost;
    match stream.packets_by_time_of(alloc, records) {
        Ok(bytes) => Ok(bytes),
        Err(TimeFault::NoStamp) => Err(ViewFault::NoStamp),
        Err(TimeFault::Text { .. }) => unreachable!(),
        Err(TimeFault::Memory) => Err(ViewFault::Memory),
    }
}

/// A CPU's file, of all its records.
fn file_of(
    alloc: Global,
    stream: Stream<'_>,
    form: Form,
    deeds: &[Deed],
    records: &[Rec],
    report: &Report,
) -> Result<Vec<u8>, ViewFault>
    requires fresh { stream.missed ≡ 0 }
    requires accepted { records.now ≡ stream_of stream.cpu (reverse deeds.now) }
    requires told { TellsCounts stream.cpu (reverse deeds.now) }
    requires small { All (Accepts stream.enablings.now) records.now → TellsSmall stream.enablings.now stream.cpu (reverse deeds.now) report.now }
    ensures file { IfOk result (λ bytes. IsFile stream.entry.uuid stream.entry.enablings.now stream.entry.cpu form (reverse deeds.now) report.now bytes.items) }
    ensures fault { IfErr result (IsFileFault form stream.entry.enablings.now records.now) }
{
    if let Some(place) = first_refused(stream.enablings, records) {
        return Err(ViewFault::NoEvent(records[place].epid()));
    }
    match form {
        Form::AsTaken => Ok(file_as_taken(alloc, stream, deeds, records, report.drops)?),
        Form::ByTime(_) => file_by_time(alloc, stream, form, records, report),
    }
}

/// The files of all CPUs, of so many.
fn files_of(
    alloc: Global,
    uuid: &[u8; 16],
    form: Form,
    events: &Enablings,
    cpus: u32,
    close: &Close,
) -> Result<Vec<Vec<u8>>, ViewFault>
    requires accepted { AreStreams cpus close.now.deeds close.now.accepted }
    requires reports { length close.now.reports ≡ cpus }
    requires told { (c : ℕ) → TellsCounts c (reverse close.now.deeds) }
    requires small { AllTellSmall events.now (reverse close.now.deeds) close.now.reports }
    ensures count { IfOk result (λ files. length files.items ≡ cpus) }
    ensures files { IfOk result (λ files. AreFiles uuid.now events.now form (reverse close.now.deeds) close.now.reports (map (λ f. f.items) files.items) cpus) }
    ensures fault { IfErr result (IsPlayTraceFault form events.now close.now.accepted) }
{
    let (deeds, reports) = (close.deeds.as_slice(), close.reports.as_slice());
    let accepted = close.accepted.as_slice();
    let mut files = Vec::new(alloc);
    for cpu in 0..cpus {
        let stream = Stream {
            uuid: *uuid,
            enablings: events,
            cpu,
            missed: 0,
        };
        let records = accepted[cpu as usize].as_slice();
        let report = &reports[cpu as usize];
        let file = match file_of(alloc, stream, form, deeds, records, report) {
            Ok(file) => file,
            Err(fault) => return Err(fault),
        };
        files.push(file)?;
    }
    Ok(files)
}

/// What is told of a fault of the metadata. None is of names, since they are numbered, nor of a process, since none is told.
fn form_fault(fault: MetadataFault) -> ViewFault
    requires { IsOfNumbered fault }
    ensures { IsFormFault fault result }
{
    match fault {
        MetadataFault::NoStamp => ViewFault::NoStamp,
        MetadataFault::NoFrequency => ViewFault::NoFrequency,
        MetadataFault::Memory => ViewFault::Memory,
        MetadataFault::Name(_) | MetadataFault::HostName | MetadataFault::ProcessName => {
            unreachable!()
        }
    }
}

/// The trace of a play, with this uuid.
fn trace_of_play(
    alloc: Global,
    uuid: &[u8; 16],
    form: Form,
    schedule: &Schedule,
    outcome: &Outcome,
) -> Result<Trace, ViewFault>
    requires play { IsPlayOf (plan_of schedule.now) outcome.now }
    requires one_header { HasOneHeader (plan_of schedule.now) }
    ensures trace { IfOk result (IsPlayTrace uuid.now form (plan_of schedule.now) outcome.now) }
    ensures fault { IfErr result (IsPlayTraceFault form (event_rows (plan_of schedule.now) outcome.now.close.accepted) outcome.now.close.accepted) }
{
    let events = events_of(schedule, outcome.close.accepted.as_slice());
    let metadata = match metadata(alloc, uuid, form, &events, &Names::Numbered) {
        Ok(text) => text,
        Err(fault) => return Err(form_fault(fault)),
    };
    see_clock(form, outcome.close.accepted.as_slice())?;
    let files = files_of(
        alloc,
        uuid,
        form,
        &events,
        schedule.config.cpus,
        &outcome.close,
    )?;
    Ok(Trace { metadata, files })
}

/// Plays the schedule of a text, and gives the trace of its play.
pub fn trace_of(alloc: Global, text: &[u8], form: Form) -> Result<Trace, ViewFault>
    ensures trace { IfOk result (IsTraceOf form text.now) }
    ensures fault { IfErr result (IsTraceFault form text.now) }
{
    let played = play_text(alloc, text)?;
    let uuid = Uuid::new_v5(&Uuid::NAMESPACE_OID, text);
    trace_of_play(
        alloc,
        uuid.as_bytes(),
        form,
        &played.schedule,
        &played.outcome,
    )
}
