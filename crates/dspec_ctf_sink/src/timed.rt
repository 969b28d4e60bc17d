ghost use Rattle.std.specs.Prelude.{◌≡◌, ◌+◌, ◌<◌, ◌^◌, ℕ, [], All, IfOk, IfErr, OnOk, OnErr, Some, None, length, replicate, slice_index, string_bytes};
ghost use Rattle.dspec_ctf.specs.Streams.{Accepts};
ghost use Rattle.dspec_ctf_sink.specs.{Losses.HasSoManyRecords, Timed.AddsAll, Timed.AddsBatch, Timed.AddsRun, Timed.AddsToStream, Timed.GetsRuns, Timed.IsTimedBegun, Timed.IsBatchLoss};
ghost use Rattle.dspec_ctf_sink.specs.{Timed.IsTimedFault, Timed.LosesOfStream, Timed.StopsRun, Timed.StopsRuns, Timed.TellsMissed, Timed.TellsNone, Timed.files_with, Timed.row_name};
ghost use Rattle.dspec_ctf_sink.specs.{Writes.IsNotTaken, Writes.Takes, declared.fault.FolderFault.TheVariants.Memory, declared.fault.FolderFault.TheVariants.Packet};

use crate::fault::FolderFault;
use crate::folder::Folder;
use crate::losing::{Loss, Lossy, ended_by, miss, records_in, with_loss};
use dspec::{Batch, Enablings, Rec, Sink};
use dspec_ctf::rows::records_of;
use dspec_ctf::{Form, Names, Origin, PacketFault, Rows, Stream, metadata_from};
use std::alloc::{AllocError, Global};
use std::marker::Model;

/// The most CPUs of a session.
const MOST_CPUS: usize = 64;

/// A sink that writes a trace by time while a session runs. The file `cpu_N_K` has some of CPU N's records, with stamps that don't
/// fall: each record goes to the file that it carries on (`Rows`), and tools merge the files. Records of a batch that stand one after
/// another and go to one file are packets, and those are one write. Each packet has 1,024 bytes, so a write that a kill cuts off leaves whole packets.
/// What a CPU missed is told by its file `cpu_N_0`, as soon as the batch that tells it is taken. Where packets can't be written, the rest of their batch is
/// lost, and counted: with the next batch of that CPU it is told as missed. What the last batch lost is told by `last_loss`, and what was lost in all by
/// `finish`. It takes memory for the records of one batch, and the packets of one run, at a time.
#[derive(Drop)]
pub struct TimedFolder<F: Folder> {
    alloc: Global,
    folder: F,
    uuid: [u8; 16],
    missed: [u64; 64],
    told: [u64; 64],
    rows: Vec<Rows>,
    lost: Option<Loss>,
    last: Option<Loss>,
}

impl<F: Folder> Model for TimedFolder<F> {
    ghost use Rattle.dspec_ctf_sink.specs.Timed.{TimedTracing};

    ghost Value = { TimedTracing };

    ghost view = { λ i. record { uuid = i.uuid; missed = i.missed; told = i.told; lasts = i.rows.items; written = F.written i.folder; lost = i.lost; last = i.last } };
}

/// No files of any CPU.
fn no_rows(alloc: Global) -> Result<Vec<Rows>, FolderFault>
    ensures none { IfOk result (λ rows. rows.items ≡ replicate 64 []) }
    ensures fault { IfErr result (λ fault. fault ≡ Memory) }
{
    let mut rows = Vec::new(alloc);
    for count in 0..MOST_CPUS {
        rows.push(Rows::new())?;
    }
    Ok(rows)
}

/// The fault of a CPU's packet.
fn packet_fault(cpu: u32, fault: PacketFault) -> FolderFault
    ensures { result ≡ Packet cpu fault }
{
    FolderFault::Packet { cpu, fault }
}

/// What is lost of a CPU.
fn lost_of(cpu: u32, row: Option<usize>, fault: FolderFault, records: u64) -> Loss
    ensures { result ≡ record { cpu = cpu; row = row; fault = fault; records = records } }
{
    Loss {
        cpu,
        row,
        fault,
        records,
    }
}

/// What is lost of a batch of which nothing is written.
fn all_lost(schema: &Enablings, batch: &Batch, row: Option<usize>, fault: FolderFault) -> Loss
    ensures has { HasSoManyRecords schema.now batch.now result.records }
    ensures loss { result ≡ record { cpu = batch.now.cpu; row = row; fault = fault; records = result.records } }
{
    lost_of(batch.cpu, row, fault, records_in(schema, batch))
}

/// The name of a CPU's file with this number.
fn row_name(alloc: Global, cpu: u32, file: usize) -> Result<String, AllocError>
    ensures { IfOk result (λ name. string_bytes name ≡ row_name cpu file) }
{
    format!(in alloc; "cpu_{cpu}_{file}")
}

/// Adds bytes to a CPU's file with this number.
fn add_bytes<F: Folder>(
    alloc: Global,
    folder: &mut F,
    cpu: u32,
    file: usize,
    bytes: &[u8],
) -> Result<(), FolderFault>
    ensures taken { OnOk result (Takes (F.written folder.old) (row_name cpu file) bytes.now (F.written folder.new)) }
    ensures fault { IfErr result (IsNotTaken (F.written folder.old) (row_name cpu file) bytes.now (F.written folder.new)) }
{
    let name = row_name(alloc, cpu, file)?;
    if let Err(fault) = folder.add(alloc, name.as_str(), bytes) {
        return Err(fault);
    }
    Ok(())
}

/// Adds the packet of the run from a place on, and says up to where it goes; or what is lost, which is the rest of the records.
fn add_run<F: Folder>(
    alloc: Global,
    folder: &mut F,
    stream: &Stream<'_>,
    rows: &mut Rows,
    records: &[Rec],
    place: usize,
) -> Result<usize, Loss>
    requires accepted { All (Accepts stream.now.enablings.now) records.now }
    requires there { place < length records.now }
    ensures added { IfOk result
        (AddsRun stream.now.uuid stream.now.enablings.now stream.now.missed stream.now.cpu records.now place
        rows.old (F.written folder.old) rows.new (F.written folder.new)) }
    ensures stopped { IfErr result
        (StopsRun stream.now.uuid stream.now.enablings.now stream.now.missed stream.now.cpu records.now place
        rows.old (F.written folder.old) rows.new (F.written folder.new)) }
{
    let (cpu, rest) = (stream.cpu, (records.len() - place) as u64);
    let run = match rows.next_run(records, place) {
        Ok(Some(run)) => run,
        Ok(None) => return Ok(records.len()),
        Err(fault) => return Err(lost_of(cpu, None, packet_fault(cpu, fault), rest)),
    };
    let row = Some(run.file);
    let packet = match stream.run_packet(alloc, run.file, &records[place..run.end]) {
        Ok(packet) => packet,
        Err(fault) => return Err(lost_of(cpu, row, packet_fault(cpu, fault), rest)),
    };
    match add_bytes(alloc, folder, cpu, run.file, packet.as_slice()) {
        Ok(()) => Ok(run.end),
        Err(fault) => Err(lost_of(cpu, row, fault, rest)),
    }
}

/// Adds the packets of all runs of these records, or says what is lost.
fn add_runs<F: Folder>(
    alloc: Global,
    folder: &mut F,
    stream: &Stream<'_>,
    rows: &mut Rows,
    records: &[Rec],
) -> Result<(), Loss>
    requires accepted { All (Accepts stream.now.enablings.now) records.now }
    ensures added { OnOk result
        (AddsAll stream.now.uuid stream.now.enablings.now stream.now.missed stream.now.cpu records.now 0
        rows.old (F.written folder.old) rows.new (F.written folder.new)) }
    ensures stopped { IfErr result
        (StopsRuns stream.now.uuid stream.now.enablings.now stream.now.missed stream.now.cpu records.now 0
        rows.old (F.written folder.old) rows.new (F.written folder.new)) }
{
    let mut place = 0;
    while place < records.len() {
        let end = match add_run(alloc, folder, stream, rows, records, place) {
            Ok(end) => end,
            Err(loss) => return Err(loss),
        };
        place = end;
    }
    Ok(())
}

/// Adds what tells how many events the stream missed, where so many aren't told yet.
fn tell_missed<F: Folder>(
    alloc: Global,
    folder: &mut F,
    stream: &Stream<'_>,
    rows: &Rows,
    told: u64,
) -> Result<(), FolderFault>
    ensures tells { OnOk result
        (TellsMissed stream.now.uuid told stream.now.missed stream.now.cpu rows.now (F.written folder.old) (F.written folder.new)) }
    ensures fault { IfErr result
        (TellsNone stream.now.uuid told stream.now.missed stream.now.cpu rows.now (F.written folder.old) (F.written folder.new)) }
{
    if stream.missed == told {
        return Ok(());
    }
    let packets = stream.missed_packets(alloc, rows, told)?;
    add_bytes(alloc, folder, stream.cpu, 0, packets.as_slice())
}

/// Adds what tells what was missed, and then the packets of all runs of a batch, and says how many were missed by then; or what of the batch is
/// lost.
fn add_batch<F: Folder>(
    alloc: Global,
    folder: &mut F,
    stream: &Stream<'_>,
    rows: &mut Rows,
    told: &mut u64,
    batch: &Batch,
) -> Result<u64, Loss>
    requires { stream.now.cpu ≡ batch.now.cpu }
    ensures counted { IfOk result (λ total. total ≡ stream.now.missed + batch.now.drops) }
    ensures added { OnOk result
        (AddsToStream stream.now batch.now (files_with told.old rows.old (F.written folder.old)) (files_with told.new rows.new (F.written folder.new))) }
    ensures lost { IfErr result
        (LosesOfStream stream.now batch.now (files_with told.old rows.old (F.written folder.old)) (files_with told.new rows.new (F.written folder.new))) }
{
    let (schema, cpu) = (stream.enablings, batch.cpu);
    let Some(missed) = stream.missed.checked_add(batch.drops) else {
        return Err(all_lost(schema, batch, None, packet_fault(cpu, PacketFault::Missed)));
    };
    let records = match records_of(alloc, schema, batch.buffer.bytes()) {
        Ok(records) => records,
        Err(fault) => return Err(all_lost(schema, batch, None, packet_fault(cpu, fault))),
    };
    let stream = Stream { missed, ..*stream };
    if let Err(fault) = tell_missed(alloc, folder, &stream, rows, *told) {
        return Err(all_lost(schema, batch, Some(0), fault));
    }
    *told = missed;
    match add_runs(alloc, folder, &stream, rows, &records) {
        Ok(()) => Ok(missed),
        Err(loss) => Err(loss),
    }
}

impl<F: Folder> TimedFolder<F> {
    /// Writes the metadata, and no packet yet, of a trace of this origin whose records have stamps of a clock of so many ticks a second.
    pub fn of(
        alloc: Global,
        folder: F,
        origin: &Origin<'_>,
        hertz: u64,
        enablings: &Enablings,
        names: &Names<'_>,
    ) -> Result<TimedFolder<F>, FolderFault>
        ensures begun { IfOk result (IsTimedBegun origin.now hertz enablings.now names.now (F.written folder)) }
        ensures fault { IfErr result (IsTimedFault F.written origin.now hertz enablings.now names.now folder) }
    {
        let text = match metadata_from(alloc, origin, Form::ByTime(hertz), enablings, names) {
            Ok(text) => text,
            Err(fault) => return Err(FolderFault::Metadata(fault)),
        };
        let rows = no_rows(alloc)?;
        let mut folder = folder;
        if let Err(fault) = folder.add(alloc, "metadata", text.as_str().as_bytes()) {
            return Err(fault);
        }
        Ok(TimedFolder {
            alloc,
            folder,
            uuid: origin.uuid,
            missed: [0; MOST_CPUS],
            told: [0; MOST_CPUS],
            rows,
            lost: None,
            last: None,
        })
    }

    // Adds what a batch missed, and its runs; or says what of it is lost.
    fn add(&mut self, schema: &Enablings, batch: &Batch) -> Result<(), Loss>
        ensures uuid { self.new.uuid ≡ self.old.uuid }
        ensures added { OnOk result (AddsBatch schema.now self.old batch.now self.new) }
        ensures why { IfErr result (IsBatchLoss schema.now self.old batch.now self.new) }
        ensures uncounted { OnErr result ((self.new.missed ≡ self.old.missed) × (self.new.lost ≡ self.old.lost)) }
    {
        let cpu = batch.cpu;
        let place = cpu as usize;
        let Some(missed) = self.missed.get(place) else {
            return Err(all_lost(schema, batch, None, FolderFault::Cpu(cpu)));
        };
        if place >= self.rows.len() {
            return Err(all_lost(schema, batch, None, FolderFault::Cpu(cpu)));
        }
        let stream = Stream {
            uuid: self.uuid,
            enablings: schema,
            cpu,
            missed: *missed,
        };
        let rows = &mut self.rows[place];
        let told = &mut self.told[place];
        let total = match add_batch(self.alloc, &mut self.folder, &stream, rows, told, batch) {
            Ok(total) => total,
            Err(loss) => return Err(loss),
        };
        self.missed[place] = total;
        self.last = None;
        Ok(())
    }

    /// What was lost in all, if anything was: in which file and why first, and how many records weren't written. The files have whole
    /// packets, unless a fault was `Cut`.
    pub fn finish(self) -> Result<(), Loss>
        ensures loss { IfErr result (λ loss. self.lost ≡ Some loss) }
        ensures whole { OnOk result (self.lost ≡ None) }
    {
        ended_by(self.lost)
    }

    /// Ends the trace by time: its place, and what `finish` tells.
    pub fn end(self) -> (F, Option<Loss>)
        ensures lost { result.1 ≡ self.lost }
        ensures place { F.written result.0 ≡ self.written }
        ensures counts { (c : ℕ) → slice_index self.missed c < 2 ^ 64 }
    {
        let TimedFolder { folder, lost, .. } = self;
        (folder, lost)
    }
}

impl<F: Folder> Lossy for TimedFolder<F> {
    /// Of the last batch: its rest, after the first packet that wasn't taken.
    fn last_loss(&self) -> Option<Loss>
        ensures last { result ≡ self.now.last }
    {
        self.last
    }
}

impl<F: Folder + Send> Sink<Enablings> for TimedFolder<F> {
    ghost gets = { GetsRuns };

    fn batch(&mut self, schema: &Enablings, batch: &Batch) {
        let Err(loss) = self.add(schema, batch) else {
            return;
        };
        miss(&mut self.missed, batch.cpu, batch.drops, loss.records);
        self.lost = Some(with_loss(self.lost, loss));
        self.last = Some(loss);
    }
}
