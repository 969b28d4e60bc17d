ghost use Rattle.std.specs.Prelude.{◌≡◌, ◌<◌, ◌+◌, ◌^◌, ◌↔◌, ℕ, IsTrue, IfOk, IfErr, OnOk, OnErr, Some, None};
ghost use Rattle.dspec_ctf_sink.specs.{Accounts.missed_on, Writing.AddsPacket, Writing.CountsLost, Writing.GetsPacket, Writing.IsBatchFault, Writing.IsBeginFault, Writing.IsBegun, Writing.IsNothing};

use crate::fault::FolderFault;
use crate::folder::Folder;
use crate::losing::{Loss, Lossy, ended_by, miss, records_in, with_loss};
use crate::next::next_packets;
use dspec::{Batch, Enablings, Sink};
use dspec_ctf::{Form, Names, Origin, Stream, metadata_from};
use std::alloc::Global;
use std::marker::Model;

/// The most CPUs of a session.
const MOST_CPUS: usize = 64;

/// A sink that writes a trace as taken: each batch as packets after those before it in the file of its CPU, by one write. Each packet has 1,024 bytes, so
/// a write that a kill cuts off leaves whole packets. A batch without records and drops adds nothing, unless its CPU missed something that no packet
/// tells yet. Tools tell by how much more a packet tells as missed than the one before it, so where a CPU's file tells some for the first time, a packet that
/// tells none stands in front. A batch that can't be written is counted: the next packet of its CPU that is written tells its records, and the drops that it
/// carried, as missed. What the last batch lost is told by `last_loss`, and what was lost in all by `finish`. It takes memory for the records of one batch,
/// and its packets, at a time.
#[derive(Drop)]
pub struct TraceFolder<F: Folder> {
    alloc: Global,
    folder: F,
    uuid: [u8; 16],
    missed: [u64; 64],
    told: [u64; 64],
    lost: Option<Loss>,
    last: Option<Loss>,
}

impl<F: Folder> Model for TraceFolder<F> {
    ghost use Rattle.dspec_ctf_sink.specs.Writing.{Tracing};

    ghost Value = { Tracing };

    ghost view = { λ i. record { uuid = i.uuid; missed = i.missed; told = i.told; written = F.written i.folder; lost = i.lost; last = i.last } };
}

impl<F: Folder> TraceFolder<F> {
    /// Writes the metadata, and no packet yet. The uuid is this trace's alone: tools take folders of one uuid for one trace, and lose
    /// events of it in silence.
    pub fn new(
        alloc: Global,
        folder: F,
        uuid: [u8; 16],
        enablings: &Enablings,
        names: &Names<'_>,
    ) -> Result<TraceFolder<F>, FolderFault>
        ensures begun { IfOk result (IsBegun (record { uuid = uuid; process = None; start = None }) enablings.now names.now (F.written folder)) }
        ensures fault { IfErr result (IsBeginFault F.written (record { uuid = uuid; process = None; start = None }) enablings.now names.now folder) }
    {
        TraceFolder::of(alloc, folder, &Origin::of(uuid), enablings, names)
    }

    /// As `new`, of a trace whose process is told: tools show it beside each event.
    pub fn of(
        alloc: Global,
        folder: F,
        origin: &Origin<'_>,
        enablings: &Enablings,
        names: &Names<'_>,
    ) -> Result<TraceFolder<F>, FolderFault>
        ensures begun { IfOk result (IsBegun origin.now enablings.now names.now (F.written folder)) }
        ensures fault { IfErr result (IsBeginFault F.written origin.now enablings.now names.now folder) }
    {
        let text = match metadata_from(alloc, origin, Form::AsTaken, enablings, names) {
            Ok(text) => text,
            Err(fault) => return Err(FolderFault::Metadata(fault)),
        };
        let mut folder = folder;
        if let Err(fault) = folder.add(alloc, "metadata", text.as_str().as_bytes()) {
            return Err(fault);
        }
        Ok(TraceFolder {
            alloc,
            folder,
            uuid: origin.uuid,
            missed: [0; MOST_CPUS],
            told: [0; MOST_CPUS],
            lost: None,
            last: None,
        })
    }

    // Adds the packets of a batch.
    fn add(&mut self, schema: &Enablings, batch: &Batch) -> Result<(), FolderFault>
        ensures uuid { self.new.uuid ≡ self.old.uuid }
        ensures added { OnOk result (AddsPacket schema.now self.old batch.now self.new) }
        ensures why { IfErr result (IsBatchFault schema.now self.old batch.now self.new.written) }
        ensures uncounted { OnErr result (self.new.missed ≡ self.old.missed) }
        ensures told { OnErr result (self.new.told ≡ self.old.told) }
        ensures lost { OnErr result (self.new.lost ≡ self.old.lost) }
    {
        let cpu = batch.cpu;
        let Some(missed) = self.missed.get(cpu as usize) else {
            return Err(FolderFault::Cpu(cpu));
        };
        let mut stream = Stream {
            uuid: self.uuid,
            enablings: schema,
            cpu,
            missed: *missed,
        };
        let told = self.told[cpu as usize];
        let packets = match next_packets(self.alloc, &mut stream, told, batch) {
            Ok(packets) => packets,
            Err(fault) => return Err(FolderFault::Packet { cpu, fault }),
        };
        let name = format!(in self.alloc; "cpu_{cpu}")?;
        if let Err(fault) = self
            .folder
            .add(self.alloc, name.as_str(), packets.as_slice())
        {
            return Err(fault);
        }
        self.missed[cpu as usize] = stream.missed;
        self.told[cpu as usize] = stream.missed;
        self.last = None;
        Ok(())
    }

    // Whether there is nothing to write of a batch.
    fn has_nothing(&self, batch: &Batch) -> bool
        ensures { IsTrue result ↔ IsNothing self.now batch.now }
    {
        let place = batch.cpu as usize;
        batch.buffer.bytes().is_empty()
            && batch.drops == 0
            && self.missed.get(place) == self.told.get(place)
    }

    // Counts what a batch has of which nothing was written.
    fn lose(&mut self, schema: &Enablings, batch: &Batch, fault: FolderFault)
        ensures same { (self.new.uuid ≡ self.old.uuid) × (self.new.told ≡ self.old.told) × (self.new.written ≡ self.old.written) }
        ensures counted { CountsLost schema.now self.old batch.now fault self.new }
    {
        let records = records_in(schema, batch);
        let loss = Loss {
            cpu: batch.cpu,
            row: None,
            fault,
            records,
        };
        miss(&mut self.missed, batch.cpu, batch.drops, records);
        self.lost = Some(with_loss(self.lost, loss));
        self.last = Some(loss);
    }

    /// What was lost in all, if anything was: in which file and why first, and how many records weren't written. The files have whole
    /// packets, unless a fault was `Cut`.
    pub fn finish(self) -> Result<(), Loss>
        ensures whole { OnOk result (self.lost ≡ None) }
        ensures loss { IfErr result (λ loss. self.lost ≡ Some loss) }
    {
        ended_by(self.lost)
    }

    /// Ends the trace: its place, and what `finish` tells.
    pub fn end(self) -> (F, Option<Loss>)
        ensures place { F.written result.0 ≡ self.written }
        ensures lost { result.1 ≡ self.lost }
        ensures counts { (c : ℕ) → missed_on self c < 2 ^ 64 }
    {
        let TraceFolder { folder, lost, .. } = self;
        (folder, lost)
    }
}

impl<F: Folder> Lossy for TraceFolder<F> {
    fn last_loss(&self) -> Option<Loss>
        ensures { result ≡ self.now.last }
    {
        self.last
    }
}

impl<F: Folder + Send> Sink<Enablings> for TraceFolder<F> {
    ghost gets = { GetsPacket };

    fn batch(&mut self, schema: &Enablings, batch: &Batch) {
        if self.has_nothing(batch) {
            self.last = None;
            return;
        }
        let Err(fault) = self.add(schema, batch) else {
            return;
        };
        self.lose(schema, batch, fault);
    }
}
