//! Packets of records that are in memory already, for one who has no text of them.

ghost use Rattle.std.specs.Prelude.{◌≡◌, ◌+◌, [], None, All, IfOk, IfErr, IfSome, OnOk, OnErr};
ghost use Rattle.dspec_ctf.specs.{ByTime.ArePacketsOfRecords, ByTime.HasNoPackets, Packets.packet, Packets.packet_around, Streams.Accepts, Streams.HasNoRecordPacket, Streams.IsFirstRefused};
ghost use Rattle.dspec_ctf.specs.{Streams.IsTooLong};

use crate::by_time::{TimeFault, put_packets, sort};
use crate::packet::{put_around, put_events};
use crate::stream::{MAX_EVENTS_SIZE, PacketFault, Stream};
use dspec_record::{Enablings, Header, Rec, Schema};
use std::alloc::Global;

/// The place of the first of these records that the enablings don't accept.
pub fn first_refused(enablings: &Enablings, records: &[Rec]) -> Option<usize>
    ensures accepted { result ≡ None → All (Accepts enablings.now) records.now }
    ensures refused { IfSome result (IsFirstRefused enablings.now records.now) }
{
    for (place, rec) in records.iter().enumerate() {
        if !enablings.accepts(rec) {
            return Some(place);
        }
    }
    None
}

/// The packet around the bytes of these events, with the first stamp and the last in a trace by time.
pub(crate) fn whole_packet(
    alloc: Global,
    stream: &Stream<'_>,
    span: Option<(u64, u64)>,
    missed: u64,
    body: &[u8],
) -> Result<Vec<u8>, PacketFault>
    ensures packet { IfOk result (λ bytes. bytes.items ≡ packet_around stream.now.uuid span missed stream.now.cpu body.now) }
    ensures fault { IfErr result (IsTooLong body.now) }
{
    if body.len() as u64 > MAX_EVENTS_SIZE {
        return Err(PacketFault::TooLong);
    }
    let mut bytes = Vec::new(alloc);
    put_around(&mut bytes, &stream.uuid, span, missed, stream.cpu, body)?;
    Ok(bytes)
}

impl<'a> Stream<'a> {
    /// The packet of the next batch, by its drops and its records, which the enablings accept. Without records there is one too.
    /// Nothing is counted where the answer is a fault; that is never `Text`.
    pub fn packet_of(
        &mut self,
        alloc: Global,
        drops: u64,
        records: &[Rec],
    ) -> Result<Vec<u8>, PacketFault>
        requires { All (Accepts self.old.enablings.now) records.now }
        ensures packet { IfOk result
            (λ bytes. bytes.items ≡ packet self.old.uuid self.old.enablings.now (self.old.missed + drops) self.old.cpu records.now) }
        ensures counted { OnOk result (self.new.missed ≡ self.old.missed + drops) }
        ensures same { (self.new.uuid ≡ self.old.uuid) × (self.new.enablings ≡ self.old.enablings) × (self.new.cpu ≡ self.old.cpu) }
        ensures fault { IfErr result (HasNoRecordPacket self.old.enablings.now self.old.missed drops records.now) }
        ensures refused { OnErr result (self.new ≡ self.old) }
    {
        let Some(missed) = self.missed.checked_add(drops) else {
            return Err(PacketFault::Missed);
        };
        let mut body = Vec::new(alloc);
        put_events(&mut body, self.enablings, records)?;
        let bytes = whole_packet(alloc, self, None, missed, &body)?;
        self.missed = missed;
        Ok(bytes)
    }

    /// All packets of the CPU by time, of its records in the order in which it accepted them, which the enablings accept: those that
    /// `packets_by_time` gives of their texts. A fault is never `Text`.
    pub fn packets_by_time_of(&self, alloc: Global, records: &[Rec]) -> Result<Vec<u8>, TimeFault>
        requires { All (Accepts self.now.enablings.now) records.now }
        ensures packets { IfOk result (λ bytes. ArePacketsOfRecords self.now.enablings.now self.now.uuid self.now.missed self.now.cpu
            records.now bytes.items) }
        ensures fault { IfErr result (HasNoPackets self.now.enablings.now []) }
    {
        if self.enablings.header() == Header::One {
            return Err(TimeFault::NoStamp);
        }
        let mut sorted = Vec::new(alloc);
        sorted.extend_from_slice(records)?;
        sort(&mut sorted)?;
        let mut bytes = Vec::new(alloc);
        put_packets(alloc, &mut bytes, self, &sorted)?;
        Ok(bytes)
    }
}
