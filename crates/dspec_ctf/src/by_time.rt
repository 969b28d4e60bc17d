ghost use Rattle.std.specs.{Option.option_map_or, Prelude.◌≡◌, Prelude.◌<◌, Prelude.◌≤◌, Prelude.◌*◌, Prelude.◌+◌, Prelude.◌++◌, Prelude.length, Prelude.map, Prelude.take, Prelude.option_copied};
ghost use Rattle.std.specs.{Prelude.IfOk, Prelude.IfErr, Prelude.OnErr, Prelude.OnOk, Vec.vec_capacity, Vec.vec_len};
ghost use Rattle.dspec_ctf.specs.ByTime.{IsByStamp, span_of, packet_count, part_at, packet_at, timed_packets, IsAdded, AreTexts, IsNoText, ArePacketsOf, HasNoPackets};
ghost use Rattle.dspec_ctf.specs.declared.by_time.TimeFault.TheVariants.{Memory};
ghost use Rattle.dspec_record.specs.declared.header.Header.TheVariants as header;

use crate::Stream;
use crate::packet::{put_around, put_events};
use dspec_buffer::{ReadFault, Records, read_all};
use dspec_record::{Enablings, Header, Rec};
use std::alloc::{AllocError, Global};
use thiserror::Error;

/// The most events of a packet by time.
const MAX_EVENTS: usize = 4096;

/// Why texts have no packets by time.
#[derive(Debug, Clone, Copy, PartialEq, Eq, Error)]
pub enum TimeFault {
    /// Records have no stamp.
    #[error("by time, but records have no stamp")]
    NoStamp,
    /// The text with this number, from 0 on, isn't one; as `read_all` tells it. Those before it are.
    #[error("text {number}: {fault}")]
    Text { number: usize, fault: ReadFault },
    /// A growth was refused.
    #[error("out of memory")]
    Memory,
}

impl From<AllocError> for TimeFault {
    ghost from_gives = { λ _ fault. fault ≡ Memory };

    fn from(_refused: AllocError) -> Self {
        TimeFault::Memory
    }
}

/// Adds records after these.
pub(crate) fn add_records(
    recs: &mut Vec<Rec>,
    records: Records<'_, Enablings>,
) -> Result<(), AllocError>
    ensures added { OnOk result (recs.new.items ≡ recs.old.items ++ records.entry) }
    ensures full { OnErr result (vec_capacity recs.old < vec_len recs.old + length records.entry) }
    ensures capacity { vec_capacity recs.old ≤ vec_capacity recs.new }
{
    for rec in records {
        recs.push(rec)?;
    }
    Ok(())
}

/// Adds the records of the text with this number.
fn add_text(
    recs: &mut Vec<Rec>,
    enablings: &Enablings,
    number: usize,
    text: &[u8],
) -> Result<(), TimeFault>
    ensures added { OnOk result (IsAdded enablings.now text.now recs.old.items recs.new.items) }
    ensures fault { IfErr result (λ fault. IsNoText enablings.now number text.now fault) }
{
    let records = match read_all(enablings, text) {
        Ok(records) => records,
        Err(fault) => return Err(TimeFault::Text { number, fault }),
    };
    add_records(recs, records)?;
    Ok(())
}

/// The records of all texts, which have stamps.
fn collect(alloc: Global, enablings: &Enablings, texts: &[&[u8]]) -> Result<Vec<Rec>, TimeFault>
    requires stamped { enablings.now.header ≡ header.Two }
    ensures texts { IfOk result (λ recs. AreTexts enablings.now (map (λ text. text.now) texts.now) recs.items) }
    ensures fault { IfErr result (λ fault. HasNoPackets enablings.now (map (λ text. text.now) texts.now) fault) }
{
    let mut recs = Vec::new(alloc);
    for number in 0..texts.len() {
        add_text(&mut recs, enablings, number, texts[number])?;
    }
    Ok(recs)
}

/// Sorts records by their stamps; those of one stamp stay in their order.
pub(crate) fn sort(recs: &mut Vec<Rec>) -> Result<(), AllocError>
    ensures { OnOk result (IsByStamp recs.old.items recs.new.items) }
{
    recs.sort_by_key(|rec| rec.stamp())?;
    Ok(())
}

/// The stamp of a record, if there is one.
fn stamp_of(rec: Option<&Rec>) -> u64
    ensures { result ≡ option_map_or (λ r. r.stamp) (option_copied rec.entry) 0 }
{
    match rec {
        Some(rec) => rec.stamp(),
        None => 0,
    }
}

/// The stamps of the first record and of the last.
pub(crate) fn span_of(recs: &[Rec]) -> (u64, u64)
    ensures { result ≡ span_of recs.now }
{
    (stamp_of(recs.first()), stamp_of(recs.last()))
}

/// How many packets so many records have.
fn packet_count(missed: u64, len: usize) -> usize
    ensures { result ≡ packet_count missed len }
{
    if len == 0 {
        return if missed == 0 { 0 } else { 1 };
    }
    (len - 1) / MAX_EVENTS + 1
}

/// The first of these records, so many at most.
fn at_most(recs: &[Rec], most: usize) -> &[Rec]
    ensures first { result.now ≡ take most recs.now }
    ensures few { length result.now ≤ most }
{
    if recs.len() <= most {
        return recs;
    }
    &recs[..most]
}

/// The records of the packet at a place.
#[tactic(auto, unfolding(crate::specs::ByTime::part_at))]
fn part_at(recs: &[Rec], place: usize) -> &[Rec]
    requires { 4096 * place ≤ length recs.now }
    ensures part { result.now ≡ part_at recs.now place }
    ensures few { length result.now ≤ 4096 }
{
    at_most(&recs[MAX_EVENTS * place..], MAX_EVENTS)
}

/// Adds the packet at a place of so many.
#[tactic(auto, unfolding(crate::specs::ByTime::packet_at))]
fn put_packet(
    alloc: Global,
    out: &mut Vec<u8>,
    stream: &Stream<'_>,
    recs: &[Rec],
    place: usize,
    count: usize,
) -> Result<(), AllocError>
    requires within { 4096 * place ≤ length recs.now }
    requires before { place < count }
    ensures { OnOk result (out.new.items ≡ out.old.items
        ++ packet_at stream.now.uuid stream.now.enablings.now stream.now.missed stream.now.cpu recs.now count place) }
{
    let part = part_at(recs, place);
    let mut body = Vec::new(alloc);
    put_events(&mut body, stream.enablings, part)?;
    let told = if place + 1 == count { stream.missed } else { 0 };
    put_around(
        out,
        &stream.uuid,
        Some(span_of(part)),
        told,
        stream.cpu,
        &body,
    )
}

/// Adds all packets of these records.
#[tactic(auto, unfolding(crate::specs::ByTime::timed_packets))]
pub(crate) fn put_packets(
    alloc: Global,
    out: &mut Vec<u8>,
    stream: &Stream<'_>,
    recs: &[Rec],
) -> Result<(), AllocError>
    ensures { OnOk result (out.new.items ≡ out.old.items
        ++ timed_packets stream.now.uuid stream.now.enablings.now stream.now.missed stream.now.cpu recs.now) }
{
    let count = packet_count(stream.missed, recs.len());
    for place in 0..count {
        put_packet(alloc, out, stream, recs, place, count)?;
    }
    Ok(())
}

impl<'a> Stream<'a> {
    /// All packets of the CPU by time, of the texts of its batches: its records in the order of their stamps, those of one
    /// stamp as they stand in the texts, 4,096 to a packet. The last packet tells the events that were missed; without
    /// records there is one packet where there were any, else none.
    pub fn packets_by_time(&self, alloc: Global, texts: &[&[u8]]) -> Result<Vec<u8>, TimeFault>
        ensures packets { IfOk result (λ bytes. ArePacketsOf self.now.enablings.now self.now.uuid self.now.missed self.now.cpu
            (map (λ text. text.now) texts.now) bytes.items) }
        ensures fault { IfErr result (λ fault. HasNoPackets self.now.enablings.now (map (λ text. text.now) texts.now) fault) }
    {
        if self.enablings.header() == Header::One {
            return Err(TimeFault::NoStamp);
        }
        let mut recs = collect(alloc, self.enablings, texts)?;
        sort(&mut recs)?;
        let mut bytes = Vec::new(alloc);
        put_packets(alloc, &mut bytes, self, &recs)?;
        Ok(bytes)
    }
}
