//! Packets of files that are written while a session runs. Each has 1,024 bytes.
//!
//! Linux copies a page of a write whole, and looks for a kill between two pages alone. A packet of these lies in one page of its file, so it is there or not;
//! and what is left of a write of several that was cut off between two pages is whole packets.

ghost use Rattle.std.specs.Prelude.{◌≡◌, ◌+◌, ◌<◌, ◌≤◌, ◌++◌, [], IfErr, IfOk, OnErr, OnOk, length, replicate, vec_capacity, vec_len};
ghost use Rattle.dspec_ctf.specs.{Filled.AreFilledOf, Filled.filled_around, Filled.filled_packet, Filled.filled_packets, Filled.filled_size, Filled.front_by, Filled.LacksRoomAfter, Filled.span_by};
ghost use Rattle.dspec_ctf.specs.{Packets.events, Packets.front_size, Streams.HasNoPacket};

use crate::by_time::span_of;
use crate::packet::{Sizes, front_size, put_event, put_front};
use crate::rows::records_of;
use crate::stream::{PacketFault, Stream};
use dspec_record::Rec;
use std::alloc::{AllocError, Global};

/// How many bytes each of these packets has.
pub const PACKET_SIZE: usize = 1024;

/// Adds so many zeros.
#[tactic(auto, using(crate::proofs::Filling::zeros_of))]
fn put_zeros(out: &mut Vec<u8>, count: usize) -> Result<(), AllocError>
    requires { count ≤ filled_size }
    ensures bytes { OnOk result (out.new.items ≡ out.old.items ++ replicate count 0) }
    ensures full { OnErr result (vec_capacity out.old < vec_len out.old + count) }
    ensures long { OnOk result (vec_len out.new ≡ vec_len out.old + count) }
    ensures capacity { vec_capacity out.old ≤ vec_capacity out.new }
{
    out.extend_from_slice(&[0; PACKET_SIZE][..count])
}

/// Adds a packet around the bytes of its events, with zeros after them. It tells the first stamp and the last in a trace by time.
#[tactic(auto, unfolding(crate::specs::Filled::filled_around))]
pub(crate) fn put_filled_around(
    out: &mut Vec<u8>,
    stream: &Stream<'_>,
    span: Option<(u64, u64)>,
    body: &[u8],
) -> Result<(), AllocError>
    requires fits { front_size span + length body.now ≤ filled_size }
    ensures bytes { OnOk result (out.new.items ≡ out.old.items
        ++ filled_around stream.now.uuid span stream.now.missed stream.now.cpu body.now) }
    ensures full { OnErr result (vec_capacity out.old < vec_len out.old + filled_size) }
    ensures long { OnOk result (vec_len out.new ≡ vec_len out.old + filled_size) }
    ensures capacity { vec_capacity out.old ≤ vec_capacity out.new }
{
    let content = front_size(span) as usize + body.len();
    let sizes = Sizes {
        content: content as u64,
        size: PACKET_SIZE as u64,
    };
    put_front(out, &stream.uuid, span, sizes, stream.missed, stream.cpu)?;
    out.extend_from_slice(body)?;
    put_zeros(out, PACKET_SIZE - content)
}

/// The bytes before the events of a packet of a trace by time, or of one as taken.
fn front_by(timed: bool) -> usize
    ensures { result ≡ front_by timed }
{
    if timed { 68 } else { 52 }
}

/// The stamps of the first record and of the last, in a trace by time.
fn span_by(timed: bool, recs: &[Rec]) -> Option<(u64, u64)>
    ensures span { result ≡ span_by timed recs.now }
    ensures front { front_size result ≡ front_by timed }
{
    if timed { Some(span_of(recs)) } else { None }
}

/// Adds the packet of these records, of which the events are these bytes.
#[tactic(auto, unfolding(crate::specs::Filled::filled_packet))]
fn put_packet(
    out: &mut Vec<u8>,
    stream: &Stream<'_>,
    timed: bool,
    recs: &[Rec],
    body: &[u8],
) -> Result<(), AllocError>
    requires body { body.now ≡ events stream.now.enablings.now recs.now }
    requires fits { front_by timed + length body.now ≤ filled_size }
    ensures bytes { OnOk result (out.new.items ≡ out.old.items
        ++ filled_packet timed stream.now.enablings.now stream.now.uuid stream.now.missed stream.now.cpu recs.now) }
    ensures full { OnErr result (vec_capacity out.old < vec_len out.old + filled_size) }
    ensures capacity { vec_capacity out.old ≤ vec_capacity out.new }
{
    put_filled_around(out, stream, span_by(timed, recs), body)
}

/// Adds the packets of these records, each of which takes records as long as they fit. Without records it is one packet. The body has the events of one
/// packet at a time.
#[tactic(auto, unfolding(crate::specs::Filled::filled_packets))]
pub(crate) fn put_filled(
    out: &mut Vec<u8>,
    body: &mut Vec<u8>,
    stream: &Stream<'_>,
    timed: bool,
    recs: &[Rec],
) -> Result<(), AllocError>
    requires { body.old.items ≡ [] }
    ensures bytes { OnOk result (out.new.items ≡ out.old.items
        ++ filled_packets timed stream.now.enablings.now stream.now.uuid stream.now.missed stream.now.cpu recs.now) }
    ensures full { OnErr result (LacksRoomAfter out.old body.old
        (filled_packets timed stream.now.enablings.now stream.now.uuid stream.now.missed stream.now.cpu recs.now)) }
    ensures capacity { vec_capacity out.old ≤ vec_capacity out.new }
    ensures body { vec_capacity body.old ≤ vec_capacity body.new }
{
    let front = front_by(timed);
    let mut from = 0;
    for place in 0..recs.len() {
        let (rec, held) = (&recs[place], body.len());
        put_event(body, stream.enablings, rec)?;
        if front + body.len() > PACKET_SIZE {
            put_packet(out, stream, timed, &recs[from..place], &body[..held])?;
            body.clear();
            put_event(body, stream.enablings, rec)?;
            from = place;
        }
    }
    put_packet(out, stream, timed, &recs[from..], body)
}

impl<'a> Stream<'a> {
    /// The packets of the next batch for its CPU's file, by its drops and its text, each of 1,024 bytes: one where it has no records. Each tells the sum of
    /// the drops so far. Nothing is counted where the answer is a fault; that is never `TooLong` nor `Clock`.
    pub fn batch_packets(
        &mut self,
        alloc: Global,
        drops: u64,
        text: &[u8],
    ) -> Result<Vec<u8>, PacketFault>
        ensures packets { IfOk result
            (λ bytes. AreFilledOf self.old.enablings.now self.old.uuid (self.old.missed + drops) self.old.cpu text.now bytes.items) }
        ensures counted { OnOk result (self.new.missed ≡ self.old.missed + drops) }
        ensures fault { IfErr result (λ fault. HasNoPacket self.old.enablings.now self.old.missed drops text.now fault) }
        ensures same { (self.new.uuid ≡ self.old.uuid) × (self.new.enablings ≡ self.old.enablings) × (self.new.cpu ≡ self.old.cpu) }
        ensures refused { OnErr result (self.new ≡ self.old) }
    {
        let Some(missed) = self.missed.checked_add(drops) else {
            return Err(PacketFault::Missed);
        };
        let records = match records_of(alloc, self.enablings, text) {
            Ok(records) => records,
            Err(fault) => return Err(fault),
        };
        let stream = Stream { missed, ..*self };
        let (mut bytes, mut body) = (Vec::new(alloc), Vec::new(alloc));
        put_filled(&mut bytes, &mut body, &stream, false, &records)?;
        self.missed = missed;
        Ok(bytes)
    }
}
