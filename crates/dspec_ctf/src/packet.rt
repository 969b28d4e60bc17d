ghost use Rattle.std.specs.Prelude.{◌≡◌, ◌<◌, ◌≤◌, ◌++◌, ◌*◌, ◌+◌, ◌^◌, length, IfOk, OnErr, OnOk, vec_capacity, vec_len};
ghost use Rattle.dspec_record.specs.{Layout.width, RecordText.little_endian};
ghost use Rattle.dspec_ctf.specs.Packets.{stamp_bytes, values_bytes, event, events, event_fields, header_bytes, span_bytes, front_size, context_bytes, front_bytes, packet_around};

use dspec_buffer::Records;
use dspec_record::{Enablings, Field, Header, Rec};
use std::alloc::{AllocError, Global};

/// Adds a number in as many bytes as the field has, the lowest first.
fn put_number(out: &mut Vec<u8>, field: Field, value: u64) -> Result<(), AllocError>
    ensures bytes { OnOk result (out.new.items ≡ out.old.items ++ little_endian (width field) value) }
    ensures full { OnErr result (vec_capacity out.old < vec_len out.old + width field) }
    ensures long { OnOk result (vec_len out.new ≡ vec_len out.old + width field) }
    ensures capacity { vec_capacity out.old ≤ vec_capacity out.new }
{
    let bytes = value.to_le_bytes();
    match field {
        Field::One => out.extend_from_slice(&bytes[..1]),
        Field::Two => out.extend_from_slice(&bytes[..2]),
        Field::Four => out.extend_from_slice(&bytes[..4]),
        Field::Eight => out.extend_from_slice(&bytes),
    }
}

/// Adds the stamp, where records have one.
fn put_stamp(out: &mut Vec<u8>, header: Header, stamp: u64) -> Result<(), AllocError>
    ensures bytes { OnOk result (out.new.items ≡ out.old.items ++ stamp_bytes header stamp) }
    ensures full { OnErr result (vec_capacity out.old < vec_len out.old + 8) }
    ensures long { OnOk result (vec_len out.new ≤ vec_len out.old + 8) }
    ensures capacity { vec_capacity out.old ≤ vec_capacity out.new }
{
    match header {
        Header::One => Ok(()),
        Header::Two => put_number(out, Field::Eight, stamp),
    }
}

/// Adds each value in as many bytes as its field has.
fn put_values(out: &mut Vec<u8>, fields: &[Field], values: &[u64]) -> Result<(), AllocError>
    ensures bytes { OnOk result (out.new.items ≡ out.old.items ++ values_bytes fields.now values.now) }
    ensures full { OnErr result (vec_capacity out.old < vec_len out.old + 8 * length values.now) }
    ensures long { OnOk result (vec_len out.new ≤ vec_len out.old + 8 * length values.now) }
    ensures capacity { vec_capacity out.old ≤ vec_capacity out.new }
{
    for (field, value) in fields.iter().zip(values) {
        put_number(out, *field, *value)?;
    }
    Ok(())
}

/// Adds a record as an event, without the gaps that it has in a buffer. It has 76 bytes at most.
#[tactic(auto, using(crate::proofs::Sizes::event_small), unfolding(crate::specs::Packets::event))]
pub(crate) fn put_event(
    out: &mut Vec<u8>,
    enablings: &Enablings,
    rec: &Rec,
) -> Result<(), AllocError>
    ensures bytes { OnOk result (out.new.items ≡ out.old.items ++ event enablings.now rec.now) }
    ensures small { length (event enablings.now rec.now) ≤ 76 }
    ensures full { OnErr result (vec_capacity out.old < vec_len out.old + 76) }
    ensures capacity { vec_capacity out.old ≤ vec_capacity out.new }
{
    let values = rec.values();
    put_number(out, Field::Four, u64::from(rec.epid()))?;
    put_stamp(out, enablings.header(), rec.stamp())?;
    match enablings.fields(rec.epid()) {
        Some(fields) => put_values(out, fields, values),
        None => Ok(()),
    }
}

/// Adds each record as an event, in order.
pub(crate) fn put_events(
    out: &mut Vec<u8>,
    enablings: &Enablings,
    recs: &[Rec],
) -> Result<(), AllocError>
    ensures bytes { OnOk result (out.new.items ≡ out.old.items ++ events enablings.now recs.now) }
    ensures small { OnOk result (length (events enablings.now recs.now) ≤ 76 * length recs.now) }
{
    for rec in recs {
        put_event(out, enablings, rec)?;
    }
    Ok(())
}

/// The events of these records, one after another.
pub(crate) fn events_of(
    alloc: Global,
    enablings: &Enablings,
    records: Records<'_, Enablings>,
) -> Result<Vec<u8>, AllocError>
    ensures { IfOk result (λ body. body.items ≡ events enablings.now records.entry) }
{
    let mut body = Vec::new(alloc);
    for rec in records {
        put_event(&mut body, enablings, &rec)?;
    }
    Ok(body)
}

/// The magic number at the front of each packet.
const MAGIC: u64 = 0xC1FC_1FC1;

/// The bytes before the events of a packet, which has two stamps in a trace by time.
pub(crate) fn front_size(span: Option<(u64, u64)>) -> u64
    ensures front { result ≡ front_size span }
    ensures small { result ≤ 68 }
{
    match span {
        None => 52,
        Some(_) => 68,
    }
}

/// Adds what stands at the front of each packet of the trace with this uuid.
#[tactic(auto, unfolding(crate::specs::Packets::header_bytes))]
fn put_header(out: &mut Vec<u8>, uuid: &[u8; 16]) -> Result<(), AllocError>
    ensures bytes { OnOk result (out.new.items ≡ out.old.items ++ header_bytes uuid.now) }
    ensures full { OnErr result (vec_capacity out.old < vec_len out.old + 24) }
    ensures long { OnOk result (vec_len out.new ≡ vec_len out.old + 24) }
    ensures capacity { vec_capacity out.old ≤ vec_capacity out.new }
{
    put_number(out, Field::Four, MAGIC)?;
    out.extend_from_slice(uuid.as_slice())?;
    put_number(out, Field::Four, 0)
}

/// Adds the stamps of the first event and of the last, in a trace by time.
fn put_span(out: &mut Vec<u8>, span: Option<(u64, u64)>) -> Result<(), AllocError>
    ensures bytes { OnOk result (out.new.items ≡ out.old.items ++ span_bytes span) }
    ensures full { OnErr result (vec_capacity out.old + 52 < vec_len out.old + front_size span) }
    ensures long { OnOk result (vec_len out.new + 52 ≡ vec_len out.old + front_size span) }
    ensures capacity { vec_capacity out.old ≤ vec_capacity out.new }
{
    let Some((begin, end)) = span else {
        return Ok(());
    };
    put_number(out, Field::Eight, begin)?;
    put_number(out, Field::Eight, end)
}

/// Adds up to where a packet's events go and its own size, in bits, how many events were missed so far, and the CPU.
#[tactic(auto, unfolding(crate::specs::Packets::context_bytes))]
fn put_context(
    out: &mut Vec<u8>,
    content: u64,
    bits: u64,
    missed: u64,
    cpu: u32,
) -> Result<(), AllocError>
    ensures bytes { OnOk result (out.new.items ≡ out.old.items ++ context_bytes content bits missed cpu) }
    ensures full { OnErr result (vec_capacity out.old < vec_len out.old + 28) }
    ensures long { OnOk result (vec_len out.new ≡ vec_len out.old + 28) }
    ensures capacity { vec_capacity out.old ≤ vec_capacity out.new }
{
    put_number(out, Field::Eight, content)?;
    put_number(out, Field::Eight, bits)?;
    put_number(out, Field::Eight, missed)?;
    put_number(out, Field::Four, u64::from(cpu))
}

/// Up to where a packet's events go, and how many bytes it has.
#[derive(Clone, Copy)]
pub(crate) struct Sizes {
    pub content: u64,
    pub size: u64,
}

/// Adds what stands before the events of a packet of these sizes.
#[tactic(auto, using(crate::proofs::Sizes::front_least), unfolding(crate::specs::Packets::front_bytes))]
pub(crate) fn put_front(
    out: &mut Vec<u8>,
    uuid: &[u8; 16],
    span: Option<(u64, u64)>,
    sizes: Sizes,
    missed: u64,
    cpu: u32,
) -> Result<(), AllocError>
    requires content { sizes.content < 2 ^ 61 }
    requires size { sizes.size < 2 ^ 61 }
    ensures bytes { OnOk result (out.new.items ≡ out.old.items ++ front_bytes uuid.now span sizes.content sizes.size missed cpu) }
    ensures full { OnErr result (vec_capacity out.old < vec_len out.old + front_size span) }
    ensures long { OnOk result (vec_len out.new ≡ vec_len out.old + front_size span) }
    ensures capacity { vec_capacity out.old ≤ vec_capacity out.new }
{
    put_header(out, uuid)?;
    put_span(out, span)?;
    put_context(out, 8 * sizes.content, 8 * sizes.size, missed, cpu)
}

/// Adds the packet around the bytes of its events, with which it ends. It tells the first stamp and the last in a trace by time.
pub(crate) fn put_around(
    out: &mut Vec<u8>,
    uuid: &[u8; 16],
    span: Option<(u64, u64)>,
    missed: u64,
    cpu: u32,
    body: &[u8],
) -> Result<(), AllocError>
    requires bits { length body.now < 2 ^ 60 }
    ensures { OnOk result (out.new.items ≡ out.old.items ++ packet_around uuid.now span missed cpu body.now) }
{
    let size = front_size(span) + body.len() as u64;
    let sizes = Sizes {
        content: size,
        size,
    };
    put_front(out, uuid, span, sizes, missed, cpu)?;
    out.extend_from_slice(body)
}
