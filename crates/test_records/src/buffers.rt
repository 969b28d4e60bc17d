//! Both buffers, and the reader of a stored text.
use crate::same::same;
use dspec_buffer::{ByteBuffer, ListBuffer, ReadFault, Reading, TraceBuffer, laws, read_prefix};
use dspec_record::{DefaultAction, Enablings, Field, ReadKind, Rec, Schema};
use dspec_samples::{
    PADDED_TEXT, WHOLE_TEXTS, cut_fault, damaged, damages, fault, fault_of, four_enablings, is_read,
};
use std::alloc::AllocError;
use std::process::Abort;
use std::test::Fail;

fn rec(rt: &impl Abort, epid: u32, values: &[u64]) -> Rec {
    Rec::new(epid, values).expect(rt, "at most eight values")
}

/// An empty buffer of this size, by its bound.
pub fn buffer<S: Schema, B: TraceBuffer<S>>(
    rt: &(impl Abort + AllocGlobal),
    _schema: &S,
    size: u32,
) -> Result<B, AllocError> {
    assert!(rt; size % 8 == 0 && size >= 8 && size <= 1_048_576);
    let buffer = B::make(rt.alloc(), size)?;
    assert!(rt; buffer.is_empty());
    same(rt, (buffer.offset(), buffer.count()), (0, 0));
    assert!(rt; buffer.fits(8, size) && !buffer.fits(4, size + 1));
    Ok(buffer)
}

/// Whether a record that the schema accepts was kept, and how far the buffer then reaches.
fn keep<S: Schema, B: TraceBuffer<S>>(
    rt: &impl Abort,
    schema: &S,
    buffer: &mut B,
    epid: u32,
    values: &[u64],
) -> (bool, u32) {
    let rec = rec(rt, epid, values);
    assert!(rt; schema.accepts(&rec));
    let kept = buffer.push(schema, &rec);
    (kept, buffer.offset())
}

/// Whether a walk over the buffer gives these records and ends.
pub fn walks<S: Schema, B: TraceBuffer<S>>(schema: &S, buffer: &B, wanted: &[Rec]) -> bool {
    let mut place = 0;
    for rec in wanted {
        match buffer.next(schema, place) {
            Some(found) if found.0 == *rec => place = found.1,
            _ => return false,
        }
    }
    buffer.next(schema, place).is_none()
}

/// Records that need padding, and two that don't fit.
fn pad_records<B: TraceBuffer<Enablings>>(
    rt: &(impl Abort + AllocGlobal),
    schema: &Enablings,
) -> Result<B, Fail> {
    let mut buffer: B = buffer(rt, schema, 32)?;
    same(rt, keep(rt, schema, &mut buffer, 1, &[]), (true, 4));
    same(rt, keep(rt, schema, &mut buffer, 2, &[7]), (true, 24));
    same(rt, keep(rt, schema, &mut buffer, 2, &[8]), (false, 24));
    same(rt, keep(rt, schema, &mut buffer, 4, &[9]), (true, 32));
    same(rt, keep(rt, schema, &mut buffer, 1, &[]), (false, 32));
    same(rt, buffer.count(), 3);
    let kept = [rec(rt, 1, &[]), rec(rt, 2, &[7]), rec(rt, 4, &[9])];
    assert!(rt; walks(schema, &buffer, &kept) && !buffer.is_empty());
    Ok(buffer)
}

#[test]
fn padded_records(rt: HostRuntime) -> Result<(), Fail> {
    let schema = four_enablings()?;
    let mut bytes: ByteBuffer = pad_records(&rt, &schema)?;
    same(&rt, bytes.bytes(), PADDED_TEXT.as_slice());
    same(&rt, bytes.size(), 32);
    let kept = [rec(&rt, 1, &[]), rec(&rt, 2, &[7]), rec(&rt, 4, &[9])];
    assert!(rt; is_read(&schema, bytes.bytes(), &kept));
    TraceBuffer::<Enablings>::clear(&mut bytes);
    assert!(rt; bytes.bytes().is_empty() && walks(&schema, &bytes, &[]));
    let _list: ListBuffer = pad_records(&rt, &schema)?;
    Ok(())
}

/// A record larger than the buffer.
fn refuse_large<B: TraceBuffer<Enablings>>(
    rt: &(impl Abort + AllocGlobal),
    schema: &Enablings,
) -> Result<(), Fail> {
    let mut buffer: B = buffer(rt, schema, 8)?;
    same(rt, keep(rt, schema, &mut buffer, 2, &[7]), (false, 0));
    assert!(rt; buffer.is_empty());
    Ok(())
}

#[test]
fn too_large_record(rt: HostRuntime) -> Result<(), Fail> {
    let schema = four_enablings()?;
    refuse_large::<ByteBuffer>(&rt, &schema)?;
    refuse_large::<ListBuffer>(&rt, &schema)
}

/// A record, then a block of one that is aligned to eight, then whatever still fits.
fn align_block<B: TraceBuffer<DefaultAction>>(
    rt: &(impl Abort + AllocGlobal),
    size: u32,
) -> Result<B, Fail> {
    let schema = DefaultAction;
    let mut active: B = buffer(rt, &schema, size)?;
    let mut speculative: B = buffer(rt, &schema, 64)?;
    assert!(rt; active.push_block(&speculative));
    same(rt, keep(rt, &schema, &mut active, 1, &[]), (true, 4));
    assert!(rt; active.push_block(&speculative));
    same(rt, active.offset(), 4);
    same(rt, keep(rt, &schema, &mut speculative, 1, &[]), (true, 4));
    let copied = active.push_block(&speculative);
    same(rt, copied, size == 16);
    if !copied {
        same(rt, (active.offset(), active.count()), (4, 1));
        same(rt, keep(rt, &schema, &mut active, 2, &[]), (true, 8));
    }
    let last = if copied { 1 } else { 2 };
    assert!(rt; walks(&schema, &active, &[rec(rt, 1, &[]), rec(rt, last, &[])]));
    active.clear();
    assert!(rt; active.is_empty() && active.fits(8, size));
    assert!(rt; active.push_block(&speculative));
    Ok(active)
}

#[test]
fn aligned_block(rt: HostRuntime) -> Result<(), Fail> {
    let mut bytes: ByteBuffer = buffer(&rt, &DefaultAction, 16)?;
    let mut speculative: ByteBuffer = buffer(&rt, &DefaultAction, 8)?;
    let first = keep(&rt, &DefaultAction, &mut bytes, 1, &[]);
    let second = keep(&rt, &DefaultAction, &mut speculative, 1, &[]);
    same(&rt, [first, second], [(true, 4); 2]);
    assert!(rt; TraceBuffer::<DefaultAction>::push_block(&mut bytes, &speculative));
    let text = [1, 0, 0, 0, 0, 0, 0, 0, 1, 0, 0, 0];
    same(&rt, bytes.bytes(), text.as_slice());
    for size in [8, 16] {
        let _bytes: ByteBuffer = align_block(&rt, size)?;
        let _list: ListBuffer = align_block(&rt, size)?;
    }
    Ok(())
}

/// Two speculative records, committed.
fn commit_two<B: TraceBuffer<Enablings>>(
    rt: &(impl Abort + AllocGlobal),
    schema: &Enablings,
) -> Result<B, Fail> {
    let mut active: B = buffer(rt, schema, 64)?;
    let mut speculative: B = buffer(rt, schema, 64)?;
    same(rt, keep(rt, schema, &mut speculative, 1, &[]), (true, 4));
    same(rt, keep(rt, schema, &mut speculative, 4, &[5]), (true, 12));
    assert!(rt; active.push_block(&speculative));
    same(rt, active.count(), 2);
    assert!(rt; walks(schema, &active, &[rec(rt, 1, &[]), rec(rt, 4, &[5])]));
    Ok(active)
}

#[test]
fn commit(rt: HostRuntime) -> Result<(), Fail> {
    let schema = four_enablings()?;
    let bytes: ByteBuffer = commit_two(&rt, &schema)?;
    let text = [1, 0, 0, 0, 4, 0, 0, 0, 5, 0, 0, 0];
    same(&rt, bytes.bytes(), text.as_slice());
    let _list: ListBuffer = commit_two(&rt, &schema)?;
    Ok(())
}

/// A block of which two records would fit, but not the three.
fn lose_block<B: TraceBuffer<Enablings>>(
    rt: &(impl Abort + AllocGlobal),
    schema: &Enablings,
) -> Result<B, Fail> {
    let mut active: B = buffer(rt, schema, 16)?;
    let mut speculative: B = buffer(rt, schema, 16)?;
    same(rt, keep(rt, schema, &mut active, 4, &[9]), (true, 8));
    for place in [4, 8, 12] {
        let kept = keep(rt, schema, &mut speculative, 1, &[]);
        same(rt, kept, (true, place));
    }
    assert!(rt; !active.push_block(&speculative));
    same(rt, (active.offset(), active.count()), (8, 1));
    Ok(active)
}

#[test]
fn lost_block(rt: HostRuntime) -> Result<(), Fail> {
    let schema = four_enablings()?;
    let bytes: ByteBuffer = lose_block(&rt, &schema)?;
    same(&rt, bytes.bytes(), [4, 0, 0, 0, 9, 0, 0, 0].as_slice());
    let _list: ListBuffer = lose_block(&rt, &schema)?;
    Ok(())
}

#[test]
fn byte_buffer(rt: HostRuntime) -> Result<(), Fail> {
    let mut schema = Enablings::new();
    schema.enable(&[Field::Eight, Field::One])?;
    schema.enable(&[])?;
    let mut bytes: ByteBuffer = buffer(&rt, &schema, 48)?;
    same(&rt, keep(&rt, &schema, &mut bytes, 1, &[5, 6]), (true, 20));
    same(&rt, keep(&rt, &schema, &mut bytes, 1, &[5, 6]), (true, 44));
    same(&rt, keep(&rt, &schema, &mut bytes, 2, &[]), (true, 48));
    same(&rt, keep(&rt, &schema, &mut bytes, 2, &[]), (false, 48));
    same(&rt, bytes.bytes().get(20..24), Some([0; 4].as_slice()));
    let (first, last) = (rec(&rt, 1, &[5, 6]), rec(&rt, 2, &[]));
    assert!(rt; is_read(&schema, bytes.bytes(), &[first, first, last]));
    let mut count = 0u8;
    if let Ok(records) = laws::read_back(&schema, &bytes) {
        for _rec in records {
            count = count.saturating_add(1);
        }
    }
    same(&rt, count, 3);
    Ok(())
}

#[test]
fn reader_faults(rt: HostRuntime) -> Result<(), Fail> {
    let schema = four_enablings()?;
    assert!(rt; is_read(&schema, &[], &[]));
    let twice = [1, 0, 0, 0, 0, 0, 0, 0, 0, 0, 0, 0];
    for (text, kind, at) in [
        ([0, 0, 0, 0, 1, 0, 0, 0].as_slice(), ReadKind::Padding, 0),
        (&[1, 0, 0], ReadKind::Truncated, 0),
        (&[9, 0, 0, 0], ReadKind::UnknownEpid, 0),
        (&[1, 0, 0, 0, 2, 0, 0, 0], ReadKind::Misaligned, 4),
        (&[3, 0, 0, 0, 0xAB, 1, 0x34, 0x12], ReadKind::GapNotZero, 0),
        (&[1, 0, 0, 0, 0, 0, 0, 0], ReadKind::Padding, 4),
        (&twice, ReadKind::Padding, 8),
    ] {
        same(&rt, fault_of(&schema, text), fault(kind, at));
    }
    let found = fault_of(&DefaultAction, &twice);
    same(&rt, found, fault(ReadKind::Padding, 8));
    assert!(rt; is_read(&DefaultAction, &[9, 0, 0, 0], &[rec(&rt, 9, &[])]));
    Ok(())
}

#[test]
fn truncated_texts(rt: HostRuntime) -> Result<(), Fail> {
    let schema = four_enablings()?;
    let kept = [rec(&rt, 1, &[]), rec(&rt, 2, &[7]), rec(&rt, 4, &[9])];
    for length in 0..=PADDED_TEXT.len() {
        let text = &PADDED_TEXT[..length];
        let wanted = cut_fault(length);
        same(&rt, (length, fault_of(&schema, text)), (length, wanted));
    }
    for (length, count) in WHOLE_TEXTS {
        assert!(rt;
            is_read(&schema, &PADDED_TEXT[..length], &kept[..count]),
            "at {length}"
        );
    }
    Ok(())
}

/// Whether reading gives these records before the fault, or before the text's end.
fn is_read_up_to<S: Schema>(
    schema: &S,
    text: &[u8],
    wanted: &[Rec],
    stop: Option<ReadFault>,
) -> bool {
    let (mut records, fault) = read_prefix(schema, text);
    for rec in wanted {
        if records.next() != Some(*rec) {
            return false;
        }
    }
    records.next().is_none() && fault == stop
}

/// Whether a reader in one pass gives the records of `read_prefix`, and then its fault, or none, at each later call.
fn reads_in_one_pass<S: Schema>(schema: &S, text: &[u8]) -> bool {
    let (records, stop) = read_prefix(schema, text);
    let mut reading = Reading::new(schema, text);
    for rec in records {
        if reading.next() != Ok(Some(rec)) {
            return false;
        }
    }
    let end = match stop {
        Some(fault) => Err(fault),
        None => Ok(None),
    };
    reading.next() == end && reading.next() == end && reading.next() == end
}

/// Of each length of the padded text: the records before the fault, and in one pass.
#[test]
fn records_before_a_fault(rt: HostRuntime) -> Result<(), Fail> {
    let schema = four_enablings()?;
    let kept = [rec(&rt, 1, &[]), rec(&rt, 2, &[7]), rec(&rt, 4, &[9])];
    for length in 0..=PADDED_TEXT.len() {
        let count = match length {
            0..=3 => 0,
            4..=23 => 1,
            24..=31 => 2,
            _ => 3,
        };
        let (text, stop) = (&PADDED_TEXT[..length], cut_fault(length));
        let is_due = is_read_up_to(&schema, text, &kept[..count], stop);
        assert!(rt; is_due && reads_in_one_pass(&schema, text), "at {length}");
    }
    Ok(())
}

#[test]
fn damaged_texts(rt: HostRuntime) -> Result<(), Fail> {
    let schema = four_enablings()?;
    for (at, byte, wanted) in damages() {
        let text = damaged(PADDED_TEXT, at, byte);
        same(&rt, (at, fault_of(&schema, &text)), (at, wanted));
    }
    let text = damaged(PADDED_TEXT, 4, 1);
    let (first, second, last) = (rec(&rt, 1, &[]), rec(&rt, 2, &[7]), rec(&rt, 4, &[9]));
    assert!(rt; is_read(&schema, &text, &[first, first, second, last]));
    Ok(())
}

/// An empty buffer of this size, asked for once more where the growth was refused.
fn asked_again<S: Schema, B: TraceBuffer<S>>(
    rt: &(impl Abort + AllocGlobal),
    schema: &S,
    size: u32,
) -> Result<B, AllocError> {
    match buffer(rt, schema, size) {
        Ok(buffer) => Ok(buffer),
        Err(AllocError) => buffer(rt, schema, size),
    }
}

/// Where a growth is refused, `make` answers so, and serves when it is asked again. None is refused in an ordinary run;
/// `tests/refused-growth` refuses each of the four in turn.
#[test]
fn refused_growth(rt: HostRuntime) -> Result<(), Fail> {
    let schema = four_enablings()?;
    let mut bytes: ByteBuffer = asked_again(&rt, &schema, 8)?;
    same(&rt, bytes.size(), 8);
    same(&rt, keep(&rt, &schema, &mut bytes, 4, &[9]), (true, 8));
    same(&rt, bytes.bytes(), [4, 0, 0, 0, 9, 0, 0, 0].as_slice());
    let mut list: ListBuffer = asked_again(&rt, &schema, 8)?;
    same(&rt, keep(&rt, &schema, &mut list, 4, &[9]), (true, 8));
    assert!(rt; walks(&schema, &list, &[rec(&rt, 4, &[9])]));
    let mut bytes: ByteBuffer = asked_again(&rt, &DefaultAction, 16)?;
    let kept = keep(&rt, &DefaultAction, &mut bytes, 7, &[]);
    same(&rt, kept, (true, 4));
    same(&rt, bytes.bytes(), [7, 0, 0, 0].as_slice());
    let mut list: ListBuffer = asked_again(&rt, &DefaultAction, 16)?;
    same(&rt, keep(&rt, &DefaultAction, &mut list, 7, &[]), (true, 4));
    assert!(rt; walks(&DefaultAction, &list, &[rec(&rt, 7, &[])]));
    Ok(())
}
