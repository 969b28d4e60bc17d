//! What is left of a CPU, with its schema and without.
use super::playing::{same, session};
use dspec_deeds::{Config, Traced};
use dspec_record::{Enablings, Field};
use dspec_ring::Batch;
use std::process::Abort;
use std::test::Fail;

/// The text of a buffer's one record: its EPID, 1, and its value, of four bytes each.
fn text(value: u8) -> [u8; 8] {
    [1, 0, 0, 0, value, 0, 0, 0]
}

/// Of either CPU all is there again: its number, its drops, and its record.
#[test]
fn rest_without_schema(rt: HostRuntime) -> Result<(), Fail> {
    let mut schema = Enablings::new();
    assert!(rt; schema.enable(&[Field::Four]).is_ok());
    // room for one record of eight bytes
    let config = Config::of(2, 1, 8, 8);
    let Ok((mut cpus, _near, _far)) = session(rt.alloc(), &config, schema) else {
        return Err("no session".into());
    };
    let (first, second, shared) = (&mut cpus.first, &mut cpus.second, &cpus.shared);
    same(&rt, first.record(shared, 1, 0, &[7]), Some(Traced::Kept));
    same(&rt, second.record(shared, 1, 0, &[8]), Some(Traced::Kept));
    same(
        &rt,
        second.record(shared, 1, 0, &[9]),
        Some(Traced::Dropped),
    );
    let (_, _, one) = cpus.first.part();
    let (_, _, other) = cpus.second.part();
    let (one, other) = (one.without_schema(), other.without_schema());
    let (none, last) = one.with_schema(schema).batches();
    same(&rt, none.is_none(), true);
    is_batch(&rt, &last, (0, 0), &text(7));
    let (none, last) = other.with_schema(schema).batches();
    same(&rt, none.is_none(), true);
    is_batch(&rt, &last, (1, 1), &text(8));
    Ok(())
}

/// Asserts that a batch is of that CPU, has so many drops, and these bytes.
fn is_batch(rt: &impl Abort, batch: &Batch, of: (u32, u64), bytes: &[u8]) {
    same(rt, (batch.cpu, batch.drops), of);
    same(rt, batch.buffer.bytes(), bytes);
}
