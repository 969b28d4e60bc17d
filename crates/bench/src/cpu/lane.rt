//! The ways that a program takes: over a lane, by a record or by its values, and in a path.
ghost use Rattle.std.specs.Prelude.{◌≡◌, IsTrue};
ghost use Rattle.dspec_cpu.specs.Lists.{schema_of};
ghost use Rattle.dspec.specs.Lanes.{place_of};

use crate::cpu::way::BLOCK_RECORDS;
use dspec::{Lane, Path};
use dspec_deeds::{Decided, Spoken, Traced};
use dspec_record::{Rec, Schema};

/// One call of trace over a lane, like `trace_one`.
#[inline]
fn trace_on<S: Schema>(lane: &mut Lane<'_, S>, rec: &Rec) -> bool
    requires accepted { IsTrue (S.accepted (schema_of lane.old.cpu.now) rec.now) }
    ensures same { place_of lane.new ≡ place_of lane.old }
{
    lane.trace(rec) == Traced::Kept
}

/// Traces the record so many times over a lane: how often it was kept.
pub fn trace_over<S: Schema>(lane: &mut Lane<'_, S>, rec: &Rec, number: u32) -> u32
    requires accepted { IsTrue (S.accepted (schema_of lane.old.cpu.now) rec.now) }
    ensures same { place_of lane.new ≡ place_of lane.old }
{
    let mut kept: u32 = 0;
    for _ in 0..number {
        if trace_on(lane, rec) {
            kept = kept.wrapping_add(1);
        }
    }
    kept
}

/// One call of record, which stays a call.
#[inline(never)]
fn record_on<S: Schema>(lane: &mut Lane<'_, S>, rec: &Rec) -> bool
    ensures same { place_of lane.new ≡ place_of lane.old }
{
    lane.record(rec.epid(), rec.stamp(), rec.values()) == Ok(Traced::Kept)
}

/// Records the values of the record so many times: how often that was kept.
pub fn record_over<S: Schema>(lane: &mut Lane<'_, S>, rec: &Rec, number: u32) -> u32
    ensures same { place_of lane.new ≡ place_of lane.old }
{
    let mut kept: u32 = 0;
    for _ in 0..number {
        if record_on(lane, rec) {
            kept = kept.wrapping_add(1);
        }
    }
    kept
}

/// One step of a path, which stays a call.
#[inline(never)]
fn step_on<S: Schema>(path: &Path, lane: &mut Lane<'_, S>, rec: &Rec) -> bool
    ensures same { place_of lane.new ≡ place_of lane.old }
{
    path.record(lane, rec.epid(), rec.stamp(), rec.values()) == Ok(Spoken::Kept)
}

/// One path of twenty steps: how many records were kept.
fn keep_path<S: Schema>(lane: &mut Lane<'_, S>, rec: &Rec) -> u32
    ensures same { place_of lane.new ≡ place_of lane.old }
{
    let path = lane.path();
    for _ in 0..BLOCK_RECORDS {
        let _ = step_on(&path, lane, rec);
    }
    match path.commit(lane) {
        Decided::Copied(count) => count,
        _ => 0,
    }
}

/// As many whole paths as so many records make: how many records were kept.
pub fn step_over<S: Schema>(lane: &mut Lane<'_, S>, rec: &Rec, number: u32) -> u32
    ensures same { place_of lane.new ≡ place_of lane.old }
{
    let mut kept: u32 = 0;
    for _ in 0..number / BLOCK_RECORDS {
        kept = kept.wrapping_add(keep_path(lane, rec));
    }
    kept
}
