//! The ways that a program with typed probes takes: over a lane, and in a path.
ghost use Rattle.std.specs.Prelude.{◌≡◌};
ghost use Rattle.dspec_cpu.specs.Lists.{schema_of};
ghost use Rattle.dspec_probe.specs.Probes.{IsProbeOf};
ghost use Rattle.dspec.specs.Lanes.{place_of};

use crate::cpu::way::BLOCK_RECORDS;
use dspec::{Fields, Lane, Path, Probe, Recording};
use dspec_deeds::{Decided, Spoken, Traced};
use dspec_record::Enablings;

/// One record by a probe, which stays a call.
#[inline(never)]
fn fire_on<F: Fields>(lane: &mut Lane<'_, Enablings>, probe: Probe<F>, values: F) -> bool
    requires of { IsProbeOf F.fields_are probe (schema_of lane.old.cpu.now) }
    ensures same { place_of lane.new ≡ place_of lane.old }
{
    probe.record(lane, 0, values) == Traced::Kept
}

/// Records these values by the probe so many times: how often that was kept. None of a probe that the lane's schema doesn't have.
pub fn fire_over<F: Fields>(
    lane: &mut Lane<'_, Enablings>,
    probe: Probe<F>,
    values: F,
    number: u32,
) -> u32
    ensures same { place_of lane.new ≡ place_of lane.old }
{
    let Ok(probe) = probe.on(lane) else {
        return 0;
    };
    let mut kept: u32 = 0;
    for _ in 0..number {
        if fire_on(lane, probe, values) {
            kept = kept.wrapping_add(1);
        }
    }
    kept
}

/// One step of a path by a probe, which stays a call.
#[inline(never)]
fn walk_on<F: Fields>(
    path: &Path,
    lane: &mut Lane<'_, Enablings>,
    probe: Probe<F>,
    values: F,
) -> bool
    requires of { IsProbeOf F.fields_are probe (schema_of lane.old.cpu.now) }
    ensures same { place_of lane.new ≡ place_of lane.old }
{
    probe.record_in(lane, path, 0, values) == Spoken::Kept
}

/// One path of twenty steps by a probe: how many records were kept.
fn walk_path<F: Fields>(lane: &mut Lane<'_, Enablings>, probe: Probe<F>, values: F) -> u32
    requires of { IsProbeOf F.fields_are probe (schema_of lane.old.cpu.now) }
    ensures same { place_of lane.new ≡ place_of lane.old }
{
    let path = lane.path();
    for _ in 0..BLOCK_RECORDS {
        let _ = walk_on(&path, lane, probe, values);
    }
    match path.commit(lane) {
        Decided::Copied(count) => count,
        _ => 0,
    }
}

/// As many whole paths as so many records make: how many records were kept.
pub fn walk_over<F: Fields>(
    lane: &mut Lane<'_, Enablings>,
    probe: Probe<F>,
    values: F,
    number: u32,
) -> u32
    ensures same { place_of lane.new ≡ place_of lane.old }
{
    let Ok(probe) = probe.on(lane) else {
        return 0;
    };
    let mut kept: u32 = 0;
    for _ in 0..number / BLOCK_RECORDS {
        kept = kept.wrapping_add(walk_path(lane, probe, values));
    }
    kept
}
