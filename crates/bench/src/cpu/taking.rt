//! The ways of a record by its schema, and the buffers that it goes into.
ghost use Rattle.std.specs.Prelude.{◌≡◌};

use crate::cpu::asking::WayRun;
use crate::cpu::lane::{record_over, step_over, trace_over};
use crate::cpu::probed::{fire_over, walk_over};
use crate::cpu::starting::begin;
use crate::cpu::way::{Way, commit_often, serve_often, single_often, trace_often};
use dspec::{Fields, Lane, Probe, Probes};
use dspec_deeds::{Config, Policy};
use dspec_record::{DefaultAction, Enablings, Rec, Schema};
use dspec_samples::{Subject, timed_enablings};
use std::alloc::Global;

/// Buffers in which all records of a run have room, or twice and 256 times as large ones.
#[derive(Debug, Clone, Copy, PartialEq, Eq)]
pub enum Size {
    Small,
    Large,
}

impl Size {
    /// The sizes of a principal and of a speculative buffer, in bytes.
    fn bytes(self) -> (u32, u32) {
        match self {
            Size::Small => (524_288, 4_096),
            Size::Large => (1_048_576, 1_048_576),
        }
    }
}

/// Takes the way by so many records, or services so often: how many came out of it so; None for want of memory.
pub fn take(alloc: Global, run: WayRun) -> Option<u32> {
    if run.way.is_typed() {
        return take_typed(alloc, run);
    }
    let rec = run.subject.record()?;
    match run.subject {
        Subject::Default4 => take_by(alloc, DefaultAction, rec, run),
        _ => take_by(alloc, timed_enablings().ok()?, rec, run),
    }
}

/// One CPU with 32 slots, and buffers of that size.
fn config_of(size: Size) -> Config
    ensures { result.cpus ≡ 1 }
{
    let (bufsize, specsize) = size.bytes();
    Config {
        cpus: 1,
        nspec: 32,
        bufsize,
        specsize,
        max_issues: 1 << 57,
        max_calls: 1 << 62,
        policy: Policy::Switch,
    }
}

/// By a typed probe, of a subject that has fields.
fn take_typed(alloc: Global, run: WayRun) -> Option<u32> {
    let mut probes = Probes::unstamped(alloc);
    let narrow: Probe<(u32,)> = probes.probe("narrow", &["value"]).ok()?;
    let wide: Probe<(u8, u16, u32, u64)> = probes.probe("wide", &["a", "b", "c", "d"]).ok()?;
    let schema = probes.enablings();
    match run.subject {
        Subject::Enabled8 => take_by_probe(alloc, schema, narrow, (4_000_000_000,), run),
        Subject::Enabled24 => {
            let values = (200, 60_000, 4_000_000_000, 9_000_000_000_000_000_000);
            take_by_probe(alloc, schema, wide, values, run)
        }
        _ => None,
    }
}

fn take_by_probe<F: Fields>(
    alloc: Global,
    schema: Enablings,
    probe: Probe<F>,
    values: F,
    run: WayRun,
) -> Option<u32> {
    let config = config_of(run.size);
    let (mut cpu, shared) = begin(alloc, &config, schema)?;
    let mut lane = Lane::of(&shared, &mut cpu);
    match run.way {
        Way::Fired => Some(fire_over(&mut lane, probe, values, run.number)),
        Way::Walked => Some(walk_over(&mut lane, probe, values, run.number)),
        _ => None,
    }
}

fn take_by<S: Schema>(alloc: Global, schema: S, rec: Rec, run: WayRun) -> Option<u32> {
    if !schema.accepts(&rec) {
        return None;
    }
    let config = config_of(run.size);
    let (mut cpu, shared) = begin(alloc, &config, schema)?;
    match run.way {
        Way::Kept => Some(trace_often(&mut cpu, &shared, &rec, run.number)),
        Way::Lane => {
            let mut lane = Lane::of(&shared, &mut cpu);
            Some(trace_over(&mut lane, &rec, run.number))
        }
        Way::Recorded => {
            let mut lane = Lane::of(&shared, &mut cpu);
            Some(record_over(&mut lane, &rec, run.number))
        }
        Way::Dropped => {
            // No record is smaller than 4 bytes.
            trace_often(&mut cpu, &shared, &rec, config.bufsize / 4);
            let kept = trace_often(&mut cpu, &shared, &rec, run.number);
            Some(run.number.saturating_sub(kept))
        }
        Way::Committed => Some(commit_often(&mut cpu, &shared, &rec, run.number)),
        Way::Single => Some(single_often(&mut cpu, &shared, &rec, run.number)),
        Way::Stepped => {
            let mut lane = Lane::of(&shared, &mut cpu);
            Some(step_over(&mut lane, &rec, run.number))
        }
        Way::Served => Some(serve_often(&mut cpu, &shared, run.number)),
        Way::Fired | Way::Walked => None,
    }
}
