//! The ways that a record can take through a CPU, each as one loop over many records.
ghost use Rattle.std.specs.Prelude.{◌≡◌, IsTrue};
ghost use Rattle.dspec_cpu.specs.{Lists.schema_of, Lists.words_of, Standing.Belongs, Standing.identity};

use dspec_cpu::{Cpu, Shared};
use dspec_deeds::{Decided, Opening, Spoken, Traced};
use dspec_record::{Rec, Schema};
use dspec_word::SpecId;

/// How many records a speculation has.
pub const BLOCK_RECORDS: u32 = 20;

/// What becomes of a record.
#[derive(Debug, Clone, Copy, PartialEq, Eq)]
pub enum Way {
    /// It is traced and kept.
    Kept,
    /// It is traced over a lane, and kept.
    Lane,
    /// It is recorded over a lane by its values, as programs do, and kept.
    Recorded,
    /// It is traced and dropped, since the buffer is full.
    Dropped,
    /// It is one of twenty of a speculation, which is opened, kept and committed.
    Committed,
    /// It is the one of a speculation, which is opened, kept and committed.
    Single,
    /// It is one of twenty steps of a path of a lane, which is opened, stepped and kept.
    Stepped,
    /// It is recorded over a lane by a typed probe, and kept.
    Fired,
    /// It is one of twenty steps of a path by a typed probe; the path is opened, stepped and kept.
    Walked,
    /// There is none: the CPU services, and nothing is owed.
    Served,
}

/// All of them, in the order in which they are told.
pub const WAYS: [Way; 10] = [
    Way::Kept,
    Way::Lane,
    Way::Recorded,
    Way::Dropped,
    Way::Committed,
    Way::Single,
    Way::Stepped,
    Way::Fired,
    Way::Walked,
    Way::Served,
];

impl Way {
    /// Whether records are made by a typed probe, which has at least one field.
    pub fn is_typed(self) -> bool {
        matches!(self, Way::Fired | Way::Walked)
    }

    pub fn name(self) -> &'static str {
        match self {
            Way::Kept => "kept",
            Way::Lane => "lane",
            Way::Recorded => "recorded",
            Way::Dropped => "dropped",
            Way::Committed => "committed",
            Way::Single => "single",
            Way::Stepped => "stepped",
            Way::Fired => "fired",
            Way::Walked => "walked",
            Way::Served => "served",
        }
    }
}

/// One call of trace. Two ways make it, so that it stays a call, as it is one where several probes fire.
#[inline]
fn trace_one<S: Schema>(cpu: &mut Cpu<S>, shared: &Shared, rec: &Rec) -> bool
    requires of { Belongs (words_of shared.now) (identity cpu.old) }
    requires accepted { IsTrue (S.accepted (schema_of cpu.old) rec.now) }
    ensures same { identity cpu.new ≡ identity cpu.old }
{
    cpu.trace(shared, rec) == Traced::Kept
}

/// Traces the record so many times: how often it was kept.
pub fn trace_often<S: Schema>(cpu: &mut Cpu<S>, shared: &Shared, rec: &Rec, number: u32) -> u32
    requires of { Belongs (words_of shared.now) (identity cpu.old) }
    requires accepted { IsTrue (S.accepted (schema_of cpu.old) rec.now) }
    ensures same { identity cpu.new ≡ identity cpu.old }
{
    let mut kept: u32 = 0;
    for _ in 0..number {
        if trace_one(cpu, shared, rec) {
            kept = kept.wrapping_add(1);
        }
    }
    kept
}

/// One call of speculate, which stays a call too.
#[inline(never)]
fn speculate_one<S: Schema>(cpu: &mut Cpu<S>, shared: &Shared, id: SpecId, rec: &Rec) -> bool
    requires of { Belongs (words_of shared.now) (identity cpu.old) }
    requires accepted { IsTrue (S.accepted (schema_of cpu.old) rec.now) }
    ensures same { identity cpu.new ≡ identity cpu.old }
{
    cpu.speculate(shared, id, rec) == Spoken::Kept
}

/// One speculation of twenty records: how many records its commit copied.
fn commit_one<S: Schema>(cpu: &mut Cpu<S>, shared: &Shared, rec: &Rec) -> u32
    requires of { Belongs (words_of shared.now) (identity cpu.old) }
    requires accepted { IsTrue (S.accepted (schema_of cpu.old) rec.now) }
    ensures same { identity cpu.new ≡ identity cpu.old }
{
    let Opening::Id(id) = cpu.speculation(shared) else {
        return 0;
    };
    for _ in 0..BLOCK_RECORDS {
        let _ = speculate_one(cpu, shared, id, rec);
    }
    match cpu.commit(shared, id) {
        Decided::Copied(count) => count,
        _ => 0,
    }
}

/// As many whole speculations as so many records make: how many records were copied.
pub fn commit_often<S: Schema>(cpu: &mut Cpu<S>, shared: &Shared, rec: &Rec, number: u32) -> u32
    requires of { Belongs (words_of shared.now) (identity cpu.old) }
    requires accepted { IsTrue (S.accepted (schema_of cpu.old) rec.now) }
    ensures same { identity cpu.new ≡ identity cpu.old }
{
    let mut copied: u32 = 0;
    for _ in 0..number / BLOCK_RECORDS {
        copied = copied.wrapping_add(commit_one(cpu, shared, rec));
    }
    copied
}

/// One speculation of one record, which stays a call: whether its commit copied that.
#[inline(never)]
fn commit_single<S: Schema>(cpu: &mut Cpu<S>, shared: &Shared, rec: &Rec) -> bool
    requires of { Belongs (words_of shared.now) (identity cpu.old) }
    requires accepted { IsTrue (S.accepted (schema_of cpu.old) rec.now) }
    ensures same { identity cpu.new ≡ identity cpu.old }
{
    let Opening::Id(id) = cpu.speculation(shared) else {
        return false;
    };
    let _ = speculate_one(cpu, shared, id, rec);
    cpu.commit(shared, id) == Decided::Copied(1)
}

/// So many speculations of one record: how many were copied.
pub fn single_often<S: Schema>(cpu: &mut Cpu<S>, shared: &Shared, rec: &Rec, number: u32) -> u32
    requires of { Belongs (words_of shared.now) (identity cpu.old) }
    requires accepted { IsTrue (S.accepted (schema_of cpu.old) rec.now) }
    ensures same { identity cpu.new ≡ identity cpu.old }
{
    let mut copied: u32 = 0;
    for _ in 0..number {
        if commit_single(cpu, shared, rec) {
            copied = copied.wrapping_add(1);
        }
    }
    copied
}

/// One call of service, which stays a call too: whether there was nothing to do.
#[inline(never)]
fn serve_one<S: Schema>(cpu: &mut Cpu<S>, shared: &Shared) -> bool
    requires of { Belongs (words_of shared.now) (identity cpu.old) }
    ensures same { identity cpu.new ≡ identity cpu.old }
{
    let served = cpu.service(shared);
    !served.sealed && served.settled == 0
}

/// Services so many times: how often there was nothing to do.
pub fn serve_often<S: Schema>(cpu: &mut Cpu<S>, shared: &Shared, number: u32) -> u32
    requires of { Belongs (words_of shared.now) (identity cpu.old) }
    ensures same { identity cpu.new ≡ identity cpu.old }
{
    let mut idle: u32 = 0;
    for _ in 0..number {
        if serve_one(cpu, shared) {
            idle = idle.wrapping_add(1);
        }
    }
    idle
}
