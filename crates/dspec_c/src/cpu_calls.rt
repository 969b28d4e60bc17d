//! The exports of a CPU.

ghost use Rattle.std.specs.Prelude.{◌≡◌, ⊤};
ghost use Rattle.dspec_promise.specs.Promise.{commit, discard};
ghost use Rattle.dspec_c.specs.CpuCalls.{CommitIfRoomTold, DecideTold, DroppedInTold, OnCpu, OpenAtTold, OpeningTold, ReportTold, ServiceTold, SpeculateTold, TraceTold, served_so};
ghost use Rattle.dspec_c.specs.Handles.{held_in, is_full};

use crate::handle::{Handle, lent};
use crate::held::HandleValue;
use crate::reports::CReport;
use crate::statuses::{BAD_HANDLE, bad_handle};

// A call of its own: an export that takes values saves registers before it asks whether its handle is empty, where all stands in it.
#[inline(never)]
fn held_trace(held: &mut HandleValue, epid: u32, stamp: u64, values: &[u64]) -> u32
    ensures { OnCpu (TraceTold epid stamp values.now result) ⊤ held.old result held.new }
{
    match held {
        HandleValue::Cpu(side) => side.trace(epid, stamp, values),
        _ => bad_handle(),
    }
}

// A call of its own, as `held_trace`.
#[inline(never)]
fn held_speculate(held: &mut HandleValue, id: u64, epid: u32, stamp: u64, values: &[u64]) -> u32
    ensures { OnCpu (SpeculateTold id epid stamp values.now result) ⊤ held.old result held.new }
{
    match held {
        HandleValue::Cpu(side) => side.speculate(id, epid, stamp, values),
        _ => bad_handle(),
    }
}

/// Traces a record.
#[unsafe(no_mangle)]
pub extern "C" fn dspec_trace(cpu: &mut Handle, epid: u32, stamp: u64, values: &[u64]) -> u32
    ensures answers { OnCpu (TraceTold epid stamp values.now result) ⊤ (held_in cpu.old) result (held_in cpu.new) }
    ensures stays { is_full cpu.new ≡ is_full cpu.old }
{
    if !cpu.is_held() {
        return bad_handle();
    }
    held_trace(&mut cpu.lend().held, epid, stamp, values)
}

/// Opens a speculation.
#[unsafe(no_mangle)]
pub extern "C" fn dspec_speculation(cpu: &mut Handle, id: &mut u64) -> u32
    ensures answers { OnCpu (OpeningTold result id.old id.new) (id.new ≡ id.old) (held_in cpu.old) result (held_in cpu.new) }
    ensures stays { is_full cpu.new ≡ is_full cpu.old }
{
    lent!(cpu as Cpu(side), BAD_HANDLE => side.speculation(id))
}

/// Offers a record to a speculation.
#[unsafe(no_mangle)]
pub extern "C" fn dspec_speculate(
    cpu: &mut Handle,
    id: u64,
    epid: u32,
    stamp: u64,
    values: &[u64],
) -> u32
    ensures answers { OnCpu (SpeculateTold id epid stamp values.now result) ⊤ (held_in cpu.old) result (held_in cpu.new) }
    ensures stays { is_full cpu.new ≡ is_full cpu.old }
{
    if !cpu.is_held() {
        return bad_handle();
    }
    held_speculate(&mut cpu.lend().held, id, epid, stamp, values)
}

/// Commits a speculation.
#[unsafe(no_mangle)]
pub extern "C" fn dspec_commit(cpu: &mut Handle, id: u64, count: &mut u32) -> u32
    ensures answers { OnCpu (DecideTold commit id result count.old count.new) (count.new ≡ count.old) (held_in cpu.old) result (held_in cpu.new) }
    ensures stays { is_full cpu.new ≡ is_full cpu.old }
{
    lent!(cpu as Cpu(side), BAD_HANDLE => side.commit(id, count))
}

/// Commits a speculation, but not where that would lose the CPU's block.
#[unsafe(no_mangle)]
pub extern "C" fn dspec_commit_if_room(cpu: &mut Handle, id: u64, count: &mut u32) -> u32
    ensures answers { OnCpu (CommitIfRoomTold id result count.old count.new) (count.new ≡ count.old) (held_in cpu.old) result (held_in cpu.new) }
    ensures stays { is_full cpu.new ≡ is_full cpu.old }
{
    lent!(cpu as Cpu(side), BAD_HANDLE => side.commit_if_room(id, count))
}

/// Discards a speculation.
#[unsafe(no_mangle)]
pub extern "C" fn dspec_discard(cpu: &mut Handle, id: u64, count: &mut u32) -> u32
    ensures answers { OnCpu (DecideTold discard id result count.old count.new) (count.new ≡ count.old) (held_in cpu.old) result (held_in cpu.new) }
    ensures stays { is_full cpu.new ≡ is_full cpu.old }
{
    lent!(cpu as Cpu(side), BAD_HANDLE => side.discard(id, count))
}

/// Does what the CPU owes the consumer and the other CPUs.
#[unsafe(no_mangle)]
pub extern "C" fn dspec_service(cpu: &mut Handle, sealed: &mut bool, settled: &mut u32) -> u32
    ensures answers { OnCpu (ServiceTold result (served_so sealed.new settled.new))
        (served_so sealed.new settled.new ≡ served_so sealed.old settled.old) (held_in cpu.old) result (held_in cpu.new) }
    ensures stays { is_full cpu.new ≡ is_full cpu.old }
{
    lent!(cpu as Cpu(side), BAD_HANDLE => side.service(sealed, settled))
}

/// How many records were dropped from the CPU's buffer of a speculation.
#[unsafe(no_mangle)]
pub extern "C" fn dspec_dropped_in(cpu: &mut Handle, id: u64, count: &mut u32) -> u32
    ensures answers { OnCpu (DroppedInTold id result count.new) (count.new ≡ count.old) (held_in cpu.old) result (held_in cpu.new) }
    ensures stays { is_full cpu.new ≡ is_full cpu.old }
{
    lent!(cpu as Cpu(side), BAD_HANDLE => side.dropped_in(id, count))
}

/// The speculation of a slot of which the CPU has records.
#[unsafe(no_mangle)]
pub extern "C" fn dspec_open_at(cpu: &mut Handle, slot: u32, id: &mut u64) -> u32
    ensures answers { OnCpu (OpenAtTold slot result id.new) (id.new ≡ id.old) (held_in cpu.old) result (held_in cpu.new) }
    ensures stays { is_full cpu.new ≡ is_full cpu.old }
{
    lent!(cpu as Cpu(side), BAD_HANDLE => side.open_at(slot, id))
}

/// The CPU's counts so far.
#[unsafe(no_mangle)]
pub extern "C" fn dspec_cpu_report(cpu: &mut Handle, report: &mut CReport) -> u32
    ensures answers { OnCpu (ReportTold result report.new) (report.new ≡ report.old) (held_in cpu.old) result (held_in cpu.new) }
    ensures stays { is_full cpu.new ≡ is_full cpu.old }
{
    lent!(cpu as Cpu(side), BAD_HANDLE => side.report(report))
}
