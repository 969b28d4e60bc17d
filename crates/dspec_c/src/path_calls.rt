//! The exports of a table of the open paths of a CPU. The table is in a handle of its own, beside the CPU's.

ghost use Rattle.std.specs.Prelude.{◌≡◌, ◌⊎◌, true, false, ⊤};
ghost use Rattle.dspec_c.specs.{CpuCalls.OnCpu, Handles.held_in, Handles.is_full, PathCalls.AdoptTold, PathCalls.BeginTold, PathCalls.CountsTold, PathCalls.DiscardTold, PathCalls.HoldsNoPaths};
ghost use Rattle.dspec_c.specs.{PathCalls.KeepPartTold, PathCalls.LoseTold, PathCalls.OnTable, PathCalls.OnTableAlone, PathCalls.OpenOfTold, PathCalls.ToldOnCpu, PathCalls.ToldOnTable};
ghost use Rattle.dspec_c.specs.{PathCalls.TurnTold, PathCalls.named, PathCalls.whose_of};

use crate::boxed::Boxed;
use crate::handle::{Handle, HandleContents, lent};
use crate::held::HandleValue;
use crate::open_path::COpenPath;
use crate::out_paths::{key_of, of_there};
use crate::path_counts::CPathCounts;
use crate::statuses::{BAD_HANDLE, FULL_HANDLE, NO_MEMORY, OK, VOID};
use dspec_paths::{Paths, WhosePaths};
use std::alloc::Global;

/// A table without paths.
#[unsafe(no_mangle)]
pub extern "C" fn dspec_paths_new(alloc: Global, paths: &mut Handle) -> u32
    ensures full { is_full paths.old ≡ true → (result ≡ 18) × (paths.new ≡ paths.old) }
    ensures made { result ≡ 0 → (is_full paths.new ≡ true) × HoldsNoPaths (held_in paths.new) }
    ensures kept { result ≡ 7 → paths.new ≡ paths.old }
    ensures either { is_full paths.old ≡ false → (result ≡ 0) ⊎ (result ≡ 7) }
{
    if paths.is_held() {
        return FULL_HANDLE;
    }
    let Ok(made) = Paths::boxed(alloc) else {
        return NO_MEMORY;
    };
    let Ok(room) = HandleContents::room(alloc) else {
        return NO_MEMORY;
    };
    paths.put(room, HandleValue::Paths(Boxed::of_box(made)));
    OK
}

// On a table, by the CPU in a handle.
#[inline(always)]
fn begin_on(
    table: &mut Paths,
    cpu: &mut Handle,
    number: u32,
    thread: u32,
    stamp: u64,
    at: &mut u32,
    id: &mut u64,
) -> u32
    ensures answers { ToldOnCpu (BeginTold number thread stamp result) (named at.old id.old) (named at.new id.new) table.old table.new (held_in cpu.old) result (held_in cpu.new) }
    ensures stays { is_full cpu.new ≡ is_full cpu.old }
{
    lent!(cpu as Cpu(side), BAD_HANDLE => side.begin_path(table, number, thread, stamp, at, id))
}

/// A path begins, in a speculation that is opened for it.
#[unsafe(no_mangle)]
pub extern "C" fn dspec_paths_begin(
    paths: &mut Handle,
    cpu: &mut Handle,
    number: u32,
    thread: u32,
    stamp: u64,
    at: &mut u32,
    id: &mut u64,
) -> u32
    ensures answers { ToldOnTable (BeginTold number thread stamp result) (named at.old id.old) (named at.new id.new)
        (held_in paths.old) (held_in cpu.old) result (held_in paths.new) (held_in cpu.new) }
    ensures table { is_full paths.new ≡ is_full paths.old }
    ensures side { is_full cpu.new ≡ is_full cpu.old }
{
    lent!(paths as Paths(table), BAD_HANDLE => begin_on(table.lend(), cpu, number, thread, stamp, at, id))
}

#[inline(always)]
fn turn_on(table: &mut Paths, cpu: &mut Handle, place: u32, id: u64, newest: &mut u64) -> u32
    ensures answers { ToldOnCpu (TurnTold place id result) newest.old newest.new table.old table.new (held_in cpu.old) result (held_in cpu.new) }
    ensures stays { is_full cpu.new ≡ is_full cpu.old }
{
    lent!(cpu as Cpu(side), BAD_HANDLE => side.turn_path(table, place, id, newest))
}

/// A path whose speculation is full goes on in a new one, which is its new name.
#[unsafe(no_mangle)]
pub extern "C" fn dspec_paths_turn(
    paths: &mut Handle,
    cpu: &mut Handle,
    place: u32,
    id: u64,
    newest: &mut u64,
) -> u32
    ensures answers { ToldOnTable (TurnTold place id result) newest.old newest.new (held_in paths.old) (held_in cpu.old) result (held_in paths.new) (held_in cpu.new) }
    ensures table { is_full paths.new ≡ is_full paths.old }
    ensures side { is_full cpu.new ≡ is_full cpu.old }
{
    lent!(paths as Paths(table), BAD_HANDLE => turn_on(table.lend(), cpu, place, id, newest))
}

#[inline(always)]
fn keep_on(
    table: &mut Paths,
    cpu: &mut Handle,
    place: u32,
    id: u64,
    waits: bool,
    count: &mut u32,
) -> u32
    ensures answers { ToldOnCpu (KeepPartTold place id waits result) count.old count.new table.old table.new (held_in cpu.old) result (held_in cpu.new) }
    ensures stays { is_full cpu.new ≡ is_full cpu.old }
{
    lent!(cpu as Cpu(side), BAD_HANDLE => side.keep_part(table, place, id, waits, count))
}

/// Keeps a part of a path: its older records, where it has such, else its last ones.
#[unsafe(no_mangle)]
pub extern "C" fn dspec_paths_keep_part(
    paths: &mut Handle,
    cpu: &mut Handle,
    place: u32,
    id: u64,
    waits: bool,
    count: &mut u32,
) -> u32
    ensures answers { ToldOnTable (KeepPartTold place id waits result) count.old count.new (held_in paths.old) (held_in cpu.old) result (held_in paths.new) (held_in cpu.new) }
    ensures table { is_full paths.new ≡ is_full paths.old }
    ensures side { is_full cpu.new ≡ is_full cpu.old }
{
    lent!(paths as Paths(table), BAD_HANDLE => keep_on(table.lend(), cpu, place, id, waits, count))
}

#[inline(always)]
fn discard_on(table: &mut Paths, cpu: &mut Handle, place: u32, id: u64) -> u32
    ensures answers { OnCpu (DiscardTold place id result table.old table.new) ((table.new ≡ table.old) × ⊤) (held_in cpu.old) result (held_in cpu.new) }
    ensures stays { is_full cpu.new ≡ is_full cpu.old }
{
    lent!(cpu as Cpu(side), BAD_HANDLE => side.discard_path(table, place, id))
}

/// Throws a path away.
#[unsafe(no_mangle)]
pub extern "C" fn dspec_paths_discard(
    paths: &mut Handle,
    cpu: &mut Handle,
    place: u32,
    id: u64,
) -> u32
    ensures answers { OnTable (DiscardTold place id result) ⊤ (held_in paths.old) (held_in cpu.old) result (held_in paths.new) (held_in cpu.new) }
    ensures table { is_full paths.new ≡ is_full paths.old }
    ensures side { is_full cpu.new ≡ is_full cpu.old }
{
    lent!(paths as Paths(table), BAD_HANDLE => discard_on(table.lend(), cpu, place, id))
}

#[inline(always)]
fn lose_on(table: &mut Paths, cpu: &mut Handle, place: u32, id: u64) -> u32
    ensures answers { OnCpu (LoseTold place id result table.old table.new) ((table.new ≡ table.old) × ⊤) (held_in cpu.old) result (held_in cpu.new) }
    ensures stays { is_full cpu.new ≡ is_full cpu.old }
{
    lent!(cpu as Cpu(side), BAD_HANDLE => side.lose_path(table, place, id))
}

/// A path that was to be kept is lost as a whole.
#[unsafe(no_mangle)]
pub extern "C" fn dspec_paths_lose(paths: &mut Handle, cpu: &mut Handle, place: u32, id: u64) -> u32
    ensures answers { OnTable (LoseTold place id result) ⊤ (held_in paths.old) (held_in cpu.old) result (held_in paths.new) (held_in cpu.new) }
    ensures table { is_full paths.new ≡ is_full paths.old }
    ensures side { is_full cpu.new ≡ is_full cpu.old }
{
    lent!(paths as Paths(table), BAD_HANDLE => lose_on(table.lend(), cpu, place, id))
}

/// A path is this thread's from now on.
#[unsafe(no_mangle)]
pub extern "C" fn dspec_paths_adopt(paths: &mut Handle, place: u32, id: u64, thread: u32) -> u32
    ensures answers { OnTableAlone (AdoptTold place id thread result) ⊤ (held_in paths.old) result (held_in paths.new) }
    ensures stays { is_full paths.new ≡ is_full paths.old }
{
    lent!(paths as Paths(table), BAD_HANDLE => of_there(table.lend().adopt(&key_of(place, id), thread)))
}

/// Whose paths a thread's number means.
fn whose_paths(thread: u32) -> WhosePaths
    ensures { result ≡ whose_of thread }
{
    match thread {
        0 => WhosePaths::All,
        _ => WhosePaths::Thread(thread),
    }
}

// On a table.
fn open_of(table: &Paths, place: u32, thread: u32, told: &mut COpenPath) -> u32
    ensures { OpenOfTold place thread result told.old told.new table.now table.now }
{
    let Some(path) = table.open_of(place, whose_paths(thread)) else {
        return VOID;
    };
    *told = COpenPath::of(&path);
    OK
}

/// The path that is open at a place, of a thread, or with 0 of any.
#[unsafe(no_mangle)]
pub extern "C" fn dspec_paths_open_of(
    paths: &mut Handle,
    place: u32,
    thread: u32,
    told: &mut COpenPath,
) -> u32
    ensures answers { OnTableAlone (OpenOfTold place thread result told.old told.new) (told.new ≡ told.old) (held_in paths.old) result (held_in paths.new) }
    ensures stays { is_full paths.new ≡ is_full paths.old }
{
    lent!(paths as Paths(table), BAD_HANDLE => open_of(table.lend(), place, thread, told))
}

// Of a table.
fn counts_to(table: &Paths, counts: &mut CPathCounts) -> u32
    ensures { CountsTold result counts.new table.now table.now }
{
    *counts = CPathCounts::of(&table.counts());
    OK
}

/// How many paths began, and what became of those that are over.
#[unsafe(no_mangle)]
pub extern "C" fn dspec_paths_counts(paths: &mut Handle, counts: &mut CPathCounts) -> u32
    ensures answers { OnTableAlone (CountsTold result counts.new) (counts.new ≡ counts.old) (held_in paths.old) result (held_in paths.new) }
    ensures stays { is_full paths.new ≡ is_full paths.old }
{
    lent!(paths as Paths(table), BAD_HANDLE => counts_to(table.lend(), counts))
}
