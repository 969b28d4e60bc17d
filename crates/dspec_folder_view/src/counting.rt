//! `specview folder`: what trace folders have, in tables.

use crate::fault::FolderViewFault;
use crate::merging::put_moment;
use crate::opening::OpenedTrace;
use crate::progress::ReadingProgress;
use dspec_command::print_text;
use dspec_ctf_reading::folder::{Base, CpuCounts, count_file, nanoseconds};
use dspec_ctf_reading::{ClockText, Metadata};
use std::alloc::{AllocError, Global};

/// What all files of a folder have, CPU by CPU, and whether each could be read to its end.
#[derive(Drop)]
struct Counted {
    cpus: Vec<CpuCounts>,
    sound: bool,
}

/// Counts the files of a folder, one after another.
fn count_files<'a>(
    rt: &HostRuntime,
    opened: &OpenedTrace<'a>,
    metadata: &Metadata<'_>,
    progress: &mut ReadingProgress,
) -> Result<Counted, FolderViewFault<'a>> {
    let mut counted = Counted {
        cpus: Vec::new(rt.alloc()),
        sound: true,
    };
    for file in &opened.files {
        progress.next(rt);
        let bytes = opened.bytes(rt, *file)?;
        if counted.cpus.last().is_none_or(|cpu| cpu.cpu != file.cpu) {
            let none = CpuCounts::new(rt.alloc(), file.cpu, metadata.events.len())?;
            counted.cpus.push(none)?;
        }
        let Some(counts) = counted.cpus.last_mut() else {
            continue;
        };
        match count_file(rt.alloc(), metadata, bytes.as_slice(), counts) {
            Ok(()) => {}
            Err(fault) if fault.is_memory() => return Err(FolderViewFault::from(AllocError)),
            Err(fault) => {
                counted.sound = false;
                progress.tell_wrong(rt, opened.path, *file, &fault);
            }
        }
    }
    Ok(counted)
}

/// In how many characters a number and a title stand.
fn width_of(title: &str, number: u64) -> usize {
    let mut width = 1usize;
    let mut rest = number / 10;
    for _ in 0..20 {
        if rest == 0 {
            break;
        }
        width = width.saturating_add(1);
        rest /= 10;
    }
    width.max(title.len())
}

/// All CPUs' counts in one, but for the events of each kind.
fn sum_of(alloc: Global, cpus: &[CpuCounts]) -> Result<CpuCounts, AllocError> {
    let mut sum = CpuCounts::new(alloc, 0, 0)?;
    for cpu in cpus {
        sum.files = sum.files.saturating_add(cpu.files);
        sum.packets = sum.packets.saturating_add(cpu.packets);
        sum.missed = sum.missed.saturating_add(cpu.missed);
        sum.span = match (sum.span, cpu.span) {
            (Some((least, greatest)), Some((first, last))) => {
                Some((least.min(first), greatest.max(last)))
            }
            (None, span) => span,
            (span, None) => span,
        };
    }
    Ok(sum)
}

/// How many events all CPUs have.
fn total_of(cpus: &[CpuCounts]) -> u64 {
    let mut total = 0u64;
    for cpu in cpus {
        total = total.saturating_add(cpu.total());
    }
    total
}

/// How many events of the kind at a place all CPUs have.
fn events_at(cpus: &[CpuCounts], place: usize) -> u64 {
    let mut total = 0u64;
    for cpu in cpus {
        total = total.saturating_add(cpu.events.get(place).copied().unwrap_or(0));
    }
    total
}

/// Adds whose trace it is.
fn put_whose(out: &mut String, path: &str, metadata: &Metadata<'_>) -> Result<(), AllocError> {
    let uuid = metadata.uuid;
    write!(out, "{path}\n")?;
    if let Some(process) = metadata.process {
        let (host, name, pid) = (process.host, process.name, process.pid);
        write!(out, "  process  {name}, pid {pid}, on {host}\n")?;
    }
    write!(out, "  uuid     {uuid}\n")
}

/// Adds a span of stamps as times.
fn put_span(out: &mut String, clock: &ClockText<'_>, span: (u64, u64)) -> Result<(), AllocError> {
    let base = if clock.start.is_some() {
        Base::Epoch
    } else {
        Base::Clock
    };
    let (Some(first), Some(last)) = (
        nanoseconds(clock, base, span.0),
        nanoseconds(clock, base, span.1),
    ) else {
        return Ok(());
    };
    let took = last.saturating_sub(first);
    let (seconds, rest) = (took / 1_000_000_000, took % 1_000_000_000);
    write!(out, "  from     ")?;
    put_moment(out, base, first)?;
    write!(out, "\n  to       ")?;
    put_moment(out, base, last)?;
    write!(out, ", {seconds}.{rest:09} s in all\n")
}

/// Adds the counts of CPUs, a row each, and their sums.
fn put_cpus(alloc: Global, out: &mut String, cpus: &[CpuCounts]) -> Result<(), AllocError> {
    let sum = sum_of(alloc, cpus)?;
    let total = total_of(cpus);
    let packets = width_of("packets", sum.packets);
    let events = width_of("events", total);
    let missed = width_of("missed", sum.missed);
    write!(
        out,
        "  cpu  files  {:>packets$}  {:>events$}  {:>missed$}\n",
        "packets", "events", "missed"
    )?;
    for cpu in cpus {
        let (number, files, all) = (cpu.cpu, cpu.files, cpu.total());
        let (packets_of, missed_of) = (cpu.packets, cpu.missed);
        write!(
            out,
            "  {number:>3}  {files:>5}  {packets_of:>packets$}  {all:>events$}  {missed_of:>missed$}\n"
        )?;
    }
    let (files, packets_of, missed_of) = (sum.files, sum.packets, sum.missed);
    write!(
        out,
        "  all  {files:>5}  {packets_of:>packets$}  {total:>events$}  {missed_of:>missed$}\n"
    )
}

/// Adds the counts of events by their names.
fn put_kinds(
    out: &mut String,
    metadata: &Metadata<'_>,
    cpus: &[CpuCounts],
) -> Result<(), AllocError> {
    let count = width_of("count", total_of(cpus));
    write!(out, "  {:>count$}  event\n", "count")?;
    for (place, event) in metadata.events.iter().enumerate() {
        let (number, name) = (events_at(cpus, place), event.name);
        write!(out, "  {number:>count$}  {name}\n")?;
    }
    Ok(())
}

/// The table of a folder.
fn table_of(
    alloc: Global,
    path: &str,
    metadata: &Metadata<'_>,
    cpus: &[CpuCounts],
) -> Result<String, AllocError> {
    let mut out = String::new(alloc);
    put_whose(&mut out, path, metadata)?;
    let sum = sum_of(alloc, cpus)?;
    if let (Some(clock), Some(span)) = (metadata.clock, sum.span) {
        put_span(&mut out, &clock, span)?;
    }
    put_cpus(alloc, &mut out, cpus)?;
    put_kinds(&mut out, metadata, cpus)?;
    Ok(out)
}

/// Prints the table of a folder, and says whether all of its files could be read to their ends.
fn count_folder<'a>(rt: &HostRuntime, path: &'a str) -> Result<bool, FolderViewFault<'a>> {
    let opened = OpenedTrace::of(rt, path)?;
    let metadata = opened.metadata(rt.alloc())?;
    let mut progress = ReadingProgress::new(rt, opened.files.len());
    let counted = count_files(rt, &opened, &metadata, &mut progress);
    progress.clear(rt);
    let counted = counted?;
    let table = table_of(rt.alloc(), path, &metadata, counted.cpus.as_slice())?;
    print_text(rt, table.as_str())?;
    Ok(counted.sound)
}

/// Prints a table for each folder, and says whether all files could be read to their ends.
pub fn count_folders<'a>(rt: &HostRuntime, paths: &[&'a str]) -> Result<bool, FolderViewFault<'a>> {
    let mut sound = true;
    for (place, path) in paths.iter().enumerate() {
        if place > 0 {
            print_text(rt, "\n")?;
        }
        sound = count_folder(rt, path)? && sound;
    }
    Ok(sound)
}
