//! How many events there are.

ghost use Rattle.std.specs.List.{cons_option, count_by, filter_map, sum};
ghost use Rattle.std.specs.Prelude.{◌≡◌, ◌+◌, ◌==◌, ℕ, [], IsTrue, IsSomeAnd, OnOk, length, slice_index};
ghost use Rattle.dspec_ctf_reading.specs.{Folders.Counts.CountsPacket, Folders.Counts.CountsPackets, Folders.Counts.BeginsFile, Folders.Counts.span_from, Folders.Counts.up_to_64, Reading.read_file};
ghost use Rattle.dspec_ctf_reading.specs.{Told.told_layout};

use super::fault::{FileFault, Wrong};
use super::packet::{ReadPacket, read_packet};
use crate::{Event, Metadata};
use std::alloc::{AllocError, Global};

/// What the files of a CPU have.
#[derive(Debug, Drop)]
pub struct CpuCounts {
    /// The CPU's number.
    pub cpu: u32,
    /// How many events of each kind, by the place of its text in the metadata.
    pub events: Vec<u64>,
    /// How many events were missed.
    pub missed: u64,
    /// How many packets.
    pub packets: u64,
    /// How many files.
    pub files: u64,
    /// The least and the greatest stamp of an event, where there is a clock and an event.
    pub span: Option<(u64, u64)>,
}

impl CpuCounts {
    /// Of no file yet.
    pub fn new(alloc: Global, cpu: u32, kinds: usize) -> Result<CpuCounts, AllocError> {
        Ok(CpuCounts {
            cpu,
            events: vec![in alloc; 0u64; kinds]?,
            missed: 0,
            packets: 0,
            files: 0,
            span: None,
        })
    }

    /// How many events of all kinds.
    pub fn total(&self) -> u64
        ensures { result ≡ up_to_64 (sum self.now.events.items) }
    {
        let mut total = 0u64;
        for count in &self.events {
            total = total.saturating_add(*count);
        }
        total
    }
}

/// Begins another file; answers how many packets there are already, and how many events were missed.
fn begin_file(counts: &mut CpuCounts) -> (u64, u64)
    ensures before { result ≡ (counts.old.packets, counts.old.missed) }
    ensures begun { BeginsFile counts.old counts.new }
{
    counts.files = counts.files.saturating_add(1);
    (counts.packets, counts.missed)
}

/// The span, widened by a stamp where there is one.
fn with_stamp(span: Option<(u64, u64)>, stamp: Option<u64>) -> Option<(u64, u64)>
    ensures { result ≡ span_from span (cons_option stamp []) }
{
    let Some(stamp) = stamp else {
        return span;
    };
    match span {
        Some((least, greatest)) => Some((least.min(stamp), greatest.max(stamp))),
        None => Some((stamp, stamp)),
    }
}

/// The span, widened by the stamps of these events.
fn widened(before: Option<(u64, u64)>, events: &[Event]) -> Option<(u64, u64)>
    ensures { result ≡ span_from before (filter_map (λ e. e.stamp) events.now) }
{
    let mut span = before;
    for event in events {
        span = with_stamp(span, event.stamp);
    }
    span
}

/// Adds these events to the counts, each to the one at its place. False where there is none at its place, or where it would go past 64
/// bits.
pub fn count_events(counts: &mut [u64], events: &[Event]) -> bool
    ensures counted { IsTrue result → (place : ℕ) → slice_index counts.new place ≡ slice_index counts.old place + count_by (λ e. e.place == place) events.now }
    ensures kinds { length counts.new ≡ length counts.old }
{
    for event in events {
        let place = event.place;
        if place >= counts.len() {
            return false;
        }
        let Some(more) = counts[place].checked_add(1) else {
            return false;
        };
        counts[place] = more;
    }
    true
}

/// Adds what a packet has, before whose file so many events were missed. False where a count would go past 64 bits.
fn count_packet(counts: &mut CpuCounts, before: u64, packet: &ReadPacket<'_>) -> bool
    ensures { IsTrue result → CountsPacket before packet.now counts.old counts.new }
{
    if !count_events(&mut counts.events, packet.events.as_slice()) {
        return false;
    }
    counts.span = widened(counts.span, packet.events.as_slice());
    counts.packets = counts.packets.saturating_add(1);
    counts.missed = before.saturating_add(packet.front.discarded);
    true
}

/// Adds what a file of the CPU has. After a fault, what stands before it was added.
pub fn count_file(
    alloc: Global,
    metadata: &Metadata<'_>,
    bytes: &[u8],
    counts: &mut CpuCounts,
) -> Result<(), FileFault>
    ensures added { OnOk result (IsSomeAnd (read_file (told_layout metadata.now) bytes.now) (λ packets. CountsPackets (told_layout metadata.now) packets counts.old counts.new)) }
{
    let mut rest = bytes;
    let (_, before) = begin_file(counts);
    while !rest.is_empty() {
        let at = bytes.len().saturating_sub(rest.len());
        let packet = read_packet(alloc, metadata, at, rest)?;
        if !count_packet(counts, before, &packet) {
            return Err(FileFault {
                at,
                wrong: Wrong::TooMuch,
            });
        }
        rest = packet.after;
    }
    Ok(())
}
