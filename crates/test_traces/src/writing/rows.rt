//! A CPU's files in a trace by time that is written while it runs.
use super::by_time::{FIRST, PACKET, SECOND};
use crate::same::{same, stream_of, three_enablings};
use dspec_buffer::ReadFault;
use dspec_ctf::rows::records_of;
use dspec_ctf::{PacketFault, Rows, Run};
use dspec_record::{ReadKind, Rec};
use std::alloc::{AllocError, Global};
use std::test::Fail;

/// Records 1 with these stamps.
fn records_with(alloc: Global, stamps: &[u64]) -> Result<Vec<Rec>, AllocError> {
    let mut records = Vec::new(alloc);
    for stamp in stamps {
        if let Some(record) = Rec::stamped(1, *stamp, &[]) {
            records.push(record)?;
        }
    }
    Ok(records)
}

/// All runs of a batch of records with these stamps.
fn runs_of(alloc: Global, rows: &mut Rows, stamps: &[u64]) -> Result<Vec<Run>, PacketFault> {
    let records = records_with(alloc, stamps)?;
    let mut runs = Vec::new(alloc);
    let mut place = 0;
    for _ in 0..records.len() {
        if let Some(run) = rows.next_run(&records, place)? {
            runs.push(run)?;
            place = run.end;
        }
    }
    Ok(runs)
}

/// A run.
fn run(file: usize, end: usize) -> Run {
    Run { file, end }
}

#[test]
fn worked_runs(rt: HostRuntime) -> Result<(), Fail> {
    let mut rows = Rows::new();
    let Ok(runs) = runs_of(rt.alloc(), &mut rows, &[10, 20, 5, 15, 20, 30]) else {
        return Err(Fail::from(AllocError));
    };
    let wanted = [run(0, 2), run(1, 4), run(0, 6)];
    same(&rt, runs.as_slice() == wanted.as_slice(), true);
    let Ok(runs) = runs_of(rt.alloc(), &mut rows, &[15, 16, 29, 30, 14, 31]) else {
        return Err(Fail::from(AllocError));
    };
    let wanted = [run(1, 3), run(0, 4), run(2, 5), run(0, 6)];
    same(&rt, runs.as_slice() == wanted.as_slice(), true);
    Ok(())
}

#[test]
fn equal_stamps(rt: HostRuntime) -> Result<(), Fail> {
    let mut rows = Rows::new();
    let Ok(runs) = runs_of(rt.alloc(), &mut rows, &[0, 0, 7, 7, 6, 7, 6]) else {
        return Err(Fail::from(AllocError));
    };
    let wanted = [run(0, 4), run(1, 5), run(0, 6), run(1, 7)];
    same(&rt, runs.as_slice() == wanted.as_slice(), true);
    let nothing = rows.next_run(&[], 0);
    same(&rt, nothing == Ok(None), true);
    Ok(())
}

/// The stamps 64, 63, .. 1 have a file each, and 0 would have one more.
#[test]
fn one_file_too_many(rt: HostRuntime) -> Result<(), Fail> {
    let mut stamps = Vec::new(rt.alloc());
    for back in 0..65u64 {
        stamps.push(64 - back)?;
    }
    let records = records_with(rt.alloc(), &stamps)?;
    let mut rows = Rows::new();
    for place in 0..64usize {
        let found = rows.next_run(&records, place);
        same(&rt, found == Ok(Some(run(place, place + 1))), true);
    }
    let found = rows.next_run(&records, 64);
    same(&rt, found == Err(PacketFault::Clock(64)), true);
    let found = rows.next_run(&records, 0);
    same(&rt, found == Ok(Some(run(0, 1))), true);
    Ok(())
}

/// A packet filled up to 1,024 bytes, or 8,192 bits, which it tells as its size at this place.
pub(super) fn filled(alloc: Global, place: usize, packet: &[u8]) -> Result<Vec<u8>, AllocError> {
    let mut bytes = Vec::new(alloc);
    for byte in packet {
        let size = match bytes.len().wrapping_sub(place) {
            0 => 0,
            1 => 32,
            2 | 3 | 4 | 5 | 6 | 7 => 0,
            _ => *byte,
        };
        bytes.push(size)?;
    }
    bytes.resize(1024, 0)?;
    Ok(bytes)
}

#[test]
fn packet_of_a_run(rt: HostRuntime) -> Result<(), Fail> {
    let enablings = three_enablings()?.stamped();
    let (Ok(mut records), Ok(second)) = (
        records_of(rt.alloc(), &enablings, &FIRST),
        records_of(rt.alloc(), &enablings, &SECOND),
    ) else {
        return Err(Fail::from(AllocError));
    };
    records.extend_from_slice(&second)?;
    records.sort_by_key(|record| record.stamp())?;
    if dspec_ctf::first_refused(&enablings, &records).is_some() {
        return Err(Fail::from(AllocError));
    }
    let Ok(packet) = stream_of(&enablings, 7).run_packet(rt.alloc(), 0, &records) else {
        return Err(Fail::from(AllocError));
    };
    let wanted = filled(rt.alloc(), 48, &PACKET)?;
    same(&rt, packet.as_slice() == wanted.as_slice(), true);
    Ok(())
}

#[test]
fn text_that_is_none(rt: HostRuntime) -> Result<(), Fail> {
    let enablings = three_enablings()?.stamped();
    let found = records_of(rt.alloc(), &enablings, &SECOND[..23]).err();
    let kind = ReadKind::Truncated;
    let fault = PacketFault::Text(ReadFault { kind, at: 12 });
    same(&rt, found, Some(fault));
    Ok(())
}

/// A CPU whose clock rises with each record: what it records at once and the paths of its slots, as they come into its trace.
#[derive(Drop)]
struct Made {
    dice: u64,
    clock: u64,
    slots: u64,
    paths: Vec<Vec<u64>>,
    trace: Vec<u64>,
}

impl Made {
    /// A number below this one.
    fn below(&mut self, most: u64) -> u64 {
        self.dice = self
            .dice
            .wrapping_mul(6_364_136_223_846_793_005)
            .wrapping_add(1_442_695_040_888_963_407);
        (self.dice >> 33) % most.max(1)
    }

    /// Records at once, or in a slot's path, or keeps or throws away that path.
    fn step(&mut self) -> Result<(), AllocError> {
        let slot = (self.below(self.slots) % (1 << 16)) as usize;
        let deed = self.below(8);
        self.clock = self.clock.wrapping_add(self.below(3));
        let Some(path) = self.paths.get_mut(slot) else {
            return Ok(());
        };
        match deed {
            0 | 1 | 2 => self.trace.push(self.clock)?,
            3 => {
                self.trace.extend_from_slice(path)?;
                path.clear();
            }
            4 => path.clear(),
            _ => path.push(self.clock)?,
        }
        Ok(())
    }
}

/// The trace of a CPU with so many slots.
fn stamps_of(alloc: Global, seed: u64, slots: usize) -> Result<Vec<u64>, AllocError> {
    let mut paths = Vec::new(alloc);
    for _ in 0..slots {
        paths.push(Vec::new(alloc))?;
    }
    let mut made = Made {
        dice: seed,
        clock: 0,
        slots: slots as u64,
        paths,
        trace: Vec::new(alloc),
    };
    for _ in 0..600u64 {
        made.step()?;
    }
    Ok(made.trace)
}

/// How many files the records with these stamps need, and of how many the stamps fell.
fn files_of(alloc: Global, stamps: &[u64]) -> Result<(usize, u64), PacketFault> {
    let mut rows = Rows::new();
    let mut lasts = [0u64; 64];
    let (mut files, mut fell, mut place) = (0usize, 0u64, 0usize);
    for run in &runs_of(alloc, &mut rows, stamps)? {
        files = files.max(run.file.wrapping_add(1));
        for stamp in stamps.get(place..run.end).unwrap_or(&[]) {
            if let Some(last) = lasts.get_mut(run.file) {
                fell = fell.wrapping_add(u64::from(*last > *stamp));
                *last = *stamp;
            }
        }
        place = run.end;
    }
    Ok((files, fell))
}

/// Where the stamps of a CPU rise as it records, as many files suffice as it has slots, and one.
#[test]
fn files_suffice(rt: HostRuntime) -> Result<(), Fail> {
    for seed in 0..20u64 {
        for slots in [1usize, 2, 5, 16] {
            let stamps = stamps_of(rt.alloc(), seed, slots)?;
            let Ok((files, fell)) = files_of(rt.alloc(), &stamps) else {
                return Err(Fail::from(AllocError));
            };
            same(&rt, files <= slots + 1 && fell == 0, true);
        }
    }
    Ok(())
}
