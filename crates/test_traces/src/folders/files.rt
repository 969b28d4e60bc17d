//! Files: how much of them is whole, what is wrong with them, what they have.
use super::samples::{FILE, metadata};
use crate::same::{UUID, same};
use dspec_ctf_reading::folder::{
    CpuCounts, Ending, FileFault, Whose, Wrong, check_file, count_file, ending_of, whole_len,
};
use dspec_ctf_reading::{EventFault, PacketReadFault};
use std::alloc::Global;
use std::process::Abort;
use std::test::Fail;

#[test]
fn endings(rt: HostRuntime) -> Result<(), Fail> {
    same(&rt, whole_len(true, &FILE), 181);
    same(&rt, ending_of(true, &UUID, &FILE), Ending::Whole);
    same(&rt, ending_of(true, &UUID, &[]), Ending::Whole);
    for length in 1..83 {
        same(&rt, ending_of(true, &UUID, &FILE[..length]), Ending::Cut(0));
    }
    same(&rt, ending_of(true, &UUID, &FILE[..84]), Ending::Cut(83));
    let mut longer = FILE;
    longer[42] = 1;
    longer[50] = 1;
    let broken = Ending::Broken(0, PacketReadFault::AfterFile(66_200));
    same(&rt, ending_of(true, &UUID, &longer), broken);
    longer[83] = 0;
    same(&rt, ending_of(true, &UUID, &longer), Ending::Cut(0));
    Ok(())
}

/// The same packets, filled up by zeros to 96 and to 128 bytes.
fn filled() -> [u8; 224] {
    let mut bytes = [0; 224];
    bytes[..83].copy_from_slice(&FILE[..83]);
    bytes[96..194].copy_from_slice(&FILE[83..]);
    bytes[48] = 0;
    bytes[49] = 3;
    bytes[144] = 0;
    bytes[145] = 4;
    bytes
}

#[test]
fn endings_of_filled_packets(rt: HostRuntime) {
    let bytes = filled();
    same(&rt, whole_len(true, &bytes), 224);
    same(&rt, ending_of(true, &UUID, &bytes), Ending::Whole);
    for length in 97..224 {
        let found = ending_of(true, &UUID, &bytes[..length]);
        same(&rt, found, Ending::Cut(96));
    }
}

/// Where a file is wrong, as CPU 1's file of the trace.
fn wrong_in(alloc: Global, bytes: &[u8]) -> Result<Option<FileFault>, Fail> {
    let whose = Whose { uuid: UUID, cpu: 1 };
    match check_file(alloc, &metadata(alloc)?, &whose, bytes) {
        Ok(()) => Ok(None),
        Err(fault) => Ok(Some(fault)),
    }
}

/// The same of the file with one byte changed.
fn wrong_by(
    rt: &impl Abort,
    alloc: Global,
    place: usize,
    byte: u8,
) -> Result<Option<FileFault>, Fail> {
    let mut bytes = FILE;
    *bytes.get_mut(place).expect(rt, "a byte of the file") = byte;
    wrong_in(alloc, &bytes)
}

#[test]
fn checks_of_filled_packets(rt: HostRuntime) -> Result<(), Fail> {
    let mut bytes = filled();
    same(&rt, wrong_in(rt.alloc(), &bytes)?, None);
    bytes[168] = 10;
    let at = 179;
    let wrong = Wrong::Falls { from: 10, to: 9 };
    let found = wrong_in(rt.alloc(), &bytes)?;
    same(&rt, found, Some(FileFault { at, wrong }));
    bytes[179] = 4;
    let wrong = Wrong::Event(EventFault::Unknown(4));
    let found = wrong_in(rt.alloc(), &bytes)?;
    same(&rt, found, Some(FileFault { at, wrong }));
    Ok(())
}

#[test]
fn checks(rt: HostRuntime) -> Result<(), Fail> {
    let alloc = rt.alloc();
    same(&rt, wrong_by(&rt, alloc, 0, 193)?, None);
    for (place, byte, at, wrong) in [
        (24, 6, 68, Wrong::Falls { from: 6, to: 5 }),
        (32, 4, 0, Wrong::Falls { from: 5, to: 4 }),
        (32, 6, 83, Wrong::Falls { from: 6, to: 5 }),
        (155, 10, 166, Wrong::Falls { from: 10, to: 9 }),
        (19, 254, 0, Wrong::Uuid),
        (64, 2, 0, Wrong::Cpu(2)),
    ] {
        let found = wrong_by(&rt, alloc, place, byte)?;
        same(&rt, found, Some(FileFault { at, wrong }));
    }
    Ok(())
}

/// Compares what is counted of files: events, missed events, packets and files, and the first and last stamp.
fn counts_as(
    rt: &(impl Abort + AllocGlobal),
    files: &[&[u8]],
    wanted: (u64, u64, u64, u64),
    span: (u64, u64),
) -> Result<(), Fail> {
    let mut counts = CpuCounts::new(rt.alloc(), 1, 1)?;
    for bytes in files {
        let counted = count_file(rt.alloc(), &metadata(rt.alloc())?, bytes, &mut counts);
        same(rt, counted.is_ok(), true);
    }
    same(rt, counts.events.as_slice() == [wanted.0].as_slice(), true);
    let found = (counts.total(), counts.missed, counts.packets, counts.files);
    same(rt, found, wanted);
    same(rt, counts.span, Some(span));
    Ok(())
}

/// The second file is of filled packets, its first event is at 2, and before its second packet three were missed.
#[test]
fn counts(rt: HostRuntime) -> Result<(), Fail> {
    counts_as(&rt, &[&FILE], (3, 4, 2, 1), (5, 9))?;
    let mut other = filled();
    other[24] = 2;
    other[72] = 2;
    other[152] = 3;
    counts_as(&rt, &[&FILE, &other], (6, 7, 4, 2), (2, 9))
}
