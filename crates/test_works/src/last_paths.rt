//! Paths that keep their last records: of a path that is longer than its buffers the end is kept, and of no other anything is lost.

ghost use Rattle.std.specs.Prelude.{◌≡◌};
ghost use Rattle.dspec.specs.Lanes.{place_of};

use dspec::{
    BadRecord, Config, Decided, Enablings, Field, Lane, LastPath, Probe, Probes, Rec, RecordSink,
    Recording, Report, Spoken, Worker, closed_cpus, trace_workers,
};
use std::process::Abort;
use std::test::Fail;
use std::thread::Threads;

/// A path of so many records that are numbered, over buffers of eight of them, and what it was told.
#[derive(Drop)]
struct Long {
    records: u64,
    keeps: bool,
    kept: u64,
    cut: u32,
    answers: Option<(Option<Decided>, Decided)>,
}

impl Long {
    const fn of(records: u64, keeps: bool) -> Long {
        Long {
            records,
            keeps,
            kept: 0,
            cut: 0,
            answers: None,
        }
    }
}

// Keeps a path, or throws it away.
fn ended(path: LastPath, lane: &mut Lane<'_, Enablings>, keeps: bool) -> (Option<Decided>, Decided)
    ensures { place_of lane.new ≡ place_of lane.old }
{
    if keeps {
        path.commit(lane)
    } else {
        path.discard(lane)
    }
}

impl Worker<Enablings> for Long {
    fn work(&mut self, lane: &mut Lane<'_, Enablings>) {
        let mut path = lane.last_path();
        for number in 0..self.records {
            if path.record(lane, 1, 0, &[number]) == Ok(Spoken::Kept) {
                self.kept = self.kept.wrapping_add(1);
            }
        }
        self.cut = path.cut();
        self.answers = Some(ended(path, lane, self.keeps));
    }
}

/// What the path was told (how many records it kept, how many were thrown away, the answers to its end), its CPU's report, and the records.
fn traced<R: Abort + AllocGlobal + Threads + Sync>(
    rt: &R,
    nspec: u32,
    bufsize: u32,
    worker: Long,
) -> Result<(Long, Report, Vec<Rec>), Fail> {
    let mut schema = Enablings::new();
    schema.enable(&[Field::One])?;
    let mut workers = Vec::new(rt.alloc());
    assert!(rt; workers.push(worker).is_ok());
    let config = Config::of(1, nspec, bufsize, 64);
    let mut kept = RecordSink::new(rt.alloc());
    let closed = trace_workers(rt, rt.alloc(), &config, schema, &mut workers, &mut kept)?;
    let (Some(worker), Some(cpu)) = (workers.pop(), closed_cpus(&closed).next()) else {
        return Err("no worker".into());
    };
    Ok((worker, *cpu.report, kept.records()?))
}

/// Whether these are the records of the numbers from the first on.
fn are_from(first: u64, records: &[Rec]) -> bool {
    let mut number = first;
    for record in records {
        if Some(*record) != Rec::new(1, &[number]) {
            return false;
        }
        number = number.wrapping_add(1);
    }
    true
}

/// Whether the newer block stands first, so many records from that number on, and then the older one, from this number on.
fn are_blocks(newer: u64, count: usize, older: u64, records: &[Rec]) -> bool {
    if records.len() < count {
        return false;
    }
    let (first, after) = records.split_at(count);
    are_from(newer, first) && are_from(older, after)
}

/// Of 100 the last twelve: the eight of a full buffer, and the four after them. Each turn is a record that is offered twice.
#[test]
fn long_path_keeps_its_last_records(rt: HostRuntime) -> Result<(), Fail> {
    let (path, report, records) = traced(&rt, 3, 256, Long::of(100, true))?;
    assert!(rt; path.kept == 100 && path.cut == 88);
    assert!(rt; path.answers == Some((Some(Decided::Copied(8)), Decided::Copied(4))));
    assert!(rt; records.len() == 12 && are_blocks(96, 4, 88, &records));
    let due = Report {
        offered: 112,
        accepted: 12,
        specdropped: 12,
        discarded: 88,
        ..Report::default()
    };
    assert!(rt; report == due);
    Ok(())
}

/// Where the principal buffer has room for one of both, the path's last records are kept.
#[test]
fn path_without_room_keeps_its_newer(rt: HostRuntime) -> Result<(), Fail> {
    let (path, report, records) = traced(&rt, 3, 64, Long::of(20, true))?;
    assert!(rt; path.kept == 20 && path.cut == 8);
    assert!(rt; path.answers == Some((Some(Decided::Lost(8)), Decided::Copied(4))));
    assert!(rt; records.len() == 4 && are_from(16, &records) && report.lost == 8);
    Ok(())
}

#[test]
fn long_path_is_thrown_away(rt: HostRuntime) -> Result<(), Fail> {
    let (path, report, records) = traced(&rt, 3, 256, Long::of(25, false))?;
    assert!(rt; path.kept == 25 && path.cut == 16 && records.is_empty());
    assert!(rt; path.answers == Some((Some(Decided::Thrown(8)), Decided::Thrown(1))));
    let due = Report {
        offered: 28,
        specdropped: 3,
        discarded: 25,
        ..Report::default()
    };
    assert!(rt; report == due);
    Ok(())
}

/// Two buffers hold 16 records, and one holds eight.
#[test]
fn path_that_fits_is_not_cut(rt: HostRuntime) -> Result<(), Fail> {
    let (path, report, records) = traced(&rt, 3, 256, Long::of(16, true))?;
    assert!(rt; path.kept == 16 && path.cut == 0);
    assert!(rt; path.answers == Some((Some(Decided::Copied(8)), Decided::Copied(8))));
    assert!(rt; records.len() == 16 && are_blocks(8, 8, 0, &records));
    assert!(rt; report.accepted == 16 && report.specdropped == 1);
    let (path, report, records) = traced(&rt, 3, 256, Long::of(8, true))?;
    assert!(rt; path.kept == 8 && path.cut == 0);
    assert!(rt; path.answers == Some((None, Decided::Copied(8))));
    assert!(rt; records.len() == 8 && are_from(0, &records));
    assert!(rt; report.offered == 8 && report.accepted == 8);
    Ok(())
}

/// Without a third slot nothing is thrown away: what comes after two full buffers is dropped.
#[test]
fn path_without_a_slot_stays(rt: HostRuntime) -> Result<(), Fail> {
    let (path, report, records) = traced(&rt, 2, 256, Long::of(20, true))?;
    assert!(rt; path.kept == 16 && path.cut == 0);
    assert!(rt; path.answers == Some((Some(Decided::Copied(8)), Decided::Copied(8))));
    assert!(rt; records.len() == 16 && are_blocks(8, 8, 0, &records));
    let due = Report {
        offered: 21,
        accepted: 16,
        specdropped: 5,
        unavailable: 4,
        ..Report::default()
    };
    assert!(rt; report == due);
    Ok(())
}

/// Records of a probe, one to a buffer, and one that no buffer holds.
#[derive(Drop)]
struct Probed {
    step: Probe<(u64,)>,
    large: Probe<(u64, u64)>,
    due: u64,
}

impl Probed {
    /// Counts an answer that is due.
    fn count(&mut self, is_due: bool) {
        self.due = self.due.wrapping_add(u64::from(is_due));
    }
}

impl Worker<Enablings> for Probed {
    fn work(&mut self, lane: &mut Lane<'_, Enablings>) {
        let (Ok(step), Ok(large)) = (self.step.on(lane), self.large.on(lane)) else {
            return;
        };
        let mut path = lane.last_path();
        let answer = step.record_in_last(lane, &mut path, 0, (0,));
        self.count(answer == Spoken::Kept);
        let answer = step.record_in_last(lane, &mut path, 0, (1,));
        self.count(answer == Spoken::Kept);
        let answer = step.record_in_last(lane, &mut path, 0, (2,));
        self.count(answer == Spoken::Kept);
        let answer = large.record_in_last(lane, &mut path, 0, (7, 7));
        self.count(answer == Spoken::Dropped);
        self.count(path.record(lane, 3, 0, &[9]) == Err(BadRecord));
        self.count(path.opening().id().raw() != 0);
        let answers = path.commit(lane);
        self.count(answers == (Some(Decided::Copied(1)), Decided::Copied(1)));
    }
}

/// A record that no buffer holds is dropped, and throws nothing away.
#[test]
fn record_that_no_buffer_holds_cuts_nothing(rt: HostRuntime) -> Result<(), Fail> {
    let mut probes = Probes::new(rt.alloc());
    let step: Probe<(u64,)> = probes.probe("step", &["number"])?;
    let large: Probe<(u64, u64)> = probes.probe("large", &["left", "right"])?;
    let mut workers = Vec::new(rt.alloc());
    let worker = Probed {
        step,
        large,
        due: 0,
    };
    assert!(rt; workers.push(worker).is_ok());
    let config = Config::of(1, 3, 256, 24);
    let mut kept = RecordSink::new(rt.alloc());
    let closed = trace_workers(
        &rt,
        rt.alloc(),
        &config,
        probes.enablings(),
        &mut workers,
        &mut kept,
    )?;
    assert!(rt; workers.first().map(|worker| worker.due) == Some(7));
    let records = kept.records()?;
    let [first, last] = records.as_slice() else {
        return Err(Fail::from("two records"));
    };
    assert!(rt; step.read(first) == Some((2,)) && step.read(last) == Some((1,)));
    let report = closed_cpus(&closed).next().map(|cpu| *cpu.report);
    let due = Report {
        offered: 7,
        accepted: 2,
        specdropped: 4,
        discarded: 1,
        ..Report::default()
    };
    assert!(rt; report == Some(due));
    Ok(())
}
