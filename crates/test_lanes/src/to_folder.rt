//! A session that is traced into a folder of the system by one call.
use crate::disk::free_path;
use dspec::{Closed, Config, Enablings, Lane, Probe, Probes, RecordSink, Recording, Work, Worker};
use dspec_ctf_sink::FolderFault;
use dspec_trace_reading::{
    FolderPlace, StampClock, ToFolderFault, trace_to_folder, trace_to_timed_folder,
    trace_workers_to_folder, trace_workers_to_timed_folder,
};
use std::fs;
use std::sync::atomic::{AtomicU64, Ordering};
use std::test::Fail;

/// It records once.
#[derive(Drop)]
struct Once {
    probe: Probe<(u32,)>,
}

impl Work<Enablings> for Once {
    fn work(&self, lane: &mut Lane<'_, Enablings>) {
        if let Ok(probe) = self.probe.on(lane) {
            probe.record(lane, 0, (7,));
        }
    }
}

impl Worker<Enablings> for Once {
    fn work(&mut self, lane: &mut Lane<'_, Enablings>) {
        if let Ok(probe) = self.probe.on(lane) {
            probe.record(lane, 5, (7,));
        }
    }
}

/// It records once, and counts how often it runs, which all its runs share.
#[derive(Drop)]
struct Counted {
    once: Once,
    runs: AtomicU64,
}

impl Work<Enablings> for Counted {
    fn work(&self, lane: &mut Lane<'_, Enablings>) {
        self.runs.fetch_add(1, Ordering::SeqCst);
        Work::work(&self.once, lane);
    }
}

impl Counted {
    /// It hasn't run.
    fn new(probe: Probe<(u32,)>) -> Counted {
        Counted {
            once: Once { probe },
            runs: AtomicU64::new(0),
        }
    }

    /// How often it ran.
    fn runs(&self) -> u64 {
        self.runs.load(Ordering::SeqCst)
    }
}

/// Whether a folder has files of these names, and nothing else.
fn has_alone(rt: &HostRuntime, folder: &str, names: &[&str]) -> Result<bool, Fail> {
    let mut count = 0usize;
    for entry in fs::read_dir(rt, folder)? {
        let entry = entry?;
        if !names.iter().any(|name| *name == entry.file_name()) {
            return Ok(false);
        }
        count = count.saturating_add(1);
    }
    Ok(count == names.len())
}

/// How many records a CPU accepted, where there is such a CPU.
fn accepted_by(closed: &Closed, cpu: u32) -> u64 {
    if cpu < closed.cpus() {
        closed.report(cpu).accepted
    } else {
        0
    }
}

/// The record is in a packet of CPU 0's file, and in the sink. A second session isn't traced there, and its sink gets nothing.
#[test]
fn a_session_in_a_folder(rt: HostRuntime) -> Result<(), Fail> {
    let path = free_path(&rt, "a_session_in_a_folder")?;
    let mut probes = Probes::unstamped(rt.alloc());
    let probe = probes.probe("once", &["number"])?;
    let (work, kept) = (Once { probe }, RecordSink::new(rt.alloc()));
    let config = Config::of(1, 1, 64, 64);
    let (path, name) = (path.as_str(), "test");
    let place = FolderPlace { path, name };
    let (kept, traced) = trace_to_folder(&rt, &rt, &config, &probes, place, &work, kept);
    let traced = traced?;
    assert!(rt; traced.lost.is_none() && accepted_by(&traced.closed, 0) == 1);
    assert!(rt; kept.records()?.len() == 1);
    let file = format!(in rt.alloc(); "{path}/cpu_0")?;
    assert!(rt; fs::metadata(&rt, file.as_str())?.len() == 1024);
    assert!(rt; has_alone(&rt, path, &["metadata", "cpu_0"])?);
    let kept = RecordSink::new(rt.alloc());
    let (kept, refused) = trace_to_folder(&rt, &rt, &config, &probes, place, &work, kept);
    assert!(rt; refused.err() == Some(ToFolderFault::Folder(FolderFault::NotEmpty)));
    assert!(rt; kept.records()?.is_empty());
    fs::remove_dir_all(&rt, path)?;
    Ok(())
}

/// A work that all share runs once for the one CPU, and not at all where the folder is refused, which has the metadata and the CPU's file alone.
#[test]
fn work_runs_once_in_a_folder(rt: HostRuntime) -> Result<(), Fail> {
    let path = free_path(&rt, "work_runs_once_in_a_folder")?;
    let mut probes = Probes::unstamped(rt.alloc());
    let work = Counted::new(probes.probe("once", &["number"])?);
    let config = Config::of(1, 1, 64, 64);
    let (path, name, none) = (path.as_str(), "test", None::<RecordSink>);
    let place = FolderPlace { path, name };
    let (none, traced) = trace_to_folder(&rt, &rt, &config, &probes, place, &work, none);
    assert!(rt; traced?.lost.is_none() && work.runs() == 1);
    assert!(rt; has_alone(&rt, path, &["metadata", "cpu_0"])?);
    let (_none, refused) = trace_to_folder(&rt, &rt, &config, &probes, place, &work, none);
    assert!(rt; refused.err() == Some(ToFolderFault::Folder(FolderFault::NotEmpty)));
    assert!(rt; work.runs() == 1 && has_alone(&rt, path, &["metadata", "cpu_0"])?);
    fs::remove_dir_all(&rt, path)?;
    Ok(())
}

/// The same by time.
#[test]
fn work_runs_once_in_a_timed_folder(rt: HostRuntime) -> Result<(), Fail> {
    let path = free_path(&rt, "work_runs_once_in_a_timed_folder")?;
    let mut probes = Probes::new(rt.alloc());
    let work = Counted::new(probes.probe("once", &["number"])?);
    let clock = StampClock {
        hertz: 1000,
        start: None,
    };
    let config = Config::of(1, 1, 64, 64);
    let (path, name, none) = (path.as_str(), "test", None::<RecordSink>);
    let place = FolderPlace { path, name };
    let (none, traced) = trace_to_timed_folder(
        &rt, &rt, &config, &probes, place, clock, &work, none,
    );
    assert!(rt; traced?.lost.is_none() && work.runs() == 1);
    assert!(rt; has_alone(&rt, path, &["metadata", "cpu_0_0"])?);
    let (_none, refused) = trace_to_timed_folder(
        &rt, &rt, &config, &probes, place, clock, &work, none,
    );
    assert!(rt; refused.err() == Some(ToFolderFault::Folder(FolderFault::NotEmpty)));
    assert!(rt; work.runs() == 1 && has_alone(&rt, path, &["metadata", "cpu_0_0"])?);
    fs::remove_dir_all(&rt, path)?;
    Ok(())
}

/// Two workers, which stand at their places again: each CPU's record is in a packet of its file.
#[test]
fn workers_in_a_folder(rt: HostRuntime) -> Result<(), Fail> {
    let path = free_path(&rt, "workers_in_a_folder")?;
    let mut probes = Probes::unstamped(rt.alloc());
    let probe = probes.probe("once", &["number"])?;
    let mut workers = Vec::new(rt.alloc());
    workers.push(Once { probe })?;
    workers.push(Once { probe })?;
    let config = Config::of(64, 1, 64, 64);
    let (path, name) = (path.as_str(), "test");
    let place = FolderPlace { path, name };
    let none = None::<RecordSink>;
    let (none, traced) = trace_workers_to_folder(
        &rt,
        &rt,
        &config,
        &probes,
        place,
        &mut workers,
        none,
    );
    let traced = traced?;
    assert!(rt; none.is_none() && workers.len() == 2 && traced.closed.cpus() == 2);
    assert!(rt; traced.lost.is_none() && accepted_by(&traced.closed, 1) == 1);
    let file = format!(in rt.alloc(); "{path}/cpu_1")?;
    assert!(rt; fs::metadata(&rt, file.as_str())?.len() == 1024);
    assert!(rt; has_alone(&rt, path, &["metadata", "cpu_0", "cpu_1"])?);
    fs::remove_dir_all(&rt, path)?;
    Ok(())
}

/// By time: the record is in the first file of its CPU, after a session of one work and after one with a worker.
#[test]
fn a_session_in_a_timed_folder(rt: HostRuntime) -> Result<(), Fail> {
    let mut probes = Probes::new(rt.alloc());
    let probe = probes.probe("once", &["number"])?;
    let clock = StampClock {
        hertz: 1000,
        start: None,
    };
    let config = Config::of(1, 1, 64, 64);
    let name = "test";
    let path = free_path(&rt, "a_session_in_a_timed_folder")?;
    let path = path.as_str();
    let (place, work, none) = (
        FolderPlace { path, name },
        Once { probe },
        None::<RecordSink>,
    );
    let (none, traced) = trace_to_timed_folder(
        &rt, &rt, &config, &probes, place, clock, &work, none,
    );
    assert!(rt; traced?.lost.is_none());
    let file = format!(in rt.alloc(); "{path}/cpu_0_0")?;
    assert!(rt; fs::metadata(&rt, file.as_str())?.len() == 1024);
    assert!(rt; has_alone(&rt, path, &["metadata", "cpu_0_0"])?);
    fs::remove_dir_all(&rt, path)?;
    let mut workers = Vec::new(rt.alloc());
    workers.push(work)?;
    let (_none, traced) = trace_workers_to_timed_folder(
        &rt,
        &rt,
        &config,
        &probes,
        place,
        clock,
        &mut workers,
        none,
    );
    assert!(rt; accepted_by(&traced?.closed, 0) == 1);
    assert!(rt; fs::metadata(&rt, file.as_str())?.len() == 1024);
    assert!(rt; has_alone(&rt, path, &["metadata", "cpu_0_0"])?);
    fs::remove_dir_all(&rt, path)?;
    Ok(())
}
