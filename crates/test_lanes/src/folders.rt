//! A trace folder in memory: what a session writes, and what is told where a write is refused.
use crate::timed_folders::{Sizes, Summed};
use dspec::{Config, Enablings, Field, Lane, Work, trace};
use dspec_ctf_sink::{FolderFault, Loss, Names, TraceFolder};
use std::alloc::Global;
use std::sync::atomic::Ordering;
use std::test::Fail;
use std::thread::Threads;

/// One record.
#[derive(Drop)]
struct One {}

impl Work<Enablings> for One {
    fn work(&self, lane: &mut Lane<'_, Enablings>) {
        let _ = lane.record(1, 0, &[7]);
    }
}

/// How a session of so many lanes ends, each of which records once. None where the metadata was refused, or there is no session.
fn ended<R: Threads + Sync>(
    rt: &R,
    alloc: Global,
    cpus: u32,
    sizes: &Sizes,
    most: u64,
) -> Option<Result<(), Loss>> {
    let mut schema = Enablings::new();
    let _ = schema.enable(&[Field::One]);
    let folder = Summed { sizes, most };
    let begun = TraceFolder::new(alloc, folder, [0; 16], &schema, &Names::Numbered);
    let Ok(mut sink) = begun else {
        return None;
    };
    let config = Config::of(cpus, 4, 64, 64);
    if trace(rt, alloc, &config, schema, &One {}, &mut sink).is_err() {
        return None;
    }
    Some(sink.finish())
}

/// How it ends, how many writes were asked for, and how many bytes of packets were taken.
fn written<R: Threads + Sync>(
    rt: &R,
    alloc: Global,
    cpus: u32,
    most: u64,
) -> (Option<Result<(), Loss>>, u64, u64) {
    let sizes = Sizes::new();
    let ended = ended(rt, alloc, cpus, &sizes, most);
    (ended, sizes.writes.load(Ordering::SeqCst), sizes.of(3))
}

/// The first fault, and how many records were lost.
fn lost_of(ended: Option<Result<(), Loss>>) -> Option<(FolderFault, u64)> {
    match ended {
        Some(Err(loss)) => Some((loss.fault, loss.records)),
        _ => None,
    }
}

#[test]
fn a_packet_a_batch(rt: HostRuntime) -> Result<(), Fail> {
    assert!(rt; written(&rt, rt.alloc(), 1, 10) == (Some(Ok(())), 2, 1024));
    assert!(rt; written(&rt, rt.alloc(), 2, 10) == (Some(Ok(())), 3, 2048));
    Ok(())
}

/// A record whose write was refused is counted as lost; the session goes on, and so do the writes of other CPUs, and of this one, if only to
/// tell it.
#[test]
fn a_refused_write_is_told(rt: HostRuntime) -> Result<(), Fail> {
    assert!(rt; written(&rt, rt.alloc(), 2, 0) == (None, 1, 0));
    let (ended, writes, bytes) = written(&rt, rt.alloc(), 2, 1);
    assert!(rt; writes >= 3 && bytes == 0);
    assert!(rt; lost_of(ended) == Some((FolderFault::Write(5), 2)));
    let (ended, writes, bytes) = written(&rt, rt.alloc(), 2, 2);
    assert!(rt; writes >= 3 && bytes == 1024);
    assert!(rt; lost_of(ended) == Some((FolderFault::Write(5), 1)));
    Ok(())
}
