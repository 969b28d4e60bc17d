//! A trace by time in memory: which files a session writes, and what is told where a write is refused.
use dspec::{Config, Enablings, Field, Lane, Work, trace};
use dspec_ctf_sink::{Folder, FolderFault, Loss, Names, Origin, TimedFolder};
use std::alloc::Global;
use std::sync::atomic::{AtomicU64, Ordering};
use std::test::Fail;
use std::thread::Threads;

/// How many bytes were taken of the metadata, of the first file, of the second, and of any other.
#[derive(Drop)]
pub(crate) struct Sizes {
    sizes: [AtomicU64; 4],
    pub writes: AtomicU64,
}

impl Sizes {
    /// No bytes yet.
    pub(crate) fn new() -> Sizes {
        Sizes {
            sizes: [0u8; 4].map(|_| AtomicU64::new(0)),
            writes: AtomicU64::new(0),
        }
    }

    /// How many bytes were taken of a file.
    pub(crate) fn of(&self, place: usize) -> u64 {
        match self.sizes.get(place) {
            Some(size) => size.load(Ordering::SeqCst),
            None => 0,
        }
    }
}

/// A folder that sums the bytes of its files, and refuses the writes from one on.
#[derive(Drop)]
pub(crate) struct Summed<'a> {
    pub sizes: &'a Sizes,
    pub most: u64,
}

/// Where a file's bytes are summed.
fn place_of(name: &str) -> usize {
    match name {
        "metadata" => 0,
        "cpu_0_0" => 1,
        "cpu_0_1" => 2,
        _ => 3,
    }
}

impl<'a> Folder for Summed<'a> {
    ghost use Rattle.std.specs.Prelude.{None};

    ghost written = { λ _. None };

    fn add(&mut self, _alloc: Global, name: &str, bytes: &[u8]) -> Result<(), FolderFault> {
        if self.sizes.writes.fetch_add(1, Ordering::SeqCst) >= self.most {
            return Err(FolderFault::Write(5));
        }
        if let Some(size) = self.sizes.sizes.get(place_of(name)) {
            size.fetch_add(bytes.len() as u64, Ordering::SeqCst);
        }
        Ok(())
    }
}

/// A path whose two records come after a record with a stamp between theirs, and a record that is dropped.
#[derive(Drop)]
struct Crossed {}

impl Work<Enablings> for Crossed {
    fn work(&self, lane: &mut Lane<'_, Enablings>) {
        let path = lane.path();
        let _ = path.record(lane, 1, 5, &[1]);
        let _ = lane.record(1, 10, &[2]);
        let _ = path.record(lane, 1, 15, &[3]);
        path.commit(lane);
        let _ = lane.record(1, 20, &[4]);
        let _ = lane.record(1, 25, &[5]);
    }
}

/// How a session ends whose sink takes so many writes. None where there is none.
fn ended<R: Threads + Sync>(
    rt: &R,
    alloc: Global,
    sizes: &Sizes,
    most: u64,
) -> Option<Result<(), Loss>> {
    let mut schema = Enablings::new();
    let _ = schema.enable(&[Field::Four]);
    let schema = schema.stamped();
    let folder = Summed { sizes, most };
    let origin = Origin::of([0; 16]);
    let begun = TimedFolder::of(alloc, folder, &origin, 1000, &schema, &Names::Numbered);
    let Ok(mut sink) = begun else {
        return None;
    };
    let config = Config::of(1, 4, 64, 64);
    if trace(rt, alloc, &config, schema, &Crossed {}, &mut sink).is_err() {
        return None;
    }
    Some(sink.finish())
}

/// The stamps are 10, 5, 15, 20 in the order of the trace, and a fifth record has no room: the first file has 10, 15 and 20, in two
/// packets, after the two that tell of what was missed; the second has 5. Each packet has 1,024 bytes.
#[test]
fn a_file_a_row(rt: HostRuntime) -> Result<(), Fail> {
    let sizes = Sizes::new();
    let ended = ended(&rt, rt.alloc(), &sizes, 100);
    assert!(rt; ended == Some(Ok(())));
    assert!(rt; sizes.of(1) == 4 * 1024);
    assert!(rt; sizes.of(2) == 1024);
    assert!(rt; sizes.of(3) == 0);
    Ok(())
}

/// The second run's write is the fourth: it and the record after it are lost.
#[test]
fn a_refused_row(rt: HostRuntime) -> Result<(), Fail> {
    let sizes = Sizes::new();
    let ended = ended(&rt, rt.alloc(), &sizes, 3);
    let loss = Loss {
        cpu: 0,
        row: Some(1),
        fault: FolderFault::Write(5),
        records: 3,
    };
    assert!(rt; ended == Some(Err(loss)));
    assert!(rt; sizes.writes.load(Ordering::SeqCst) >= 4);
    assert!(rt; sizes.of(1) == 3 * 1024);
    Ok(())
}
