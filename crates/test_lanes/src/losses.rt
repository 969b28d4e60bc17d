//! What a trace folder loses where writes are refused: it is counted, and told by the next packet that is written.
use dspec::{Batch, Enablings, Field, Rec, Schema, Sink};
use dspec_buffer::{ByteBuffer, TraceBuffer};
use dspec_ctf_sink::{Folder, FolderFault, Loss, Lossy, Names, Origin, TimedFolder, TraceFolder};
use std::alloc::Global;
use std::process::Abort;
use std::sync::atomic::{AtomicU64, Ordering};
use std::test::Fail;

/// The number that Linux gives a device without space left, ENOSPC.
const FULL: i32 = 28;

/// How many writes were asked for, and how many missed events the last packet tells that was taken.
#[derive(Drop)]
pub(crate) struct Seen {
    writes: AtomicU64,
    missed: AtomicU64,
}

impl Seen {
    /// No writes yet.
    pub(crate) fn new() -> Seen {
        Seen {
            writes: AtomicU64::new(0),
            missed: AtomicU64::new(0),
        }
    }

    /// How many writes were asked for, and how many missed events were told last.
    pub(crate) fn told(&self) -> (u64, u64) {
        (
            self.writes.load(Ordering::SeqCst),
            self.missed.load(Ordering::SeqCst),
        )
    }
}

/// A folder that refuses the writes whose bits are set, the first of which is bit 0. Of what it takes it reads how many missed events the last
/// packet tells: a number of eight bytes at this place of the packet.
#[derive(Drop)]
pub(crate) struct Flaky<'a> {
    pub seen: &'a Seen,
    pub refused: u64,
    pub place: u8,
}

/// The number of eight bytes from a place on; 0 where there are none.
pub(crate) fn number_at(bytes: &[u8], place: usize) -> u64 {
    let number = bytes.get(place..);
    match number.and_then(|rest| rest.first_chunk::<8>()) {
        Some(eight) => u64::from_le_bytes(*eight),
        None => 0,
    }
}

impl<'a> Folder for Flaky<'a> {
    ghost use Rattle.std.specs.Prelude.{None};

    ghost written = { λ _. None };

    fn add(&mut self, _alloc: Global, _name: &str, bytes: &[u8]) -> Result<(), FolderFault> {
        let number = self.seen.writes.fetch_add(1, Ordering::SeqCst);
        if number < 64 && self.refused & (1 << number) != 0 {
            return Err(FolderFault::Write(FULL));
        }
        // Packets of one write stand one after another, of 1,024 bytes each.
        let last = bytes.len().saturating_sub(1024);
        let missed = number_at(&bytes[last..], usize::from(self.place));
        self.seen.missed.store(missed, Ordering::SeqCst);
        Ok(())
    }
}

/// A batch of records with these stamps.
pub(crate) fn batch<R: Abort + AllocGlobal>(
    rt: &R,
    schema: &Enablings,
    cpu: u32,
    drops: u64,
    stamps: &[u64],
) -> Result<Batch, Fail> {
    let mut buffer = <ByteBuffer as TraceBuffer<Enablings>>::make(rt.alloc(), 256)?;
    for stamp in stamps {
        let rec = Rec::stamped(1, *stamp, &[7]).expect(rt, "one value");
        assert!(rt; schema.accepts(&rec));
        assert!(rt; buffer.push(schema, &rec));
    }
    Ok(Batch { cpu, drops, buffer })
}

/// What a CPU lost of a device without space left.
fn lost(cpu: u32, row: Option<usize>, records: u64) -> Option<Loss> {
    let fault = FolderFault::Write(FULL);
    Some(Loss {
        cpu,
        row,
        fault,
        records,
    })
}

/// Of CPU 1 the batch of the third write is refused: its three records, its two drops and one drop of the next batch are told by the next
/// packet. Of CPU 0 nothing is. An empty batch tells what isn't told yet.
#[test]
fn a_refused_batch_is_told(rt: HostRuntime) -> Result<(), Fail> {
    let mut schema = Enablings::new();
    let _ = schema.enable(&[Field::One]);
    let seen = Seen::new();
    let folder = Flaky {
        seen: &seen,
        refused: 0b100100,
        place: 40,
    };
    let mut sink = TraceFolder::new(rt.alloc(), folder, [0; 16], &schema, &Names::Numbered)?;
    sink.batch(&schema, &batch(&rt, &schema, 1, 0, &[0, 0])?);
    assert!(rt; seen.told() == (2, 0) && sink.last_loss().is_none());
    sink.batch(&schema, &batch(&rt, &schema, 1, 2, &[0, 0, 0])?);
    assert!(rt; seen.told() == (3, 0) && sink.last_loss() == lost(1, None, 3));
    sink.batch(&schema, &batch(&rt, &schema, 1, 1, &[0])?);
    assert!(rt; seen.told() == (4, 6) && sink.last_loss().is_none());
    sink.batch(&schema, &batch(&rt, &schema, 0, 0, &[0])?);
    assert!(rt; seen.told() == (5, 0));
    sink.batch(&schema, &batch(&rt, &schema, 1, 0, &[0, 0])?);
    assert!(rt; seen.told() == (6, 0) && sink.last_loss() == lost(1, None, 2));
    sink.batch(&schema, &batch(&rt, &schema, 1, 0, &[])?);
    assert!(rt; seen.told() == (7, 8) && sink.last_loss().is_none());
    sink.batch(&schema, &batch(&rt, &schema, 1, 0, &[])?);
    assert!(rt; seen.told() == (7, 8));
    assert!(rt; sink.finish().err() == lost(1, None, 5));
    Ok(())
}

/// By time: after the run that is refused the rest of its batch is lost, two records, and told with the next batch. Where what was missed can't
/// be told, all of a batch is lost.
#[test]
fn a_refused_run_is_told(rt: HostRuntime) -> Result<(), Fail> {
    let mut schema = Enablings::new();
    let _ = schema.enable(&[Field::One]);
    let schema = schema.stamped();
    let (seen, origin) = (Seen::new(), Origin::of([0; 16]));
    let folder = Flaky {
        seen: &seen,
        refused: 0b10010000,
        place: 56,
    };
    let mut sink = TimedFolder::of(rt.alloc(), folder, &origin, 1000, &schema, &Names::Numbered)?;
    sink.batch(&schema, &batch(&rt, &schema, 1, 0, &[10, 20])?);
    assert!(rt; seen.told() == (2, 0) && sink.last_loss().is_none());
    sink.batch(&schema, &batch(&rt, &schema, 1, 1, &[30, 5, 40])?);
    assert!(rt; seen.told() == (5, 1) && sink.last_loss() == lost(1, Some(1), 2));
    sink.batch(&schema, &batch(&rt, &schema, 1, 0, &[50])?);
    assert!(rt; seen.told() == (7, 3) && sink.last_loss().is_none());
    sink.batch(&schema, &batch(&rt, &schema, 1, 2, &[60])?);
    assert!(rt; seen.told() == (8, 3) && sink.last_loss() == lost(1, Some(0), 1));
    sink.batch(&schema, &batch(&rt, &schema, 1, 0, &[])?);
    assert!(rt; seen.told() == (9, 6) && sink.last_loss().is_none());
    assert!(rt; sink.finish().err() == lost(1, Some(1), 3));
    Ok(())
}

/// What a loss says: the file, the fault in the system's words, and how many records.
#[test]
fn a_loss_is_told_in_words(rt: HostRuntime) -> Result<(), Fail> {
    let loss = lost(3, Some(2), 12).expect(&rt, "a loss");
    let text = format!(in rt.alloc(); "{loss}")?;
    let due =
        "cpu_3_2: write fault: No space left on device (os error 28); 12 records weren't written";
    assert!(rt; text.as_str() == due);
    let loss = Loss {
        cpu: 0,
        row: None,
        fault: FolderFault::Cut,
        records: 1,
    };
    let text = format!(in rt.alloc(); "{loss}")?;
    let due = "cpu_0: write fault, and a file ends with a broken packet; 1 records weren't written";
    assert!(rt; text.as_str() == due);
    Ok(())
}
