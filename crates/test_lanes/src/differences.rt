//! What tools tell as missed of a CPU's file: by how much more each packet tells than the one before it.
use crate::losses::{batch, number_at};
use dspec::{Enablings, Field, Sink};
use dspec_ctf_sink::{Folder, FolderFault, Names, TraceFolder};
use std::alloc::Global;
use std::sync::atomic::{AtomicU64, Ordering};
use std::test::Fail;

/// A folder of one CPU's file, and what tools tell of it as missed.
#[derive(Drop)]
struct Told<'a> {
    missed: &'a AtomicU64,
    last: Option<u64>,
}

impl Told<'_> {
    /// One packet more.
    fn read(&mut self, packet: &[u8]) {
        let number = number_at(packet, 40);
        if let Some(before) = self.last {
            self.missed
                .fetch_add(number.saturating_sub(before), Ordering::SeqCst);
        }
        self.last = Some(number);
    }
}

impl<'a> Folder for Told<'a> {
    ghost use Rattle.std.specs.Prelude.{None};

    ghost written = { λ _. None };

    fn add(&mut self, _alloc: Global, name: &str, bytes: &[u8]) -> Result<(), FolderFault> {
        if name == "metadata" {
            return Ok(());
        }
        for packet in bytes.chunks(1024) {
            self.read(packet);
        }
        Ok(())
    }
}

/// Of a file whose first batch carries drops, tools tell those too.
#[test]
fn the_first_batch_is_told(rt: HostRuntime) -> Result<(), Fail> {
    let mut schema = Enablings::new();
    let _ = schema.enable(&[Field::One]);
    let missed = AtomicU64::new(0);
    let folder = Told {
        missed: &missed,
        last: None,
    };
    let mut sink = TraceFolder::new(rt.alloc(), folder, [0; 16], &schema, &Names::Numbered)?;
    sink.batch(&schema, &batch(&rt, &schema, 1, 2, &[0])?);
    assert!(rt; missed.load(Ordering::SeqCst) == 2);
    sink.batch(&schema, &batch(&rt, &schema, 1, 3, &[])?);
    assert!(rt; missed.load(Ordering::SeqCst) == 5);
    sink.batch(&schema, &batch(&rt, &schema, 1, 0, &[0, 0])?);
    assert!(rt; missed.load(Ordering::SeqCst) == 5);
    assert!(rt; sink.finish().is_ok());
    Ok(())
}
