//! The text of a batch that a session handed over, cut short or with a byte changed, as a reader tells of it.
use super::calls::{ask, bare, enablings, service, take, trace, valued};
use super::staging::Stage;
use dspec_deeds::Traced;
use dspec_samples::{
    PADDED_TEXT, WHOLE_TEXTS, cut_fault, damaged, damages, fault_of, is_read, sized,
};
use std::alloc::AllocError;
use std::process::Abort;
use std::test::Fail;

/// The text of the batch that a session of one CPU hands over once it has traced the padded records.
fn taken_text(rt: &(impl Abort + AllocGlobal)) -> Result<[u8; 32], AllocError> {
    let mut stage = Stage::start(rt.alloc(), &sized(1, 1, 32, 32), enablings())?;
    stage.plays(
        rt,
        &[
            trace(0, bare(1), Traced::Kept),
            trace(0, valued(2, 7), Traced::Kept),
            trace(0, valued(2, 8), Traced::Dropped),
            trace(0, valued(4, 9), Traced::Kept),
            trace(0, bare(1), Traced::Dropped),
            ask(0),
            service(0, true, 0),
            take(0, 2, &PADDED_TEXT),
        ],
    );
    let batch = stage.into_out().expect(rt, "a batch");
    let bytes = batch.buffer.bytes();
    assert!(rt; bytes.len() == 32);
    let mut text = [0; 32];
    text.copy_from_slice(bytes);
    Ok(text)
}

#[test]
fn truncated_batches(rt: HostRuntime) -> Result<(), Fail> {
    let (text, schema) = (taken_text(&rt)?, enablings());
    for length in 0..=text.len() {
        assert!(rt;
            fault_of(&schema, &text[..length]) == cut_fault(length),
            "at {length}"
        );
    }
    let records = [bare(1), valued(2, 7), valued(4, 9)];
    for (length, count) in WHOLE_TEXTS {
        let read = is_read(&schema, &text[..length], &records[..count]);
        assert!(rt; read, "at {length}");
    }
    Ok(())
}

#[test]
fn damaged_batches(rt: HostRuntime) -> Result<(), Fail> {
    let (text, schema) = (taken_text(&rt)?, enablings());
    for (at, byte, wanted) in damages() {
        let found = fault_of(&schema, &damaged(text, at, byte));
        assert!(rt; found == wanted, "at {at}");
    }
    let damaged = damaged(text, 4, 1);
    assert!(rt;
        is_read(
            &schema,
            &damaged,
            &[bare(1), bare(1), valued(2, 7), valued(4, 9)]
        )
    );
    Ok(())
}
