//! Rows of a field's values in Chrome's Trace Event form.
use super::samples::metadata;
use crate::same::same;
use dspec_ctf_reading::folder::{RowRecord, Track, chrome_record, field_text};
use std::test::Fail;

/// The row of all records here.
const TRACK: Track = Track {
    process: 1,
    number: 70,
};

/// A record of CPU 2.
const FIRST: RowRecord<'static> = RowRecord {
    cpu: 2,
    nanoseconds: 1_002_003,
    values: &[1, 65_534],
};

#[test]
fn values(rt: HostRuntime) -> Result<(), Fail> {
    let alloc = rt.alloc();
    let metadata = metadata(alloc)?;
    let step = metadata.events.first().expect(&rt, "the event");
    let mut told = Vec::new(alloc);
    for (values, name) in [
        ([1u64, 65_534], "status"),
        ([2, 65_534], "status"),
        ([1, 65_534], "delta"),
        ([1, 65_534], "delt"),
    ] {
        told.push(match field_text(alloc, step, &values, name)? {
            Some(text) => text,
            None => String::from_str(alloc, "none")?,
        })?;
    }
    let mut line = String::new(alloc);
    for text in &told {
        line.push_str(text.as_str())?;
        line.push('/')?;
    }
    same(&rt, line.as_str(), "not found/2/-2/none/");
    Ok(())
}

#[test]
fn records(rt: HostRuntime) -> Result<(), Fail> {
    let alloc = rt.alloc();
    let metadata = metadata(alloc)?;
    let step = metadata.events.first().expect(&rt, "the event");
    let wanted =
        "{\"ph\":\"i\",\"s\":\"t\",\"pid\":1,\"tid\":70,\"ts\":1002.003,\"name\":\"step\",\"args\":{\"on cpu\":2,\"status\":\"not found\",\"delta\":-2}}";
    let text = chrome_record(alloc, TRACK, step, FIRST)?;
    same(&rt, text.as_str(), wanted);
    Ok(())
}
