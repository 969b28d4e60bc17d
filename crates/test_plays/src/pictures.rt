//! Pictures of small lists of deeds that no tutorial schedule has: what their titles say, and where boxes stand.
use dspec_deeds::{Config, DecideFate, Deed, SpeculateFate, TraceFate};
use dspec_picture::picture;
use dspec_record::{Header, Rec};
use dspec_word::SpecId;
use std::alloc::Global;
use std::process::Abort;
use std::test::Fail;

/// The picture of these deeds on one CPU, of which the consumer took so many batches.
fn drawn(alloc: Global, taken: u64, deeds: &[Deed]) -> Result<String, Fail> {
    let config = Config {
        max_issues: 8,
        max_calls: 8,
        ..Config::of(1, 2, 64, 32)
    };
    match picture(alloc, &config, Header::One, &[taken], deeds) {
        Ok(text) => Ok(text),
        Err(_) => Err("no picture".into()),
    }
}

/// How often a text stands in another; two of them share no byte.
fn times(text: &str, part: &str) -> usize {
    text.split(part).count().saturating_sub(1)
}

/// Whether the text has all of these parts, each once.
fn has_each(text: &str, parts: &[&str]) -> bool {
    for part in parts {
        if times(text, part) != 1 {
            return false;
        }
    }
    true
}

/// A discard of an empty buffer is a stroke, and no cross.
#[test]
fn nothing_to_discard(rt: HostRuntime) -> Result<(), Fail> {
    let id = SpecId::of(0, 1);
    let deeds = [
        Deed::Opened(0, id),
        Deed::Discard(0, id, DecideFate::Thrown(0)),
    ];
    let text = drawn(rt.alloc(), 1, &deeds)?;
    let crosses = times(text.as_str(), "<title>records discarded</title>");
    assert!(rt; crosses == 0 && times(text.as_str(), "<path class='tick'") == 1);
    Ok(())
}

/// A block that is lost, labels that a box has no room for, and a batch that nobody takes, in a second row of columns.
#[test]
fn losses_and_rows(rt: HostRuntime) -> Result<(), Fail> {
    let id = SpecId::of(0, 1);
    let long = Rec::new(1_234_567, &[]).ok_or("no value")?;
    let valued = Rec::new(12_345, &[8]).ok_or("one value")?;
    let mut deeds = Vec::new(rt.alloc());
    deeds.push(Deed::Opened(0, id))?;
    deeds.push(Deed::Speculate(0, id, long, SpeculateFate::Kept))?;
    deeds.push(Deed::Commit(0, id, DecideFate::Lost(1)))?;
    deeds.push(Deed::Release(1))?;
    for _ in 4..41 {
        deeds.push(Deed::Trace(0, valued, TraceFate::Kept))?;
    }
    deeds.push(Deed::Seal(0))?;
    let parts = [
        " width='2110' height='344' viewBox='0 0 2110 344'>",
        "<g class='dropped' transform='translate(153,76)'><title>cpu 0, record 1234567, offered to speculation 1, dropped</title>\
<rect width='44' height='20' rx='4'/><text x='22' y='14'>&#8230;</text><path d='M-3 10H47'/></g>",
        "<g class='dropped' transform='translate(225,76)'><title>records dropped</title><path d='M-6 4L6 16M6 4L-6 16'/></g>",
        "<text class='label' x='275' y='13'>free</text>",
        "<g class='taken on' transform='translate(103,260)'><title>cpu 0, record 12345(8), offered to the principal buffer, taken</title>\
<rect width='44' height='20' rx='4'/><text x='22' y='14'>12345&#8230;</text></g>",
        "<g class='seal left' transform='translate(175,260)'><title>cpu 0, batch 1, not taken</title><path d='M0 -1V21'/></g>",
    ];
    let text = drawn(rt.alloc(), 0, deeds.as_slice())?;
    assert!(rt; has_each(text.as_str(), &parts) && times(text.as_str(), ">slot 1, inactive<") == 3);
    Ok(())
}
