//! Batches that a session refuses to take back.
use super::batches::batch;
use super::calls::{all_accepted, ask, bare, give_back, left, service, take, take_none, trace};
use super::staging::Stage;
use dspec_deeds::Traced;
use dspec_record::DefaultAction;
use dspec_samples::sized;
use std::test::Fail;

/// A batch of a CPU that isn't there, one while none of the CPU is out, and one of another size come back, and what follows answers
/// as if they hadn't been given.
#[test]
fn refused_give_back(rt: HostRuntime) -> Result<(), Fail> {
    let mut stage = Stage::start(rt.alloc(), &sized(1, 1, 8, 8), DefaultAction)?;
    stage.plays(&rt, &[trace(0, bare(1), Traced::Kept)]);
    stage.refuses(&rt, batch(rt.alloc(), 1, 8, 7)?);
    stage.refuses(&rt, batch(rt.alloc(), 0, 8, 7)?);
    stage.plays(
        &rt,
        &[
            ask(0),
            service(0, true, 0),
            take(0, 0, &[1, 0, 0, 0]),
            trace(0, bare(2), Traced::Kept),
        ],
    );
    stage.refuses(&rt, batch(rt.alloc(), 1, 8, 7)?);
    stage.refuses(&rt, batch(rt.alloc(), 0, 16, 7)?);
    stage.plays(
        &rt,
        &[ask(0), service(0, false, 0), take_none(0), give_back()],
    );
    stage.refuses(&rt, batch(rt.alloc(), 0, 8, 7)?);
    stage.plays(&rt, &[service(0, true, 0), take(0, 0, &[2, 0, 0, 0])]);
    let report = all_accepted(2);
    let _closed = stage.finish(&rt, &[left(&[], report)]);
    Ok(())
}
