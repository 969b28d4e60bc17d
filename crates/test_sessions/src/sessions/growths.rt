//! Memory that is refused while a session is started, or its consumer is made. `tests/refused-growth-player` refuses one growth after
//! another in each of these tests; in an ordinary run none is refused.
use super::calls::{ask, bare, give_back, left, service, take, take_none, trace};
use super::staging::plays;
use super::*;
use dspec_deeds::{Report, StartFault, Traced};
use dspec_record::DefaultAction;
use dspec_samples::sized;
use dspec_session::Session;

/// The consumer, and the words and rings that it stands on: refused, they are asked for once more.
#[test]
fn refused_consumer(rt: HostRuntime) {
    let made = match begun(rt.alloc()) {
        Err(AllocError) => begun(rt.alloc()),
        made => made,
    };
    assert!(rt; made.is_ok());
}

/// A start answers want of memory, and nothing else.
#[test]
fn refused_start(rt: HostRuntime) {
    let started = Session::start(rt.alloc(), &sized(2, 2, 8, 8), DefaultAction).err();
    assert!(rt; matches!(started, None | Some(StartFault::Memory)));
}

/// A second batch is sealed only once a buffer came back; meanwhile a record is dropped, which the batch tells.
fn switched(rt: &(impl Abort + AllocGlobal)) -> Result<(), AllocError> {
    let calls = [
        trace(0, bare(1), Traced::Kept),
        ask(0),
        service(0, true, 0),
        take(0, 0, &[1, 0, 0, 0]),
        trace(0, bare(2), Traced::Kept),
        trace(0, bare(3), Traced::Kept),
        ask(0),
        service(0, false, 0),
        trace(0, bare(4), Traced::Dropped),
        give_back(),
        service(0, true, 0),
        trace(0, bare(5), Traced::Kept),
        take(0, 1, &[2, 0, 0, 0, 3, 0, 0, 0]),
        take_none(0),
    ];
    let report = Report {
        offered: 5,
        accepted: 4,
        dropped: 1,
        drops: 1,
        ..Report::default()
    };
    let remains = [left(&[5, 0, 0, 0], report)];
    plays(rt, &sized(1, 1, 8, 8), DefaultAction, &calls, &remains)
}

/// A session of which a growth was refused is started once more, and then plays as ever.
#[test]
fn refused_session(rt: HostRuntime) {
    let played = match switched(&rt) {
        Err(AllocError) => switched(&rt),
        played => played,
    };
    assert!(rt; played.is_ok());
}
