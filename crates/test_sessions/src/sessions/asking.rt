//! What the CPUs are shown of an ask.
use super::batches::{batch, passed};
use super::*;
use dspec_deeds::CpuOp;
use dspec_table::Doing;

#[test]
fn one_more_than_taken(rt: HostRuntime) -> Result<(), Fail> {
    let (shared, mut first, mut second, mut end, mut consumer) = begun(rt.alloc())?;
    let call = Doing {
        op: CpuOp::Service,
        fits: false,
        count: 0,
        mine: false,
    };
    assert!(rt; consumer.ask(&shared, 0) && !consumer.ask(&shared, 2));
    assert!(rt;
        first.load_ask(shared.words(), &call) == 1 && second.load_ask(shared.words(), &call) == 0
    );
    assert!(rt; consumer.ask(&shared, 0) && first.load_ask(shared.words(), &call) == 1);
    let handed = batch(rt.alloc(), 0, 16, 0)?;
    let _ = passed(&rt, &shared, &mut end, &mut consumer, handed);
    assert!(rt; first.load_ask(shared.words(), &call) == 1 && consumer.ask(&shared, 0));
    assert!(rt;
        first.load_ask(shared.words(), &call) == 2 && second.load_ask(shared.words(), &call) == 0
    );
    Ok(())
}
