//! What a CPU is shown once it has met the consumer.
use super::*;
use crate::steps::load_activity;

#[test]
fn a_stop_and_an_ask(rt: HostRuntime) -> Result<(), Fail> {
    let Ok((words, mut first, second, mut consumer)) = started(rt.alloc()) else {
        return Err(AllocError.into());
    };
    consumer.store_ask(&words, 0, 3);
    first.meet(&words, &mut consumer);
    let asked = first.load_ask(&words, &doing(CpuOp::Service));
    consumer.store_activity(&words);
    first.meet(&words, &mut consumer);
    let running = load_activity(&mut first, &words, &doing(CpuOp::Speculation));
    assert!(rt; asked == 3 && !running);
    let last = ended(rt.alloc(), words, first, second, consumer)?;
    assert!(rt; last.word(1) == Word::of(0, Code::Inactive));
    Ok(())
}

#[test]
fn a_speculation_is_shown(rt: HostRuntime) -> Result<(), Fail> {
    let Ok((words, mut first, second, mut consumer)) = started(rt.alloc()) else {
        return Err(AllocError.into());
    };
    let call = doing(CpuOp::Speculation);
    let Some(from) = shown_free(&words, &mut first, &call) else {
        return Err("free at first".into());
    };
    let given = first.open_word(&words, 1, from, &call);
    first.meet(&words, &mut consumer);
    let shown = consumer.load_word(&words, 1);
    let acked = consumer.load_ack(&words, 1, 1);
    assert!(rt; given == Ok(()) && shown == Word::of(0, Code::Active) && acked == 0);
    let last = ended(rt.alloc(), words, first, second, consumer)?;
    assert!(rt; last.word(1) == shown);
    Ok(())
}
