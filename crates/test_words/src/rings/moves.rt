ghost use Rattle.std.specs.Prelude.{◌≡◌, ◌<◌, ◌≤◌, ◌+◌, ◌*◌, ◌^◌, [], length, IfOk, OnOk};

use super::batches::{expect_number, is_numbered, numbered, renumbered};
use dspec_ring::{Batch, ConsumerEnd, CpuEnd, drain_beside, pair};
use std::alloc::{AllocError, Global};
use std::process::Abort;
use std::test::Fail;

/// Hands a batch on; ends the test where it is refused.
fn hand(rt: &impl Abort, end: &mut CpuEnd, batch: Batch)
    requires { length end.old.handed < 2 ^ 62 }
    ensures pair { end.new.pair ≡ end.old.pair }
    ensures count { length end.new.handed ≡ length end.old.handed + 1 }
{
    assert!(rt; end.hand(batch).is_ok(), "hand was refused");
}

/// Gives a batch back; ends the test where it is refused.
fn give(rt: &impl Abort, end: &mut ConsumerEnd, batch: Batch)
    ensures { end.new.pair ≡ end.old.pair }
{
    assert!(rt; end.give_back(batch).is_ok(), "give back was refused");
}

/// Two batches fit, a third comes back, and has room once one was taken.
#[test]
fn ring_of_two(rt: HostRuntime) -> Result<(), Fail> {
    let (mut cpu, mut consumer) = pair(rt.alloc())?;
    hand(&rt, &mut cpu, numbered(&rt, rt.alloc(), 1)?);
    hand(&rt, &mut cpu, numbered(&rt, rt.alloc(), 2)?);
    let refused = cpu.hand(numbered(&rt, rt.alloc(), 3)?).err();
    let third = expect_number(&rt, refused, 3);
    let first = expect_number(&rt, consumer.take(), 1);
    hand(&rt, &mut cpu, third);
    give(&rt, &mut consumer, first);
    expect_number(&rt, cpu.spare(), 1);
    assert!(rt; cpu.spare().is_none());
    let mut drained = drain_beside(cpu, consumer);
    expect_number(&rt, drained.next(), 2);
    expect_number(&rt, drained.next(), 3);
    assert!(rt; drained.next().is_none());
    Ok(())
}

/// A refused batch comes back in the other direction too.
#[test]
fn spares_of_two(rt: HostRuntime) -> Result<(), Fail> {
    let (mut cpu, mut consumer) = pair(rt.alloc())?;
    assert!(rt; consumer.take().is_none() && cpu.spare().is_none());
    give(&rt, &mut consumer, numbered(&rt, rt.alloc(), 1)?);
    give(&rt, &mut consumer, numbered(&rt, rt.alloc(), 2)?);
    let refused = consumer.give_back(numbered(&rt, rt.alloc(), 3)?).err();
    let third = expect_number(&rt, refused, 3);
    expect_number(&rt, cpu.spare(), 1);
    give(&rt, &mut consumer, third);
    expect_number(&rt, cpu.spare(), 2);
    expect_number(&rt, cpu.spare(), 3);
    assert!(rt; cpu.spare().is_none() && consumer.take().is_none());
    Ok(())
}

/// Two batches go round once, one after the other, and come back in their buffers.
fn go_round(
    rt: &impl Abort,
    cpu: &mut CpuEnd,
    consumer: &mut ConsumerEnd,
    number: u32,
    batches: (Batch, Batch),
) -> (Batch, Batch)
    requires number { number < 1000 }
    requires few { length cpu.old.handed ≤ 2 * number }
    ensures { length cpu.new.handed ≤ length cpu.old.handed + 2 }
{
    hand(rt, cpu, renumbered(rt, batches.0, number));
    hand(rt, cpu, renumbered(rt, batches.1, number + 1000));
    let first = expect_number(rt, consumer.take(), number);
    let second = expect_number(rt, consumer.take(), number + 1000);
    assert!(rt; consumer.take().is_none());
    give(rt, consumer, first);
    give(rt, consumer, second);
    let first = expect_number(rt, cpu.spare(), number);
    let second = expect_number(rt, cpu.spare(), number + 1000);
    assert!(rt; cpu.spare().is_none());
    (first, second)
}

#[test]
fn a_hundred_rounds(rt: HostRuntime) -> Result<(), Fail> {
    let (mut cpu, mut consumer) = pair(rt.alloc())?;
    let mut batches = (numbered(&rt, rt.alloc(), 1)?, numbered(&rt, rt.alloc(), 2)?);
    for round in 1..=100 {
        batches = go_round(&rt, &mut cpu, &mut consumer, round, batches);
    }
    assert!(rt; is_numbered(&batches.0, 100) && is_numbered(&batches.1, 1100));
    Ok(())
}

/// Batches 1, 2, .. go to the consumer and are given back: that many are then on their way to the CPU.
fn send_back(
    rt: &impl Abort,
    alloc: Global,
    cpu: &mut CpuEnd,
    consumer: &mut ConsumerEnd,
    count: u32,
) -> Result<(), AllocError>
    requires unused { cpu.old.handed ≡ [] }
    requires few { count ≤ 2 }
    ensures cpu { OnOk result ((cpu.new.pair ≡ cpu.old.pair) × (length cpu.new.handed ≤ 2)) }
    ensures consumer { OnOk result (consumer.new.pair ≡ consumer.old.pair) }
{
    for number in 1..=count {
        hand(rt, cpu, numbered(rt, alloc, number)?);
        let batch = expect_number(rt, consumer.take(), number);
        give(rt, consumer, batch);
    }
    Ok(())
}

/// Batches 11, 12, .. are handed on: that many are then on their way to the consumer.
fn send(rt: &impl Abort, alloc: Global, cpu: &mut CpuEnd, count: u32) -> Result<(), AllocError>
    requires few { count ≤ 2 }
    requires handed { length cpu.old.handed ≤ 2 }
    ensures { OnOk result (cpu.new.pair ≡ cpu.old.pair) }
{
    for number in 11..=10 + count {
        hand(rt, cpu, numbered(rt, alloc, number)?);
    }
    Ok(())
}

/// What was handed and not taken is drained, in order, and then nothing, whatever is on its way back.
fn drains(rt: &impl Abort, alloc: Global, coming: u32, going: u32) -> Result<(), AllocError>
    requires { (coming ≤ 2) × (going ≤ 2) }
{
    let (mut cpu, mut consumer) = pair(alloc)?;
    send_back(rt, alloc, &mut cpu, &mut consumer, coming)?;
    send(rt, alloc, &mut cpu, going)?;
    let mut drained = drain_beside(cpu, consumer);
    for number in 11..=10 + going {
        expect_number(rt, drained.next(), number);
    }
    assert!(rt; drained.next().is_none(), "{coming} coming, {going} going");
    assert!(rt; drained.next().is_none(), "{coming} coming, {going} going");
    Ok(())
}

#[test]
fn drained_beside(rt: HostRuntime) -> Result<(), Fail> {
    for coming in [0, 1, 2] {
        for going in [0, 1, 2] {
            drains(&rt, rt.alloc(), coming, going)?;
        }
    }
    Ok(())
}

/// A pair, asked for once more where a growth was refused.
fn asked_again(alloc: Global) -> Result<(CpuEnd, ConsumerEnd), AllocError>
    ensures one { IfOk result (λ ends. ends.1.pair ≡ ends.0.pair) }
    ensures unused { IfOk result (λ ends. length ends.0.handed ≡ 0) }
{
    match pair(alloc) {
        Ok(ends) => Ok(ends),
        Err(AllocError) => pair(alloc),
    }
}

/// Where one of its four growths is refused, `pair` answers so, and serves when it is asked again. None is refused in an
/// ordinary run.
#[test]
fn refused_growth(rt: HostRuntime) -> Result<(), Fail> {
    let (mut cpu, mut consumer) = asked_again(rt.alloc())?;
    hand(&rt, &mut cpu, numbered(&rt, rt.alloc(), 1)?);
    hand(&rt, &mut cpu, numbered(&rt, rt.alloc(), 2)?);
    let first = expect_number(&rt, consumer.take(), 1);
    give(&rt, &mut consumer, first);
    expect_number(&rt, cpu.spare(), 1);
    let mut drained = drain_beside(cpu, consumer);
    expect_number(&rt, drained.next(), 2);
    assert!(rt; drained.next().is_none());
    Ok(())
}

/// It asks once: where a growth is refused that is the answer.
#[test]
fn asked_once(rt: HostRuntime) -> Result<(), Fail> {
    let (mut cpu, _consumer) = pair(rt.alloc())?;
    assert!(rt; cpu.spare().is_none());
    Ok(())
}
