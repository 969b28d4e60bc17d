//! Batches that are taken, and given back or refused.
ghost use Rattle.std.specs.Prelude.{◌≡◌, ◌<◌, ◌≤◌, ◌+◌, ◌%◌, ◌^◌, length};
ghost use Rattle.dspec_cpu.specs.Lists.{words_of};
ghost use Rattle.dspec_session_core.specs.Consumers.{IsConsumerOf, IsSameConsumer};

use super::*;
use dspec_buffer::{ByteBuffer, TraceBuffer};
use dspec_record::DefaultAction;
use dspec_ring::Batch;

/// A batch of this CPU in a new buffer of this size in bytes, known by its drops.
pub(super) fn batch(alloc: Global, cpu: u32, size: u32, drops: u64) -> Result<Batch, AllocError>
    requires { (8 ≤ size) × (size ≤ 1048576) × (size % 8 ≡ 0) }
{
    let buffer: ByteBuffer = TraceBuffer::<DefaultAction>::make(alloc, size)?;
    Ok(Batch { cpu, drops, buffer })
}

/// Hands a batch of the first CPU on, and takes it.
pub(super) fn passed(
    rt: &impl Abort,
    shared: &Shared,
    end: &mut CpuEnd,
    consumer: &mut Consumer,
    batch: Batch,
) -> Batch
    requires count { length end.old.handed < 2 ^ 62 }
    requires session { IsConsumerOf (words_of shared.now) consumer.old }
    ensures count { length end.new.handed ≡ length end.old.handed + 1 }
    ensures session { IsConsumerOf (words_of shared.now) consumer.new }
{
    assert!(rt; end.hand(batch).is_ok());
    consumer.take(shared, 0).expect(rt, "a batch")
}

/// Gives a batch back, and answers whether it was refused and came back itself.
pub(super) fn comes_back(shared: &Shared, consumer: &mut Consumer, batch: Batch) -> bool
    requires session { IsConsumerOf (words_of shared.now) consumer.old }
    ensures session { IsConsumerOf (words_of shared.now) consumer.new }
    ensures same { IsSameConsumer consumer.old consumer.new }
{
    let drops = batch.drops;
    match consumer.give_back(shared, batch) {
        Ok(()) => false,
        Err(back) => back.drops == drops,
    }
}

#[test]
fn taken_in_order(rt: HostRuntime) -> Result<(), Fail> {
    let (shared, _, _, mut end, mut consumer) = begun(rt.alloc())?;
    assert!(rt; consumer.take(&shared, 0).is_none() && consumer.take(&shared, 2).is_none());
    assert!(rt; end.hand(batch(rt.alloc(), 0, 16, 1)?).is_ok());
    assert!(rt; end.hand(batch(rt.alloc(), 0, 16, 2)?).is_ok());
    assert!(rt; consumer.take(&shared, 1).is_none());
    let first = consumer.take(&shared, 0).expect(&rt, "the first");
    let second = consumer.take(&shared, 0).expect(&rt, "the second");
    assert!(rt; first.drops == 1 && second.drops == 2 && consumer.take(&shared, 0).is_none());
    assert!(rt; consumer.taken(0) == 2 && consumer.taken(1) == 0 && consumer.taken(2) == 0);
    assert!(rt; consumer.give_back(&shared, first).is_ok());
    let spare = end.spare().expect(&rt, "a spare");
    assert!(rt; spare.drops == 1 && end.spare().is_none());
    Ok(())
}

/// A third comes back while the CPU hasn't got the two before.
#[test]
fn refused_by_the_ring(rt: HostRuntime) -> Result<(), Fail> {
    let (shared, _, _, mut end, mut consumer) = begun(rt.alloc())?;
    let handed = batch(rt.alloc(), 0, 16, 1)?;
    let first = passed(&rt, &shared, &mut end, &mut consumer, handed);
    let handed = batch(rt.alloc(), 0, 16, 2)?;
    let second = passed(&rt, &shared, &mut end, &mut consumer, handed);
    let handed = batch(rt.alloc(), 0, 16, 3)?;
    let third = passed(&rt, &shared, &mut end, &mut consumer, handed);
    assert!(rt; !comes_back(&shared, &mut consumer, first));
    assert!(rt; !comes_back(&shared, &mut consumer, second));
    assert!(rt; comes_back(&shared, &mut consumer, third));
    Ok(())
}
