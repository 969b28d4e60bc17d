ghost use Rattle.std.specs.Prelude.{◌≡◌, ◌<◌, ◌+◌, ◌^◌, [], ◌∷◌, ◌++◌, length};

use super::batches::{expect_number, numbered, renumbered};
use dspec_ring::{Batch, ConsumerEnd, CpuEnd, Drained, drain_beside, pair};
use std::alloc::Global;
use std::process::Abort;
use std::snapshot::Snapshot;
use std::sync::Wait;
use std::test::Fail;
use std::thread;
use std::thread::{Promise, Threads};

/// How many batches cross.
const CROSSING: u32 = 10_000;

/// A thread gives the end back that it took.
#[derive(Drop)]
struct SameCpu(Snapshot<CpuEnd>);

impl Promise<CpuEnd> for SameCpu {
    ghost kept_by = { λ taken end. end.pair ≡ taken.0.value.pair };
}

#[derive(Drop)]
struct SameConsumer(Snapshot<ConsumerEnd>);

impl Promise<ConsumerEnd> for SameConsumer {
    ghost kept_by = { λ taken end. end.pair ≡ taken.0.value.pair };
}

/// Waits until the batch is handed on.
fn hand_waiting(rt: &impl Wait, end: &mut CpuEnd, batch: Batch)
    requires { length end.old.handed < 2 ^ 62 }
    ensures pair { end.new.pair ≡ end.old.pair }
    ensures handed { end.new.handed ≡ end.old.handed ++ batch ∷ [] }
{
    let mut batch = batch;
    for _ in rt.forever() {
        match end.hand(batch) {
            Ok(()) => return,
            Err(back) => batch = back,
        }
        thread::yield_now();
    }
    unreachable!()
}

/// Waits for the next batch.
fn take_waiting(rt: &impl Wait, end: &mut ConsumerEnd) -> Batch
    ensures pair { end.new.pair ≡ end.old.pair }
    ensures taken { end.new.taken ≡ end.old.taken ++ result ∷ [] }
{
    for _ in rt.forever() {
        if let Some(batch) = end.take() {
            return batch;
        }
        thread::yield_now();
    }
    unreachable!()
}

/// Hands batches 1, 2, .. on, in a buffer that came back where there is one.
fn hand_all<R: Abort + Wait>(rt: &R, alloc: Global, end: CpuEnd, count: u32) -> CpuEnd
    requires { end.handed ≡ [] }
    ensures { result.pair ≡ end.pair }
{
    let mut end = end;
    for number in 1..=count {
        let batch = match end.spare() {
            Some(spare) => renumbered(rt, spare, number),
            None => numbered(rt, alloc, number).expect(rt, "memory"),
        };
        hand_waiting(rt, &mut end, batch);
    }
    end
}

/// Takes batches 1, 2, .. and gives each back, if it has room to.
fn take_all<R: Abort + Wait>(rt: &R, end: ConsumerEnd, count: u32) -> ConsumerEnd
    ensures { result.pair ≡ end.pair }
{
    let mut end = end;
    for number in 1..=count {
        let batch = expect_number(rt, Some(take_waiting(rt, &mut end)), number);
        let _ = end.give_back(batch);
    }
    end
}

/// What is left when one thread has handed 10,000 batches on, and another has taken as many.
fn cross<R: Threads + Abort + Wait + Sync>(
    rt: &R,
    alloc: Global,
    cpu: CpuEnd,
    consumer: ConsumerEnd,
) -> Drained
    requires one { consumer.pair ≡ cpu.pair }
    requires unused { cpu.handed ≡ [] }
{
    thread::scope(
        thread::scope_env(),
        rt,
        move |scope| -> Drained
            requires { (consumer.pair ≡ cpu.pair) × (cpu.handed ≡ []) }
        {
            let promise = SameCpu(Snapshot::of(&cpu));
            let handing = scope.spawn_with(
                promise,
                move ||
                    requires { cpu.handed ≡ [] }
                { hand_all(rt, alloc, cpu, CROSSING) },
            );
            let promise = SameConsumer(Snapshot::of(&consumer));
            let taking = scope.spawn_with(promise, move || take_all(rt, consumer, CROSSING));
            let (Ok(handing), Ok(taking)) = (handing, taking) else {
                panic!(rt; "no thread");
            };
            drain_beside(handing.join(rt), taking.join(rt))
        },
    )
}

/// Each batch that one thread hands on comes to the other, in order and once; both ends come back as those of one pair.
#[test]
fn two_threads(rt: HostRuntime) -> Result<(), Fail> {
    let (cpu, consumer) = pair(rt.alloc())?;
    let mut drained = cross(&rt, rt.alloc(), cpu, consumer);
    assert!(rt; drained.next().is_none());
    Ok(())
}
