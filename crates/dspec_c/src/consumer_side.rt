ghost use Rattle.std.specs.Prelude.{◌≡◌, length, replicate, IfOk, None};
ghost use Rattle.dspec_session_core.specs.Consumers.{set_up_of};

use crate::batches::CBatch;
use crate::consumer_homing::{ConsumerHoming, ConsumerRule};
use crate::out_consumer::OutConsumer;
use crate::statuses::{BUSY, NO_BATCH, NO_SUCH_CPU, OK, OUT};
use dspec_ring::Batch;
use rtrb::Producer;
use std::alloc::{AllocError, Global};

/// The consumer that was handed out, and the batch of each CPU that it took and has not given back.
pub struct ConsumerSide {
    pub(crate) out: OutConsumer,
    taken: Vec<Option<Batch>>,
    ghost all: { length taken.items ≡ (set_up_of out.consumer).cpus },
}

impl ConsumerSide {
    ghost use Rattle.std.specs.Prelude.{◌≡◌, length};
    ghost use Rattle.dspec_session_core.specs.Consumers.{set_up_of};
    ghost use Rattle.rtrb.specs.Ring.{sent};
    ghost use Rattle.dspec_c.specs.{ConsumerCalls.Finds, ConsumerCalls.Returns, Homes.HasGone};

    pub fn new(out: OutConsumer, taken: Vec<Option<Batch>>) -> ConsumerSide
        requires { length taken.items ≡ (set_up_of out.consumer).cpus }
        ensures out { result.out ≡ out }
        ensures taken { result.taken.items ≡ taken.items }
    {
        ConsumerSide { out, taken }
    }

    /// Takes the next batch of a CPU, one at a time, and tells of it. Its bytes stay where they are until it goes back.
    pub fn take(&mut self, cpu: u32, told: &mut CBatch) -> u32
        ensures { Finds cpu result told.old told.new self.old self.new }
    {
        let place = cpu as usize;
        if place >= self.taken.len() {
            return NO_SUCH_CPU;
        }
        if self.taken[place].is_some() {
            return OUT;
        }
        let Some(batch) = self.out.take(cpu) else {
            return NO_BATCH;
        };
        *told = CBatch::of(&batch, batch.buffer.bytes());
        self.taken[place] = Some(batch);
        OK
    }

    /// Gives the batch that is out back.
    pub fn give_back(&mut self, cpu: u32) -> u32
        ensures { Returns cpu result self.old self.new }
    {
        let place = cpu as usize;
        if place >= self.taken.len() {
            return NO_SUCH_CPU;
        }
        let Some(batch) = self.taken[place].take() else {
            return NO_BATCH;
        };
        match self.out.give_back(batch) {
            Ok(()) => OK,
            Err(batch) => {
                self.taken[place] = Some(batch);
                BUSY
            }
        }
    }

    /// Sends the consumer home, by the way that it gives back; the batches that are out are let go.
    pub fn go_home(self) -> Producer<ConsumerHoming, Global, ConsumerRule>
        ensures { HasGone self.out (sent result) }
    {
        let ConsumerSide { out, taken: _ } = self;
        out.go_home()
    }
}

/// Room for a batch of each CPU.
pub fn places_for_batches(alloc: Global, n: u32) -> Result<Vec<Option<Batch>>, AllocError>
    ensures { IfOk result (λ taken. taken.items ≡ replicate n None) }
{
    let mut taken = Vec::with_capacity(alloc, n as usize)?;
    for place in 0..n {
        taken.push(None)?;
    }
    Ok(taken)
}
