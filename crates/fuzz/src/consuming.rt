ghost use Rattle.std.specs.Prelude.{IfOk};
ghost use Rattle.dspec_cpu.specs.Lists.{words_of};
ghost use Rattle.dspec_session_core.specs.Consumers.{IsConsumerOf, Stays};

use crate::planning::{CONSUMER_DICE, SeedPlan, dice_of};
use crate::sharing::SharedState;
use crate::taken::CollectedBatches;
use dspec_cpu::Shared;
use dspec_deeds::ConsumerOp;
use dspec_samples::Dice;
use dspec_session_core::Consumer;
use std::alloc::{AllocError, Global};
use std::thread;

/// Gives the batch that is out longest back, if there is one.
fn give_back(consumer: &mut Consumer, shared: &Shared, basket: &mut CollectedBatches)
    requires { IsConsumerOf (words_of shared.now) consumer.old }
    ensures { Stays (words_of shared.now) consumer.old consumer.new }
{
    let Some(batch) = basket.take_oldest() else {
        return;
    };
    if consumer.give_back(shared, batch).is_err() {
        basket.refused = basket.refused.saturating_add(1);
    }
}

/// Takes a batch of a CPU, if there is one: it is read, and is out from then on.
fn take(
    consumer: &mut Consumer,
    shared: &Shared,
    board: &SharedState,
    basket: &mut CollectedBatches,
    alloc: Global,
    cpu: u32,
) -> Result<(), AllocError>
    requires { IsConsumerOf (words_of shared.now) consumer.old }
    ensures { Stays (words_of shared.now) consumer.old consumer.new }
{
    let Some(batch) = consumer.take(shared, cpu) else {
        return Ok(());
    };
    basket.read(alloc, &board.schema, cpu, &batch)?;
    basket.keep(batch)
}

/// One call of the consumer. A give back is of the batch that is out longest, of whichever CPU.
fn call(
    consumer: &mut Consumer,
    shared: &Shared,
    board: &SharedState,
    basket: &mut CollectedBatches,
    alloc: Global,
    op: ConsumerOp,
) -> Result<(), AllocError>
    requires { IsConsumerOf (words_of shared.now) consumer.old }
    ensures { Stays (words_of shared.now) consumer.old consumer.new }
{
    match op {
        ConsumerOp::Ask(cpu) => {
            consumer.ask(shared, cpu);
        }
        ConsumerOp::Take(cpu) => take(consumer, shared, board, basket, alloc, cpu)?,
        ConsumerOp::GiveBack(_) => give_back(consumer, shared, basket),
        ConsumerOp::Clean => {
            consumer.clean(shared);
        }
        ConsumerOp::Stop => consumer.stop(shared),
    }
    Ok(())
}

/// Who chooses the consumer's calls.
#[derive(Drop)]
struct Chooser {
    plan: SeedPlan,
    dice: Dice,
    /// The CPU whose batch was asked for last.
    asked: u32,
    stopped: bool,
}

impl Chooser {
    /// The next call, where the workers have made so many. One CPU more than there are is asked, seldom.
    fn next(&mut self, made: u64) -> ConsumerOp {
        if made >= self.plan.stop_at && !self.stopped {
            self.stopped = true;
            return ConsumerOp::Stop;
        }
        let pick = self.dice.roll(100);
        if pick < 30 {
            self.asked = self.dice.roll(self.plan.config.cpus.saturating_add(1));
            ConsumerOp::Ask(self.asked)
        } else if pick < 60 {
            let cpu = self.dice.roll(self.plan.config.cpus.max(1));
            ConsumerOp::Take(if self.dice.chance(50) {
                cpu
            } else {
                self.asked
            })
        } else if pick < 60 + self.plan.returns / 4 {
            ConsumerOp::GiveBack(0)
        } else {
            ConsumerOp::Clean
        }
    }
}

/// The consumer makes its calls until all workers have gone, and then some more.
pub fn consume(
    consumer: Consumer,
    shared: &Shared,
    board: &SharedState,
    plan: &SeedPlan,
    alloc: Global,
    basket: CollectedBatches,
) -> Result<(Consumer, CollectedBatches), AllocError>
    requires { IsConsumerOf (words_of shared.now) consumer }
    ensures { IfOk result (λ r. Stays (words_of shared.now) consumer r.0) }
{
    let (mut consumer, mut basket) = (consumer, basket);
    let mut chooser = Chooser {
        plan: *plan,
        dice: dice_of(plan.seed, CONSUMER_DICE),
        asked: 0,
        stopped: false,
    };
    let mut more = chooser.dice.roll(40);
    for _round in 0..u64::MAX {
        if board.is_empty(u64::from(plan.config.cpus)) {
            if more == 0 {
                break;
            }
            more -= 1;
        }
        let op = chooser.next(board.made());
        call(&mut consumer, shared, board, &mut basket, alloc, op)?;
        if chooser.dice.roll(1000) < plan.yields {
            thread::yield_now();
        }
    }
    Ok((consumer, basket))
}
