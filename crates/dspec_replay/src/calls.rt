ghost use Rattle.std.specs.Prelude.{IfErr};
ghost use Rattle.dspec_cpu.specs.Lists.{words_of};
ghost use Rattle.dspec_session_core.specs.Consumers.{IsConsumerOf, IsSameConsumer};
ghost use Rattle.dspec_replay.specs.Replayed.{IsSudden};

use crate::session_fault::SessionFault;
use crate::taken::Basket;
use dspec_cpu::Shared;
use dspec_deeds::{Answer, ConsumerOp};
use dspec_record::Schema;
use dspec_session_core::Consumer;

/// Gives the batch of a CPU that is out longest back, and says whether it went; there may be none.
fn give_oldest_back(shared: &Shared, consumer: &mut Consumer, basket: &mut Basket, cpu: u32) -> bool
    requires session { IsConsumerOf (words_of shared.now) consumer.old }
    ensures session { IsConsumerOf (words_of shared.now) consumer.new }
    ensures same { IsSameConsumer consumer.old consumer.new }
{
    match basket.oldest(cpu) {
        Some(batch) => consumer.give_back(shared, batch).is_ok(),
        None => false,
    }
}

/// A call of the consumer. What it takes goes into the basket, and what it gives back comes from there.
pub fn call_consumer<S: Schema>(
    shared: &Shared,
    schema: &S,
    consumer: &mut Consumer,
    basket: &mut Basket,
    op: ConsumerOp,
) -> Result<Answer, SessionFault>
    requires session { IsConsumerOf (words_of shared.now) consumer.old }
    ensures session { IsConsumerOf (words_of shared.now) consumer.new }
    ensures same { IsSameConsumer consumer.old consumer.new }
    ensures refused { IfErr result IsSudden }
{
    match op {
        ConsumerOp::Ask(cpu) => {
            let _known = consumer.ask(shared, cpu);
            Ok(Answer::AskDone)
        }
        ConsumerOp::Take(cpu) => match consumer.take(shared, cpu) {
            Some(batch) => basket.add(schema, cpu, batch),
            None => Ok(Answer::TookNone),
        },
        ConsumerOp::GiveBack(cpu) => Ok(Answer::GaveBack(give_oldest_back(
            shared, consumer, basket, cpu,
        ))),
        ConsumerOp::Clean => Ok(Answer::Cleaned(consumer.clean(shared))),
        ConsumerOp::Stop => {
            consumer.stop(shared);
            Ok(Answer::StopDone)
        }
    }
}
