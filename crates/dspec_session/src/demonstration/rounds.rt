ghost use Rattle.dspec_session_core.specs.Consumers.{IsConsumerOf, Stays};
ghost use Rattle.dspec_cpu.specs.Lists.{words_of};
ghost use Rattle.dspec_session.specs.Visits.{ConsumerRounds, Visited, VisitedAll, none_taken};

use super::four::Four;
use super::order::Order;
use crate::gate::RoundGate;
use dspec_cpu::Shared;
use dspec_record::Enablings;
use dspec_session_core::Consumer;

/// How many rounds the consumer makes.
const ROUNDS: u32 = 1000;

// Asks a CPU, takes a batch if there is one, reads it, and gives it back.
fn visit(consumer: &mut Consumer, schema: &Enablings, shared: &Shared, cpu: u32, order: &mut Order)
    requires { IsConsumerOf (words_of shared.now) consumer.old }
    ensures stays { Stays (words_of shared.now) consumer.old consumer.new }
    ensures visited { Visited schema.now cpu consumer.old order.old consumer.new order.new }
{
    consumer.ask(shared, cpu);
    let Some(batch) = consumer.take(shared, cpu) else {
        return;
    };
    order.read(schema, batch.buffer.bytes());
    let _ = consumer.give_back(shared, batch);
}

// Visits each CPU.
fn visit_all(consumer: &mut Consumer, schema: &Enablings, shared: &Shared, orders: &mut Four<Order>)
    requires { IsConsumerOf (words_of shared.now) consumer.old }
    ensures stays { Stays (words_of shared.now) consumer.old consumer.new }
    ensures visited { VisitedAll schema.now consumer.old orders.old consumer.new orders.new }
{
    visit(consumer, schema, shared, 0, &mut orders.first);
    visit(consumer, schema, shared, 1, &mut orders.second);
    visit(consumer, schema, shared, 2, &mut orders.third);
    visit(consumer, schema, shared, 3, &mut orders.fourth);
}

/// The consumer's rounds: each visits every CPU, and cleans. Of each CPU it follows the order of what it takes.
pub(crate) fn serve<G: RoundGate>(
    consumer: Consumer,
    schema: &Enablings,
    shared: &Shared,
    gate: &G,
) -> (Consumer, Four<Order>)
    requires { IsConsumerOf (words_of shared.now) consumer }
    ensures stays { Stays (words_of shared.now) consumer result.0 }
    ensures rounds { ConsumerRounds schema.now consumer none_taken 1000 result.0 result.1 }
{
    let mut consumer = consumer;
    let mut orders = Four {
        first: Order::new(),
        second: Order::new(),
        third: Order::new(),
        fourth: Order::new(),
    };
    for round in 0..ROUNDS {
        visit_all(&mut consumer, schema, shared, &mut orders);
        consumer.clean(shared);
        gate.round(round + 1);
    }
    (consumer, orders)
}
