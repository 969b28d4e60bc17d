//! The exports of the consumer.

ghost use Rattle.std.specs.Prelude.{◌≡◌};
ghost use Rattle.dspec_c.specs.ConsumerCalls.{AskAnswers, CleanAnswers, GiveBackAnswers, StopAnswers, TakeAnswers, WaitingAnswers};
ghost use Rattle.dspec_c.specs.Handles.{held_in, is_full};

use crate::batches::CBatch;
use crate::handle::{Handle, lent};
use crate::held::HandleValue;
use crate::statuses::{BAD_HANDLE, NO_SUCH_CPU, OK, of_asked};

/// Asks a CPU for a batch more.
#[unsafe(no_mangle)]
pub extern "C" fn dspec_ask(consumer: &mut Handle, cpu: u32) -> u32
    ensures answers { AskAnswers cpu (held_in consumer.old) result (held_in consumer.new) }
    ensures stays { is_full consumer.new ≡ is_full consumer.old }
{
    lent!(consumer as Consumer(side), BAD_HANDLE => of_asked(side.out.ask(cpu)))
}

/// Takes the next batch of a CPU.
#[unsafe(no_mangle)]
pub extern "C" fn dspec_take(consumer: &mut Handle, cpu: u32, batch: &mut CBatch) -> u32
    ensures answers { TakeAnswers cpu (held_in consumer.old) result batch.old batch.new (held_in consumer.new) }
    ensures stays { is_full consumer.new ≡ is_full consumer.old }
{
    lent!(consumer as Consumer(side), BAD_HANDLE => side.take(cpu, batch))
}

/// Gives the batch of a CPU that is out back.
#[unsafe(no_mangle)]
pub extern "C" fn dspec_give_back(consumer: &mut Handle, cpu: u32) -> u32
    ensures answers { GiveBackAnswers cpu (held_in consumer.old) result (held_in consumer.new) }
    ensures stays { is_full consumer.new ≡ is_full consumer.old }
{
    lent!(consumer as Consumer(side), BAD_HANDLE => side.give_back(cpu))
}

/// Frees the slots of speculations that every CPU has settled.
#[unsafe(no_mangle)]
pub extern "C" fn dspec_clean(consumer: &mut Handle, released: &mut u32) -> u32
    ensures answers { CleanAnswers (held_in consumer.old) result released.old released.new (held_in consumer.new) }
    ensures stays { is_full consumer.new ≡ is_full consumer.old }
{
    lent!(consumer as Consumer(side), BAD_HANDLE => {
            *released = side.out.clean();
            OK
        })
}

/// Tells how many slots wait for a CPU.
#[unsafe(no_mangle)]
pub extern "C" fn dspec_waiting_for(consumer: &mut Handle, cpu: u32, count: &mut u32) -> u32
    ensures answers { WaitingAnswers cpu (held_in consumer.old) result count.old count.new (held_in consumer.new) }
    ensures stays { is_full consumer.new ≡ is_full consumer.old }
{
    lent!(consumer as Consumer(side), BAD_HANDLE => match side.out.waiting_for(cpu) {
            Some(number) => {
                *count = number;
                OK
            }
            None => NO_SUCH_CPU,
        })
}

/// Stops the session.
#[unsafe(no_mangle)]
pub extern "C" fn dspec_stop(consumer: &mut Handle) -> u32
    ensures answers { StopAnswers (held_in consumer.old) result (held_in consumer.new) }
    ensures stays { is_full consumer.new ≡ is_full consumer.old }
{
    lent!(consumer as Consumer(side), BAD_HANDLE => {
            side.out.stop();
            OK
        })
}
