//! A whole session that is called from one thread: calls, each with what it has to answer, and what has to be left of each CPU.
ghost use Rattle.std.specs.Prelude.{IfOk};
ghost use Rattle.dspec_cpu.specs.Lists.{words_of};
ghost use Rattle.dspec_session_core.specs.{Consumers.IsConsumerOf, Consumers.IsSameConsumer, Sessions.IsSession};

use super::batches::comes_back;
use super::calls::{Call, Dealing, Remains};
use dspec_cpu::{Cpu, Listed, Shared};
use dspec_deeds::{Config, Report};
use dspec_record::Schema;
use dspec_replay::{meet_all, run_cpu};
use dspec_ring::Batch;
use dspec_session::{Closed, Consumer, Session};
use std::alloc::{AllocError, Global};
use std::process::Abort;

/// A session, its one schema, and the batch that was taken last, until it is given back.
#[derive(Drop)]
pub(super) struct Stage<S: Schema> {
    schema: S,
    session: Session<S>,
    out: Option<Batch>,
}

/// A call of the consumer, and whether it answers as it has to.
fn deals(
    shared: &Shared,
    consumer: &mut Consumer,
    out: &mut Option<Batch>,
    dealing: Dealing,
) -> bool
    requires session { IsConsumerOf (words_of shared.now) consumer.old }
    ensures session { IsConsumerOf (words_of shared.now) consumer.new }
    ensures same { IsSameConsumer consumer.old consumer.new }
{
    match dealing {
        Dealing::Ask(cpu) => consumer.ask(shared, cpu),
        Dealing::Take(cpu, drops, text) => {
            *out = consumer.take(shared, cpu);
            match out {
                Some(batch) => batch.drops == drops && text.equals(batch.buffer.bytes()),
                None => false,
            }
        }
        Dealing::TakeNone(cpu) => consumer.take(shared, cpu).is_none(),
        Dealing::GiveBack => match out.take() {
            Some(batch) => consumer.give_back(shared, batch).is_ok(),
            None => false,
        },
        Dealing::Clean(released) => consumer.clean(shared) == released,
        Dealing::Waits(cpu, slots) => consumer.waiting_for(shared, cpu) == slots,
    }
}

impl<S: Schema> Stage<S> {
    /// A session that has just begun. Its configuration is in range: what is refused is memory.
    pub(super) fn start(alloc: Global, config: &Config, schema: S) -> Result<Stage<S>, AllocError>
        ensures session { IfOk result (λ s. IsSession s.schema s.session) }
    {
        let Ok(session) = Session::start(alloc, config, schema) else {
            return Err(AllocError);
        };
        Ok(Stage {
            schema,
            session,
            out: None,
        })
    }

    /// Whether a call of the consumer answers as it has to.
    fn run_consumer(&mut self, dealing: Dealing) -> bool
        requires session { IsSession self.old.schema self.old.session }
        ensures session { IsSession self.new.schema self.new.session }
    {
        let session = &mut self.session;
        deals(
            &session.shared,
            &mut session.consumer,
            &mut self.out,
            dealing,
        )
    }

    /// Whether a call answers as it has to.
    fn answers(&mut self, call: Call) -> bool
        requires session { IsSession self.old.schema self.old.session }
        ensures session { IsSession self.new.schema self.new.session }
    {
        match call {
            Call::Cpu(cpu, op, answer) => {
                run_cpu(&mut self.session, &self.schema, cpu, op) == Ok(answer)
            }
            Call::Consumer(dealing) => self.run_consumer(dealing),
            Call::Meet => {
                meet_all(&mut self.session, &self.schema);
                true
            }
        }
    }

    /// Makes the calls, each of which has to answer as it says.
    pub(super) fn plays(&mut self, rt: &impl Abort, calls: &[Call])
        requires session { IsSession self.old.schema self.old.session }
        ensures session { IsSession self.new.schema self.new.session }
    {
        for (number, call) in calls.iter().enumerate() {
            assert!(rt; self.answers(*call), "call {number}");
        }
    }

    /// Gives a batch back, which has to be refused and to come back itself.
    pub(super) fn refuses(&mut self, rt: &impl Abort, batch: Batch)
        requires session { IsSession self.old.schema self.old.session }
        ensures session { IsSession self.new.schema self.new.session }
    {
        let session = &mut self.session;
        let back = comes_back(&session.shared, &mut session.consumer, batch);
        assert!(rt; back);
    }

    /// The batch that was taken last and is out.
    pub(super) fn into_out(self) -> Option<Batch> {
        self.out
    }

    /// Ends the session, of whose CPUs this has to be left, in order.
    pub(super) fn finish(self, rt: &impl Abort, remains: &[Remains<'_>]) -> Closed
        requires session { IsSession self.schema self.session }
    {
        let closed = self.session.finish();
        assert!(rt; remains.len() == closed.cpus() as usize);
        for cpu in 0..closed.cpus() {
            let (sealed, last) = closed.rest(cpu);
            assert!(rt;
                last.cpu == cpu && remains[cpu as usize].are(sealed, last, closed.report(cpu)),
                "CPU {cpu}"
            );
        }
        closed
    }
}

impl Remains<'_> {
    /// Whether this is left of a CPU.
    fn are(&self, sealed: Option<&Batch>, last: &Batch, report: &Report) -> bool {
        let same_last = last.drops == 0 && last.buffer.bytes() == self.last;
        sealed.is_none() && same_last && *report == self.report
    }
}

/// A session from its start to its end.
pub(super) fn plays<S: Schema>(
    rt: &(impl Abort + AllocGlobal),
    config: &Config,
    schema: S,
    calls: &[Call],
    remains: &[Remains<'_>],
) -> Result<(), AllocError> {
    let mut stage = Stage::start(rt.alloc(), config, schema)?;
    stage.plays(rt, calls);
    let _closed = stage.finish(rt, remains);
    Ok(())
}
