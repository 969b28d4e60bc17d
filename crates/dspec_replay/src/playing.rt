ghost use Rattle.std.specs.Prelude.{◌≡◌, ◌++◌, ◌∷◌, [], None, Some, length, map, IfErr, IfOk, OnOk};
ghost use Rattle.dspec_deeds.specs.{Ranges.start_fault, declared.calls.Turn.TheVariants.RunCpu, declared.calls.Turn.TheVariants.RunConsumer};
ghost use Rattle.dspec_session_core.specs.Sessions.{IsSession};
ghost use Rattle.dspec_replay.specs.Replayed.{IsDue, IsSamePlay, call_that_ended, setup_refusal, turn_refusal, whole_call_of};

use crate::calls::call_consumer;
use crate::session_fault::SessionFault;
use crate::taken::Basket;
use crate::whole_calls::{Uncalled, meet_all, run_cpu};
use dspec_cpu::{Cpu, Listed};
use dspec_deeds::{Actor, Answer, Config, ConsumerOp, CpuOp, Op, StartFault, Turn};
use dspec_interleaving::{PlayFault, Series};
use dspec_record::Schema;
use dspec_session_core::Session;
use std::alloc::Global;

/// A schedule that is played on a session from one thread: the session, its schema, what was taken, and the calls that have
/// ended.
#[derive(Drop)]
pub struct SessionReplay<S: Schema> {
    pub schema: S,
    pub session: Session<S>,
    pub basket: Basket,
    pub answers: Series<(Actor, Op, Answer)>,
}

impl<S: Schema> SessionReplay<S> {
    /// A session that has just begun.
    pub fn start(
        alloc: Global,
        config: &Config,
        schema: S,
    ) -> Result<SessionReplay<S>, SessionFault>
        ensures session { IfOk result (λ p. IsSession p.schema p.session) }
        ensures schema { IfOk result (λ p. p.schema ≡ schema) }
        ensures cpus { IfOk result (λ p. length p.session.cpus.items ≡ config.now.cpus) }
        ensures empty { IfOk result (λ p. p.answers ≡ []) }
        ensures allowed { IfOk result (λ _. start_fault config.now ≡ None) }
        ensures refused { IfErr result (IsDue (setup_refusal (start_fault config.now))) }
    {
        let session = match Session::start(alloc, config, schema) {
            Ok(session) => session,
            Err(StartFault::Memory) => return Err(SessionFault::Play(PlayFault::Memory)),
            Err(fault) => return Err(SessionFault::Play(PlayFault::Setup(fault))),
        };
        Ok(SessionReplay {
            schema,
            session,
            basket: Basket::new(alloc, config.cpus)?,
            answers: Series::new(alloc),
        })
    }

    /// A whole call of a CPU.
    fn run_cpu(&mut self, number: usize, cpu: u32, op: CpuOp) -> Result<Answer, SessionFault>
        requires session { IsSession self.old.schema self.old.session }
        ensures session { IsSession self.new.schema self.new.session }
        ensures same { IsSamePlay self.old self.new }
        ensures answers { self.new.answers ≡ self.old.answers }
        ensures allowed { IfOk result (λ _. turn_refusal (S.accepted self.old.schema) (length self.old.session.cpus.items) number (RunCpu cpu op) ≡ None) }
        ensures refused { IfErr result (IsDue (turn_refusal (S.accepted self.old.schema) (length self.old.session.cpus.items) number (RunCpu cpu op))) }
    {
        match run_cpu(&mut self.session, &self.schema, cpu, op) {
            Ok(answer) => Ok(answer),
            Err(Uncalled::NoSuchCpu) => Err(SessionFault::Play(PlayFault::NoSuchActor(number))),
            Err(Uncalled::BadRecord) => Err(SessionFault::Play(PlayFault::BadRecord(number))),
        }
    }

    /// A whole call of the consumer.
    fn run_consumer(&mut self, number: usize, op: ConsumerOp) -> Result<Answer, SessionFault>
        requires session { IsSession self.old.schema self.old.session }
        ensures session { IsSession self.new.schema self.new.session }
        ensures same { IsSamePlay self.old self.new }
        ensures answers { self.new.answers ≡ self.old.answers }
        ensures allowed { IfOk result (λ _. turn_refusal (S.accepted self.old.schema) (length self.old.session.cpus.items) number (RunConsumer op) ≡ None) }
        ensures refused { IfErr result (IsDue (turn_refusal (S.accepted self.old.schema) (length self.old.session.cpus.items) number (RunConsumer op))) }
    {
        let session = &mut self.session;
        if let ConsumerOp::Ask(cpu) | ConsumerOp::Take(cpu) | ConsumerOp::GiveBack(cpu) = op {
            if cpu as usize >= session.cpus.len() {
                return Err(SessionFault::Play(PlayFault::NoSuchActor(number)));
            }
        }
        call_consumer(
            &session.shared,
            &self.schema,
            &mut session.consumer,
            &mut self.basket,
            op,
        )
    }

    /// A whole call, with who makes it and what it answers.
    fn run(&mut self, number: usize, turn: Turn) -> Result<(Actor, Op, Answer), SessionFault>
        requires session { IsSession self.old.schema self.old.session }
        ensures session { IsSession self.new.schema self.new.session }
        ensures same { IsSamePlay self.old self.new }
        ensures answers { self.new.answers ≡ self.old.answers }
        ensures its { IfOk result (λ ended. call_that_ended ended ≡ whole_call_of turn) }
        ensures allowed { IfOk result (λ _. turn_refusal (S.accepted self.old.schema) (length self.old.session.cpus.items) number turn ≡ None) }
        ensures refused { IfErr result (IsDue (turn_refusal (S.accepted self.old.schema) (length self.old.session.cpus.items) number turn)) }
    {
        match turn {
            Turn::RunCpu(cpu, op) => Ok((
                Actor::Cpu(cpu),
                Op::Cpu(op),
                self.run_cpu(number, cpu, op)?,
            )),
            Turn::RunConsumer(op) => Ok((
                Actor::Consumer,
                Op::Consumer(op),
                self.run_consumer(number, op)?,
            )),
            Turn::BeginCpu(..) | Turn::BeginConsumer(_) | Turn::Step(_) => {
                Err(SessionFault::NoWholeCall(number))
            }
        }
    }

    /// One turn, which has to be a whole call, and then the meetings of the consumer with each CPU.
    pub fn turn(&mut self, number: usize, turn: Turn) -> Result<(), SessionFault>
        requires session { IsSession self.old.schema self.old.session }
        ensures session { IsSession self.new.schema self.new.session }
        ensures same { IsSamePlay self.old self.new }
        ensures answered { OnOk result (map call_that_ended self.new.answers ≡ map call_that_ended self.old.answers ++ whole_call_of turn ∷ []) }
        ensures allowed { IfOk result (λ _. turn_refusal (S.accepted self.old.schema) (length self.old.session.cpus.items) number turn ≡ None) }
        ensures refused { IfErr result (IsDue (turn_refusal (S.accepted self.old.schema) (length self.old.session.cpus.items) number turn)) }
    {
        let ended = self.run(number, turn)?;
        meet_all(&mut self.session, &self.schema);
        self.answers.push(ended)?;
        Ok(())
    }
}
