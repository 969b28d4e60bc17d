ghost use Rattle.std.specs.Prelude.{◌≡◌, ◌<◌, ◌^◌, Some, IfOk, OnErr};
ghost use Rattle.dspec_deeds.specs.declared.calls.Actor.TheVariants as actor;
ghost use Rattle.dspec_interleaving.specs.{Coherent.progress_of, Turns.step};
ghost use Rattle.dspec_core.specs.{Machines.IsShownMachine, Machines.state_of, Steps.ConsumerStepsAs, Steps.state_with, Table.moved_by, Worlds.WorldInvariant};

use crate::machine::Machine;
use crate::machine::seen::Move;
use dspec_buffer::TraceBuffer;
use dspec_deeds::{Answer, ConsumerOp};
use dspec_interleaving::ConsumerFlight;
use dspec_record::Schema;
use std::alloc::AllocError;

impl<S: Schema, B: TraceBuffer<S>> Machine<S, B> {
    // The CPU's progress is what its step makes of it.
    fn move_cpu(&mut self, cpu: u32, step: Move)
        requires shown { IsShownMachine B.has B.capacity self.old }
        requires cpu { cpu < self.old.config.cpus }
        requires steps { (progress_of (state_of self.old).progresses cpu).steps < 2 ^ 31 }
        ensures shown { IsShownMachine B.has B.capacity self.new }
        ensures state { state_of self.new ≡ state_with self.old cpu (moved_by step) }
        ensures schema { self.new.schema ≡ self.old.schema }
    {
        let own = &mut self.cpus[cpu as usize];
        own.progress.steps = match step.flight {
            Some(_) => own.progress.steps + 1,
            None => 0,
        };
        own.progress.flight = step.flight;
        own.progress.spare = step.spare;
        own.progress.worn = step.worn;
        own.side.counts.worn = step.worn;
    }

    /// One atomic step of a CPU, with the answer where it is its call's last; nothing where no call is in flight: what it sees, what
    /// the table makes of that, the deeds, and the CPU's progress.
    pub fn step_cpu(&mut self, cpu: u32) -> Result<Option<Answer>, AllocError>
        requires kept { WorldInvariant B.has B.capacity S.shape_of S.accepted self.old }
        requires cpu { cpu < self.old.config.cpus }
        ensures kept { IfOk result (λ _. WorldInvariant B.has B.capacity S.shape_of S.accepted self.new) }
        ensures state { IfOk result (λ _. state_of self.new ≡ (step (S.shape_of self.old.schema) (actor.Cpu cpu) (state_of self.old)).state) }
        ensures answered { IfOk result (λ answer. answer ≡ (step (S.shape_of self.old.schema) (actor.Cpu cpu) (state_of self.old)).answer) }
        ensures schema { self.new.schema ≡ self.old.schema }
        ensures refused { OnErr result (self.new ≡ self.old) }
    {
        let Some(place) = self.cpus[cpu as usize].progress.flight else {
            return Ok(None);
        };
        let seen = self.see(cpu, &place);
        let step = seen.next(place);
        let answer = step.answer;
        self.enter(cpu, step.entry)?;
        self.move_cpu(cpu, step);
        Ok(answer)
    }

    // The next step of the consumer's call.
    fn step_consumer_flight(&mut self, flight: ConsumerFlight) -> Result<Option<Answer>, AllocError>
        requires kept { WorldInvariant B.has B.capacity S.shape_of S.accepted self.old }
        requires flight { self.old.consumer.flight ≡ Some flight }
        ensures cleans { IfOk result (λ answer. ConsumerStepsAs B.has B.capacity self.old self.new flight answer) }
        ensures refused { OnErr result (self.new ≡ self.old) }
    {
        match flight {
            ConsumerFlight::Begun(op) => match op {
                ConsumerOp::Ask(cpu) => Ok(self.step_ask(cpu)),
                ConsumerOp::Take(cpu) => self.step_take(cpu),
                ConsumerOp::GiveBack(cpu) => Ok(self.step_give_back(cpu)),
                ConsumerOp::Clean => Ok(self.load_slot(1, 0)),
                ConsumerOp::Stop => self.step_stop(),
            },
            ConsumerFlight::CleanLoad(slot, released) => Ok(self.load_slot(slot, released)),
            ConsumerFlight::CleanAck(slot, word, cpu, released) => {
                Ok(self.step_clean_ack(slot, word, cpu, released))
            }
            ConsumerFlight::CleanReap(slot, word, released) => {
                self.step_clean_reap(slot, word, released)
            }
        }
    }

    /// One atomic step of the consumer, with the answer where it is its call's last; nothing where no call is in flight.
    pub fn step_consumer(&mut self) -> Result<Option<Answer>, AllocError>
        requires kept { WorldInvariant B.has B.capacity S.shape_of S.accepted self.old }
        ensures kept { IfOk result (λ _. WorldInvariant B.has B.capacity S.shape_of S.accepted self.new) }
        ensures state { IfOk result (λ _. state_of self.new ≡ (step (S.shape_of self.old.schema) actor.Consumer (state_of self.old)).state) }
        ensures answered { IfOk result (λ answer. answer ≡ (step (S.shape_of self.old.schema) actor.Consumer (state_of self.old)).answer) }
        ensures schema { self.new.schema ≡ self.old.schema }
        ensures refused { OnErr result (self.new ≡ self.old) }
    {
        let flight = self.consumer.flight;
        match flight {
            None => Ok(None),
            Some(flight) => self.step_consumer_flight(flight),
        }
    }
}
