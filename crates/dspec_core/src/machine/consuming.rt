ghost use Rattle.std.specs.Prelude.{◌≡◌, ◌<◌, ◌≤◌, ◌+◌, ◌^◌, [], None, IfOk, OnErr};
ghost use Rattle.dspec_deeds.specs.declared.calls.ConsumerOp.TheVariants as consumer_op;
ghost use Rattle.dspec_interleaving.specs.declared.flight.ConsumerFlight.TheVariants as flight;
ghost use Rattle.dspec_interleaving.specs.declared.flight.Spare.TheVariants as spare;
ghost use Rattle.dspec_interleaving.specs.{Coherent.IsSlot, Coherent.progress_of, Play.keeps_on, Play.loads_slot, Play.next_slot, Play.stops};
ghost use Rattle.dspec_deeds.specs.{Legal.IsAllowed, Own.seals, Ranges.start_fault};
ghost use Rattle.dspec_core.specs.{Machines.ConsumerMakes, Machines.IsShownMachine, Machines.history, Machines.state_of, Standing.ConsumerStandsAt, Steps.ConsumerStepsAs, Steps.takes_batch};

use crate::machine::Machine;
use crate::machine::walking::append_records;
use dspec_buffer::TraceBuffer;
use dspec_deeds::Answer;
use dspec_interleaving::{ConsumerFlight, Spare};
use dspec_record::Schema;
use dspec_word::{Act, Word, reap_at};
use std::alloc::AllocError;

impl<S: Schema, B: TraceBuffer<S>> Machine<S, B> {
    /// The one step of an ask: the store of one more than the batches taken.
    pub fn step_ask(&mut self, cpu: u32) -> Option<Answer>
        requires stands { ConsumerStandsAt B.has B.capacity S.shape_of self.old (flight.Begun (consumer_op.Ask cpu)) }
        requires cpu { cpu < self.old.config.cpus }
        ensures { ConsumerStepsAs B.has B.capacity self.old self.new (flight.Begun (consumer_op.Ask cpu)) result }
    {
        let progress = &mut self.cpus[cpu as usize].progress;
        progress.want = progress.takes + 1;
        self.stop_consumer(Answer::AskDone)
    }

    /// The one step of a take: the pop of what was handed over.
    pub fn step_take(&mut self, cpu: u32) -> Result<Option<Answer>, AllocError>
        requires stands { ConsumerStandsAt B.has B.capacity S.shape_of self.old (flight.Begun (consumer_op.Take cpu)) }
        requires cpu { cpu < self.old.config.cpus }
        ensures cleans { IfOk result (λ answer. ConsumerStepsAs B.has B.capacity self.old self.new (flight.Begun (consumer_op.Take cpu)) answer) }
        ensures refused { OnErr result (self.new ≡ self.old) }
    {
        let own = &self.cpus[cpu as usize];
        if !matches!(&own.progress.spare, Spare::Handed) {
            return Ok(self.stop_consumer(Answer::TookNone));
        }
        self.take_batch(cpu)
    }

    // Takes the batch that was handed over.
    fn take_batch(&mut self, cpu: u32) -> Result<Option<Answer>, AllocError>
        requires shown { IsShownMachine B.has B.capacity self.old }
        requires cpu { cpu < self.old.config.cpus }
        requires fits { (progress_of (state_of self.old).progresses cpu).takes + 1 < 2 ^ 64 }
        requires sealed { seals cpu (history self.old) ≡ (progress_of (state_of self.old).progresses cpu).takes + 1 }
        ensures cleans { IfOk result (λ answer. ConsumerMakes B.has B.capacity self.old self.new (takes_batch self.old cpu spare.Handed) answer) }
        ensures refused { OnErr result (self.new ≡ self.old) }
    {
        let own = &mut self.cpus[cpu as usize];
        let from = own.taken.len();
        append_records(&mut own.taken, &self.schema, &own.second)?;
        own.progress.spare = Spare::Out;
        own.progress.takes += 1;
        let answer = Answer::Took {
            drops: own.sealed_drops,
            from,
            count: own.second.count(),
        };
        Ok(self.stop_consumer(answer))
    }

    /// The one step of a give back: the push of the buffer that is out, or nothing.
    pub fn step_give_back(&mut self, cpu: u32) -> Option<Answer>
        requires stands { ConsumerStandsAt B.has B.capacity S.shape_of self.old (flight.Begun (consumer_op.GiveBack cpu)) }
        requires cpu { cpu < self.old.config.cpus }
        ensures { ConsumerStepsAs B.has B.capacity self.old self.new (flight.Begun (consumer_op.GiveBack cpu)) result }
    {
        let own = &self.cpus[cpu as usize];
        if !matches!(&own.progress.spare, Spare::Out) {
            return self.stop_consumer(Answer::GaveBack(false));
        }
        self.cpus[cpu as usize].progress.spare = Spare::GivenBack;
        self.stop_consumer(Answer::GaveBack(true))
    }

    /// The one step of a stop: the store of activity.
    pub fn step_stop(&mut self) -> Result<Option<Answer>, AllocError>
        requires stands { ConsumerStandsAt B.has B.capacity S.shape_of self.old (flight.Begun consumer_op.Stop) }
        ensures cleans { IfOk result (λ answer. ConsumerStepsAs B.has B.capacity self.old self.new (flight.Begun consumer_op.Stop) answer) }
        ensures refused { OnErr result (self.new ≡ self.old) }
    {
        if !self.halted {
            self.enter_halt()?;
        }
        Ok(self.stop_consumer(Answer::StopDone))
    }

    fn stop_consumer(&mut self, answer: Answer) -> Option<Answer>
        requires shown { IsShownMachine B.has B.capacity self.old }
        ensures { ConsumerMakes B.has B.capacity self.old self.new (stops self.old.config (history self.old) self.old.consumer (state_of self.old).progresses [] answer) result }
    {
        self.consumer.flight = None;
        self.consumer.steps = 0;
        Some(answer)
    }

    fn keep_on(&mut self, flight: ConsumerFlight) -> Option<Answer>
        requires shown { IsShownMachine B.has B.capacity self.old }
        requires steps { self.old.consumer.steps < 2 ^ 31 }
        ensures { ConsumerMakes B.has B.capacity self.old self.new (keeps_on self.old.config (history self.old) self.old.consumer (state_of self.old).progresses [] flight) result }
    {
        self.consumer.flight = Some(flight);
        self.consumer.steps += 1;
        None
    }

    // After a slot of a clean: the next one, or the call has ended.
    fn clean_next(&mut self, slot: u32, released: u32) -> Option<Answer>
        requires shown { IsShownMachine B.has B.capacity self.old }
        requires steps { self.old.consumer.steps < 2 ^ 31 }
        requires slot { slot ≤ self.old.config.nspec }
        ensures { ConsumerMakes B.has B.capacity self.old self.new (next_slot self.old.config (history self.old) self.old.consumer (state_of self.old).progresses slot [] released) result }
    {
        if slot == self.config.nspec {
            return self.stop_consumer(Answer::Cleaned(released));
        }
        self.keep_on(ConsumerFlight::CleanLoad(slot + 1, released))
    }

    /// The load of a slot's word, by a clean that has released so many.
    pub fn load_slot(&mut self, slot: u32, released: u32) -> Option<Answer>
        requires shown { IsShownMachine B.has B.capacity self.old }
        requires ranges { start_fault self.old.config ≡ None }
        requires legal { IsAllowed (S.shape_of self.old.schema) self.old.config (history self.old) }
        requires steps { self.old.consumer.steps < 2 ^ 31 }
        requires slot { IsSlot self.old.config slot }
        ensures { ConsumerMakes B.has B.capacity self.old self.new (loads_slot self.old.config (history self.old) self.old.consumer (state_of self.old).progresses slot released) result }
    {
        let word = self.words[(slot - 1) as usize];
        match reap_at(word, true) {
            Act::Attempt(_) => self.keep_on(ConsumerFlight::CleanAck(slot, word, 0, released)),
            _ => self.clean_next(slot, released),
        }
    }

    /// The load of a CPU's acknowledgement.
    pub fn step_clean_ack(
        &mut self,
        slot: u32,
        word: Word,
        cpu: u32,
        released: u32,
    ) -> Option<Answer>
        requires stands { ConsumerStandsAt B.has B.capacity S.shape_of self.old (flight.CleanAck slot word cpu released) }
        ensures { ConsumerStepsAs B.has B.capacity self.old self.new (flight.CleanAck slot word cpu released) result }
    {
        if self.cpus[cpu as usize].side.acks[(slot - 1) as usize] <= word.issue() {
            return self.clean_next(slot, released);
        }
        if cpu + 1 == self.config.cpus {
            return self.keep_on(ConsumerFlight::CleanReap(slot, word, released));
        }
        self.keep_on(ConsumerFlight::CleanAck(slot, word, cpu + 1, released))
    }

    /// The exchange that releases a slot.
    pub fn step_clean_reap(
        &mut self,
        slot: u32,
        word: Word,
        released: u32,
    ) -> Result<Option<Answer>, AllocError>
        requires stands { ConsumerStandsAt B.has B.capacity S.shape_of self.old (flight.CleanReap slot word released) }
        ensures cleans { IfOk result (λ answer. ConsumerStepsAs B.has B.capacity self.old self.new (flight.CleanReap slot word released) answer) }
        ensures refused { OnErr result (self.new ≡ self.old) }
    {
        if self.words[(slot - 1) as usize] != word {
            return Ok(self.clean_next(slot, released));
        }
        self.enter_release(slot)?;
        Ok(self.clean_next(slot, released + 1))
    }
}
