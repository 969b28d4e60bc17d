ghost use Rattle.std.specs.Prelude.{◌≡◌, OnOk, OnErr, IfErr, IfSome, IfNone};
ghost use Rattle.dspec_session_core.specs.Batches.{Took, FoundNone, GaveBack, IsNotTakenBack};
ghost use Rattle.dspec_session_core.specs.Consumers.{IsConsumerOf, IsSameConsumer, set_up_of, taken_from};
ghost use Rattle.dspec_cpu.specs.Lists.{words_of};

use crate::consumer::Consumer;
use dspec_cpu::Shared;
use dspec_ring::Batch;

impl Consumer {
    /// How many batches of a CPU were taken; none where there is no such CPU.
    pub fn taken(&self, cpu: u32) -> u64
        ensures { result ≡ taken_from cpu self.now }
    {
        match self.ends.get(cpu as usize) {
            Some(end) => end.taken(),
            None => 0,
        }
    }

    /// The next batch of a CPU: one pop. None where nothing arrived, or, without a pop, where there is no such CPU.
    pub fn take(&mut self, _shared: &Shared, cpu: u32) -> Option<Batch>
        requires session { IsConsumerOf (words_of _shared.now) self.old }
        ensures session { IsConsumerOf (words_of _shared.now) self.new }
        ensures same { IsSameConsumer self.old self.new }
        ensures took { IfSome result (λ batch. Took cpu batch self.old self.new) }
        ensures none { IfNone result (FoundNone cpu self.old self.new) }
    {
        if cpu >= self.config.cpus {
            return None;
        }
        let end = &mut self.ends[cpu as usize];
        end.take()
    }

    /// Gives a batch back to its CPU as a spare: one push. It comes back where the ring refuses it, and, without a push, where its
    /// CPU isn't one of the session, none of that CPU's batches is out, or its buffer hasn't the size of a principal buffer.
    pub fn give_back(&mut self, _shared: &Shared, batch: Batch) -> Result<(), Batch>
        requires session { IsConsumerOf (words_of _shared.now) self.old }
        ensures session { IsConsumerOf (words_of _shared.now) self.new }
        ensures same { IsSameConsumer self.old self.new }
        ensures given { OnOk result (GaveBack batch self.old self.new) }
        ensures refused { IfErr result (λ back. back ≡ batch) }
        ensures why { OnErr result (IsNotTakenBack batch self.old self.new) }
    {
        if batch.cpu >= self.config.cpus || batch.buffer.size() != self.config.bufsize {
            return Err(batch);
        }
        let end = &mut self.ends[batch.cpu as usize];
        if !end.has_out() {
            return Err(batch);
        }
        end.give_back(batch)
    }
}
