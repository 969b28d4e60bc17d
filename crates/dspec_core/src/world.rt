ghost use Rattle.std.specs.Prelude.{◌≡◌, ◌≢◌, ◌<◌, ◌+◌, ℕ, true, false, None, Some, IfOk, IfErr, OnOk, OnErr, reverse};
ghost use Rattle.dspec_deeds.specs.{Closes.reports, Closes.streams, Closes.closing, Headline.Headline, History.halted, Legal.IsLegal, Own.stream, Own.taken, Ranges.start_fault, Reports.report};
ghost use Rattle.dspec_deeds.specs.{declared.calls.Actor.Actor};
ghost use Rattle.dspec_deeds.specs.declared.config.StartFault.TheVariants as start;
ghost use Rattle.dspec_interleaving.specs.{Bounds.steps_limit, Calls.begin_consumer_fault, Calls.begin_cpu_fault, Calls.call_of, Calls.consumer_op_of, Calls.idle_step_fault, Calls.is_about};
ghost use Rattle.dspec_interleaving.specs.{Calls.is_actor, Calls.is_idle, Calls.record_passes, Calls.steps_of, Calls.told_step, Coherent.progress_of, Promised.HasHeadline, Turns.at_start};
ghost use Rattle.dspec_interleaving.specs.{Turns.begin_consumer, Turns.begin_cpu, Turns.step, declared.flight.ConsumerFlight.ConsumerFlight};
ghost use Rattle.dspec_interleaving.specs.declared.refusal.StepFault.TheVariants as refusal;
ghost use Rattle.dspec_interleaving.specs.declared.refusal.Stepped.TheVariants as stepped;
ghost use Rattle.dspec_core.specs.Shown.{ShowsWords};
ghost use Rattle.dspec_cpu_state.specs.CpuStates.{ShowsList};

use crate::machine::Machine;
use dspec_buffer::TraceBuffer;
use dspec_cpu_state::CpuState;
use dspec_deeds::{Actor, Answer, Config, ConsumerOp, CpuOp, Deed, Op, Report, StartFault};
use dspec_interleaving::{BeginFault, Close, ConsumerProgress, CpuProgress, StepFault, Stepped};
use dspec_record::{Rec, Schema};
use dspec_word::Word;
use std::alloc::{AllocError, Global};
use std::fmt;
use std::marker::Model;

/// A session as its atomic steps left it, which contracts see as its schema, its deeds and the calls in flight.
#[derive(Drop)]
pub struct World<S: Schema, B: TraceBuffer<S>> {
    machine: Machine<S, B>,
}

impl<S: Schema, B: TraceBuffer<S>> Model for World<S, B> {
    ghost use Rattle.dspec_core.specs.WorldViews.{WorldView};

    ghost Value = { WorldView S };

    ghost use Rattle.dspec_core.specs.Worlds.{WorldInvariant, world_view};

    ghost view = { λ w. world_view w.machine };

    ghost invariant = { λ w. WorldInvariant B.has B.capacity S.shape_of S.accepted w.machine };
}

/// How many CPUs and slots it has, how many deeds were done, and whether it was stopped.
impl<S: Schema, B: TraceBuffer<S>> fmt::Debug for World<S, B> {
    fn fmt<W: fmt::Write>(&self, f: &mut fmt::Formatter<W>) -> fmt::Result {
        let Config { cpus, nspec, .. } = self.machine.config;
        let deeds = self.machine.deeds.len();
        let stopped = self.machine.halted;
        write!(
            f,
            "World {{ cpus: {cpus}, nspec: {nspec}, deeds: {deeds}, stopped: {stopped} }}"
        )
    }
}

impl<S: Schema, B: TraceBuffer<S>> World<S, B> {
    /// A session before its first call, or the first of the configuration's faults; Memory only where it has none.
    pub fn new(alloc: Global, config: Config, schema: S) -> Result<Self, StartFault>
        ensures started { IfOk result (λ world. start_fault config ≡ None) }
        ensures empty { IfOk result (λ world. world ≡ record { schema = schema; state = at_start config }) }
        ensures promised { IfOk result (λ world. HasHeadline (S.shape_of world.schema) world.state) }
        ensures refused { IfErr result (λ fault. fault ≢ start.Memory → start_fault config ≡ Some fault) }
        ensures memory { IfErr result (λ fault. fault ≡ start.Memory → start_fault config ≡ None) }
    {
        config.check()?;
        let Ok(machine) = Machine::new(alloc, config, schema) else {
            return Err(StartFault::Memory);
        };
        Ok(World { machine })
    }

    /// Begins a call of a CPU, which takes no atomic step, or answers why it can't, with nothing changed: NoSuchActor,
    /// Busy, BadRecord, in that order.
    pub fn begin_cpu(&mut self, cpu: u32, op: CpuOp) -> Result<(), BeginFault>
        ensures allowed { OnOk result (begin_cpu_fault (S.accepted self.old.schema) cpu op self.old.state ≡ None) }
        ensures begun { OnOk result (self.new ≡ record self.old { state = begin_cpu cpu op self.old.state }) }
        ensures promised { HasHeadline (S.shape_of self.new.schema) self.new.state }
        ensures refused { IfErr result (λ fault. begin_cpu_fault (S.accepted self.old.schema) cpu op self.old.state ≡ Some fault) }
        ensures unchanged { OnErr result (self.new ≡ self.old) }
    {
        if cpu >= self.machine.config.cpus {
            return Err(BeginFault::NoSuchActor);
        }
        if self.machine.cpus[cpu as usize].progress.flight.is_some() {
            return Err(BeginFault::Busy);
        }
        if !self.is_accepted(&op) {
            return Err(BeginFault::BadRecord);
        }
        self.machine.begin_cpu(cpu, op);
        Ok(())
    }

    // Whether the schema accepts the call's record, if it has one.
    fn is_accepted(&self, op: &CpuOp) -> bool
        ensures { result ≡ record_passes (S.accepted self.now.schema) op.now }
    {
        match op {
            CpuOp::Trace(rec) => self.machine.schema.accepts(rec),
            CpuOp::Speculate(_, rec) => self.machine.schema.accepts(rec),
            _ => true,
        }
    }

    // Whether the CPU that the call is about, if it is about one, exists.
    fn is_about(&self, op: &ConsumerOp) -> bool
        ensures { result ≡ is_about self.now.state.config op.now }
    {
        match op {
            ConsumerOp::Ask(cpu) => *cpu < self.machine.config.cpus,
            ConsumerOp::Take(cpu) => *cpu < self.machine.config.cpus,
            ConsumerOp::GiveBack(cpu) => *cpu < self.machine.config.cpus,
            _ => true,
        }
    }

    /// Begins a call of the consumer, which takes no atomic step, or answers why it can't, with nothing changed:
    /// NoSuchActor where it names a CPU that there isn't, then Busy.
    pub fn begin_consumer(&mut self, op: ConsumerOp) -> Result<(), BeginFault>
        ensures allowed { OnOk result (begin_consumer_fault op self.old.state ≡ None) }
        ensures begun { OnOk result (self.new ≡ record self.old { state = begin_consumer op self.old.state }) }
        ensures promised { HasHeadline (S.shape_of self.new.schema) self.new.state }
        ensures refused { IfErr result (λ fault. begin_consumer_fault op self.old.state ≡ Some fault) }
        ensures unchanged { OnErr result (self.new ≡ self.old) }
    {
        if !self.is_about(&op) {
            return Err(BeginFault::NoSuchActor);
        }
        if !self.is_idle(Actor::Consumer) {
            return Err(BeginFault::Busy);
        }
        self.machine.begin_consumer(op);
        Ok(())
    }

    /// Makes one atomic step of the actor's call in flight, or answers why it can't, with nothing changed: NoSuchActor,
    /// IdleStep, Memory, in that order.
    pub fn step(&mut self, actor: Actor) -> Result<Stepped, StepFault>
        ensures allowed { IfOk result (λ _. idle_step_fault actor self.old.state ≡ None) }
        ensures state { IfOk result (λ _. self.new ≡ record self.old { state = (step (S.shape_of self.old.schema) actor self.old.state).state }) }
        ensures told { IfOk result (λ told. told ≡ told_step (step (S.shape_of self.old.schema) actor self.old.state).answer) }
        ensures counted { IfOk result (λ told. told ≡ stepped.Going → steps_of actor self.new.state ≡ steps_of actor self.old.state + 1) }
        ensures promised { HasHeadline (S.shape_of self.new.schema) self.new.state }
        ensures refused { IfErr result (λ fault. fault ≢ refusal.Memory → idle_step_fault actor self.old.state ≡ Some fault) }
        ensures memory { IfErr result (λ fault. fault ≡ refusal.Memory → idle_step_fault actor self.old.state ≡ None) }
        ensures unchanged { OnErr result (self.new ≡ self.old) }
    {
        // looked at, the machine shows what is promised where no step is made
        let _machine = &self.machine;
        let _call = self.call(actor)?;
        match self.advance(actor) {
            Err(_) => Err(StepFault::Memory),
            Ok(None) => Ok(Stepped::Going),
            Ok(Some(answer)) => Ok(Stepped::Done(answer)),
        }
    }

    // One atomic step of the actor's call in flight, with the answer where it is the call's last.
    pub(crate) fn advance(&mut self, actor: Actor) -> Result<Option<Answer>, AllocError>
        requires actor { is_actor self.old.state.config actor ≡ true }
        requires busy { is_idle actor self.old.state ≡ false }
        ensures state { IfOk result (λ _. self.new ≡ record self.old { state = (step (S.shape_of self.old.schema) actor self.old.state).state }) }
        ensures answered { IfOk result (λ answer. answer ≡ (step (S.shape_of self.old.schema) actor self.old.state).answer) }
        ensures counted { IfOk result (λ answer. answer ≡ None → steps_of actor self.new.state ≡ steps_of actor self.old.state + 1) }
        ensures promised { HasHeadline (S.shape_of self.new.schema) self.new.state }
        ensures refused { OnErr result (self.new ≡ self.old) }
    {
        match actor {
            Actor::Cpu(cpu) => self.machine.step_cpu(cpu),
            Actor::Consumer => self.machine.step_consumer(),
        }
    }

    /// Whether no call of the actor is in flight. Condition: the actor exists.
    pub fn is_idle(&self, actor: Actor) -> bool
        requires { is_actor self.now.state.config actor ≡ true }
        ensures { result ≡ is_idle actor self.now.state }
    {
        match actor {
            Actor::Cpu(cpu) => self.machine.cpus[cpu as usize].progress.flight.is_none(),
            Actor::Consumer => self.machine.consumer.flight.is_none(),
        }
    }

    // The actor's call in flight, or why it can make no step.
    pub(crate) fn call(&self, actor: Actor) -> Result<Op, StepFault>
        ensures called { IfOk result (λ call. call ≡ call_of actor self.now.state) }
        ensures there { OnOk result (is_actor self.now.state.config actor ≡ true) }
        ensures busy { OnOk result (is_idle actor self.now.state ≡ false) }
        ensures refused { IfErr result (λ fault. idle_step_fault actor self.now.state ≡ Some fault) }
        ensures limited { IfErr result (λ fault. fault ≢ refusal.Memory) }
    {
        match actor {
            Actor::Cpu(cpu) => {
                if cpu >= self.machine.config.cpus {
                    return Err(StepFault::NoSuchActor);
                }
                match self.machine.cpus[cpu as usize].progress.flight {
                    None => Err(StepFault::IdleStep),
                    Some(flight) => Ok(Op::Cpu(flight.op())),
                }
            }
            Actor::Consumer => match self.machine.consumer.flight {
                None => Err(StepFault::IdleStep),
                Some(flight) => Ok(Op::Consumer(flight.op())),
            },
        }
    }

    /// How many steps the actor's call in flight has made, a refused one not counted; 0 where none is in flight. It
    /// stays below the call's bound. Condition: the actor exists.
    pub fn steps(&self, actor: Actor) -> u32
        requires { is_actor self.now.state.config actor ≡ true }
        ensures made { result ≡ steps_of actor self.now.state }
        ensures bounded { result < steps_limit actor self.now.state }
    {
        match actor {
            Actor::Cpu(cpu) => self.machine.cpus[cpu as usize].progress.steps,
            Actor::Consumer => self.machine.consumer.steps,
        }
    }

    /// What the session was set up with.
    pub fn config(&self) -> &Config
        ensures { result.now ≡ self.now.state.config }
    {
        &self.machine.config
    }

    /// Which records there are, and of which bytes.
    pub fn schema(&self) -> &S
        ensures { result.now ≡ self.now.schema }
    {
        &self.machine.schema
    }

    /// The CPU's progress in its calls. Condition: the CPU exists.
    pub fn progress(&self, cpu: u32) -> CpuProgress
        requires { cpu < self.now.state.config.cpus }
        ensures { result ≡ progress_of self.now.state.progresses cpu }
    {
        self.machine.cpus[cpu as usize].progress
    }

    /// The consumer's progress; the CPU that its call is about exists.
    pub fn consumer(&self) -> ConsumerProgress
        ensures value { result ≡ self.now.state.side }
        ensures about { (flight : ConsumerFlight) → result.flight ≡ Some flight → is_about self.now.state.config (consumer_op_of flight) ≡ true }
    {
        self.machine.consumer
    }

    /// The deeds so far, in order of time.
    pub fn deeds(&self) -> &[Deed]
        ensures deeds { result.now ≡ reverse self.now.state.deeds }
        ensures promised { HasHeadline (S.shape_of self.now.schema) self.now.state }
    {
        self.machine.deeds.as_slice()
    }

    /// The word of each slot, slot 1's first. They show the list of deeds.
    pub fn words(&self) -> &[Word]
        ensures { ShowsWords self.now.state.config self.now.state.deeds result.now }
    {
        self.machine.words.as_slice()
    }

    /// Whether the session was stopped.
    pub fn is_stopped(&self) -> bool
        ensures { result ≡ halted self.now.state.deeds }
    {
        self.machine.halted
    }

    /// The CPU's side: its active buffer, its buffers of speculations, its marks and counts. They show the list of deeds. Condition:
    /// the CPU exists.
    pub fn side(&self, cpu: u32) -> &CpuState<B>
        requires { cpu < self.now.state.config.cpus }
        ensures { ShowsList (λ b. B.has b self.now.schema) B.capacity self.now.state.config cpu self.now.state.deeds result.now }
    {
        &self.machine.cpus[cpu as usize].side
    }

    /// What the CPU's principal buffers accepted so far, in order. Condition: the CPU exists.
    pub fn accepted(&self, cpu: u32) -> &[Rec]
        requires { cpu < self.now.state.config.cpus }
        ensures { result.now ≡ stream cpu self.now.state.deeds }
    {
        self.machine.cpus[cpu as usize].accepted.as_slice()
    }

    /// What the consumer has taken from the CPU so far, in order. Condition: the CPU exists.
    pub fn taken(&self, cpu: u32) -> &[Rec]
        requires { cpu < self.now.state.config.cpus }
        ensures { result.now ≡ taken (progress_of self.now.state.progresses cpu).takes cpu self.now.state.deeds }
    {
        self.machine.cpus[cpu as usize].taken.as_slice()
    }

    /// The CPU's counts so far. It takes one pass over the deeds. Condition: the CPU exists.
    pub fn report(&self, cpu: u32) -> Report
        requires { cpu < self.now.state.config.cpus }
        ensures { result ≡ report self.now.state.config cpu (progress_of self.now.state.progresses cpu).worn self.now.state.deeds }
    {
        self.machine.report(cpu)
    }

    /// Closes the session: settles, CPU by CPU and slot by slot upwards, what is decided and not acknowledged. All that
    /// was accepted counts as taken then. A refused growth gives the world up. Condition: no call is in flight.
    pub fn finish(self, alloc: Global) -> Result<Close, AllocError>
        requires idle { (actor : Actor) → is_actor self.state.config actor ≡ true → is_idle actor self.state ≡ true }
        ensures deeds { IfOk result (λ close. close.deeds ≡ reverse (closing (S.shape_of self.schema) self.state.config self.state.deeds)) }
        ensures accepted { IfOk result (λ close. close.accepted ≡ streams self.state.config (reverse close.deeds)) }
        ensures reports { IfOk result (λ close. close.reports ≡ reports self.state.config (λ c. (progress_of self.state.progresses c).worn) (reverse close.deeds)) }
        ensures legal { IfOk result (λ close. IsLegal (S.shape_of self.schema) self.state.config (reverse close.deeds)) }
        ensures headline { IfOk result (λ close. (c : ℕ) → Headline self.state.config c (reverse close.deeds)) }
    {
        self.machine.finish(alloc)
    }
}
