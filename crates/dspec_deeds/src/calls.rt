ghost use Rattle.std.specs.Prelude.{◌≡◌};
ghost use Rattle.dspec_deeds.specs.FateAnswers.{id_given};

use dspec_record::Rec;
use dspec_word::SpecId;

/// Who makes a call.
#[derive(Clone, Copy, Debug, PartialEq, Eq)]
pub enum Actor {
    /// The CPU of this number, counted from 0.
    Cpu(u32),
    /// The one consumer.
    Consumer,
}

/// A call of a CPU.
#[derive(Clone, Copy, Debug, PartialEq, Eq)]
pub enum CpuOp {
    /// Offers a record to the principal buffer.
    Trace(Rec),
    /// Asks for a speculation, by a walk over the slots upwards.
    Speculation,
    /// Offers a record to the CPU's own speculative buffer of an open speculation.
    Speculate(SpecId, Rec),
    /// Decides that what was offered to the speculation is kept, and copies this CPU's part.
    Commit(SpecId),
    /// Decides that what was offered to the speculation is thrown away, and empties this CPU's part.
    Discard(SpecId),
    /// Seals a batch where one is asked for, and settles what others decided.
    Service,
}

/// A call of the consumer, with the CPU that it is about.
#[derive(Clone, Copy, Debug, PartialEq, Eq)]
pub enum ConsumerOp {
    /// Wants the CPU's next batch; the CPU's service seals it.
    Ask(u32),
    /// Takes the batch that the CPU handed over.
    Take(u32),
    /// Gives the buffer of the batch taken last back to the CPU.
    GiveBack(u32),
    /// Releases each slot that is decided and that every CPU has acknowledged.
    Clean,
    /// Ends tracing: later calls that trace or decide are answered Stopped.
    Stop,
}

/// A call.
#[derive(Clone, Copy, Debug, PartialEq, Eq)]
pub enum Op {
    /// A call of a CPU.
    Cpu(CpuOp),
    /// A call of the consumer.
    Consumer(ConsumerOp),
}

/// What `trace` answers. Worn: the CPU had made all its calls, and the record wasn't offered.
#[derive(Clone, Copy, Debug, PartialEq, Eq)]
pub enum Traced {
    /// The record stands in the principal buffer.
    Kept,
    /// The principal buffer had no room for it, or is closed.
    Dropped,
    /// The session was stopped before the call.
    Stopped,
    /// The CPU has made all its calls.
    Worn,
}

/// What `speculation` answers.
#[derive(Clone, Copy, Debug, PartialEq, Eq)]
pub enum Opening {
    /// A speculation, now open.
    Id(SpecId),
    /// No slot was free when its turn came, and none of them waited for its release.
    Unavailable,
    /// No slot was free when its turn came, and one of them at least was decided and waited for its release.
    Busy,
    /// The session was stopped before the call.
    Stopped,
    /// The CPU has made all its calls.
    Worn,
}

/// What `speculate` answers. Void: the identifier isn't open.
#[derive(Clone, Copy, Debug, PartialEq, Eq)]
pub enum Spoken {
    /// The record stands in the CPU's speculative buffer, until the speculation is decided.
    Kept,
    /// The speculative buffer had no room for it.
    Dropped,
    /// The identifier isn't open: never given out, or decided already.
    Void,
    /// The session was stopped before the call.
    Stopped,
    /// The CPU has made all its calls.
    Worn,
}

/// What `commit` and `discard` answer, with the number of records in the CPU's own speculative buffer.
#[derive(Clone, Copy, Debug, PartialEq, Eq)]
pub enum Decided {
    /// A commit that copied so many records to the principal buffer.
    Copied(u32),
    /// A commit of so many records that the principal buffer had no room for: all of them are lost.
    Lost(u32),
    /// A discard that threw so many records away.
    Thrown(u32),
    /// The identifier isn't open: never given out, or decided already.
    Void,
    /// The session was stopped before the call.
    Stopped,
    /// The CPU has made all its calls.
    Worn,
}

/// What `service` answers: whether it sealed a batch, and how many speculations it settled.
#[derive(Clone, Copy, Debug, PartialEq, Eq)]
pub struct Served {
    /// Whether a batch was sealed and handed over.
    pub sealed: bool,
    /// How many decided speculations this CPU acknowledged.
    pub settled: u32,
}

/// What a call answers. Took: the drops counted since the batch before, and which records of what was taken from the
/// CPU are the batch's, `count` of them from place `from`. Cleaned: how many slots were released.
#[derive(Clone, Copy, Debug, PartialEq, Eq)]
pub enum Answer {
    /// Of a trace.
    Traced(Traced),
    /// Of a speculation.
    Opening(Opening),
    /// Of a speculate.
    Spoken(Spoken),
    /// Of a commit or a discard.
    Decided(Decided),
    /// Of a service.
    Served(Served),
    /// Of an ask.
    AskDone,
    /// Of a take that found no batch.
    TookNone,
    /// Of a take that found one.
    Took { drops: u64, from: usize, count: u32 },
    /// Of a give back: whether a batch was out.
    GaveBack(bool),
    /// Of a clean.
    Cleaned(u32),
    /// Of a stop, the first or a later one.
    StopDone,
}

/// One line of a schedule: a call that begins, one atomic step, or a whole call.
#[derive(Clone, Copy, Debug, PartialEq, Eq)]
pub enum Turn {
    /// A call of a CPU begins, and makes no step yet.
    BeginCpu(u32, CpuOp),
    /// A call of the consumer begins, and makes no step yet.
    BeginConsumer(ConsumerOp),
    /// One atomic step of the actor's call in flight.
    Step(Actor),
    /// A call of a CPU begins and makes all its steps.
    RunCpu(u32, CpuOp),
    /// A call of the consumer begins and makes all its steps.
    RunConsumer(ConsumerOp),
}

impl Opening {
    /// The identifier that was given out, or NONE, which is never open.
    pub fn id(self) -> SpecId
        ensures { result ≡ id_given self }
    {
        match self {
            Opening::Id(id) => id,
            Opening::Unavailable | Opening::Busy | Opening::Stopped | Opening::Worn => SpecId::NONE,
        }
    }
}
