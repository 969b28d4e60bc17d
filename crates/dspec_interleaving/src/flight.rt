ghost use Rattle.std.specs.Prelude.{◌≡◌};
ghost use Rattle.dspec_interleaving.specs.Calls.{consumer_op_of, op_of};

use dspec_deeds::{ConsumerOp, CpuOp, DecideFate, Served};
use dspec_record::Rec;
use dspec_word::{SpecId, Word};

/// A call of a CPU in flight: which atomic step comes next, and what the call was shown before. A `..Try` is after a
/// word that was shown, which the next exchange expects.
#[derive(Clone, Copy, Debug, PartialEq, Eq)]
pub enum CallPlace {
    /// No step was made: activity is loaded next, or what a service begins with.
    Begun(CpuOp),
    /// The slot's word is loaded next.
    ScanLoad(u32),
    /// The exchange that opens the slot is next.
    ScanTry(u32, Word),
    /// The word of the speculation's slot is loaded next.
    SpeculateLoad(SpecId, Rec),
    /// The exchange that counts the CPU among the callers is next.
    SpeculateTry(SpecId, Rec, Word),
    /// The word of the speculation's slot is loaded next.
    CommitLoad(SpecId),
    /// The exchange that commits is next.
    CommitTry(SpecId, Word),
    /// The commit waits for no other CPU and had this fate; the slot's release is next.
    CommitRelease(SpecId, DecideFate),
    /// The word of the speculation's slot is loaded next.
    DiscardLoad(SpecId),
    /// The exchange that discards is next.
    DiscardTry(SpecId, Word),
    /// A batch is asked for and no spare is in hand: the pop of a spare is next.
    ServicePop,
    /// A batch is sealed; its push to the consumer is next.
    ServicePush,
    /// The slot's word is loaded next; the service has done so much.
    ServiceLoad(u32, Served),
    /// What was decided of the slot is settled next, with the store of the acknowledgement.
    ServiceStore(u32, Word, Served),
}

/// A call of the consumer in flight. A clean goes over the slots, and over the CPUs that a decided slot waits for.
#[derive(Clone, Copy, Debug, PartialEq, Eq)]
pub enum ConsumerFlight {
    /// No step was made.
    Begun(ConsumerOp),
    /// The slot's word is loaded next; so many slots were released.
    CleanLoad(u32, u32),
    /// The slot is decided; whether this CPU has acknowledged it is loaded next; so many slots were released.
    CleanAck(u32, Word, u32, u32),
    /// Every CPU has acknowledged the slot: the exchange that releases it is next; so many were released before.
    CleanReap(u32, Word, u32),
}

/// Where the second of a CPU's two principal buffers is: a spare in the CPU's hand, a sealed batch before its push, on
/// its way to the consumer, with the consumer, or on its way back.
#[derive(Clone, Copy, Debug, PartialEq, Eq)]
pub enum Spare {
    /// The CPU has it, empty, and has sealed nothing.
    InHand,
    /// Sealed, and not pushed yet.
    Sealed,
    /// On its way to the consumer.
    Handed,
    /// The consumer reads it.
    Out,
    /// On its way back to the CPU.
    GivenBack,
}

/// A CPU's progress in its calls, which its deeds don't tell: the call in flight and its steps, the second buffer's place,
/// how many batches were wanted, taken and given back, and how many calls were answered Worn.
#[derive(Clone, Copy, Debug, PartialEq, Eq)]
pub struct CpuProgress {
    /// The call in flight, if there is one.
    pub flight: Option<CallPlace>,
    /// How many steps the call in flight has made.
    pub steps: u32,
    /// Where the second principal buffer is.
    pub spare: Spare,
    /// How many batches the consumer has asked for.
    pub want: u64,
    /// How many batches the consumer has taken.
    pub takes: u64,
    /// How many calls were answered Worn.
    pub worn: u64,
}

/// The consumer's progress: its call in flight and its steps.
#[derive(Clone, Copy, Debug, PartialEq, Eq)]
pub struct ConsumerProgress {
    /// The call in flight, if there is one.
    pub flight: Option<ConsumerFlight>,
    /// How many steps the call in flight has made.
    pub steps: u32,
}

impl CallPlace {
    /// The call that is in flight.
    pub fn op(self) -> CpuOp
        ensures { result ≡ op_of self }
    {
        match self {
            CallPlace::Begun(op) => op,
            CallPlace::ScanLoad(_) | CallPlace::ScanTry(_, _) => CpuOp::Speculation,
            CallPlace::SpeculateLoad(id, rec) | CallPlace::SpeculateTry(id, rec, _) => {
                CpuOp::Speculate(id, rec)
            }
            CallPlace::CommitLoad(id)
            | CallPlace::CommitTry(id, _)
            | CallPlace::CommitRelease(id, _) => CpuOp::Commit(id),
            CallPlace::DiscardLoad(id) | CallPlace::DiscardTry(id, _) => CpuOp::Discard(id),
            CallPlace::ServicePop
            | CallPlace::ServicePush
            | CallPlace::ServiceLoad(_, _)
            | CallPlace::ServiceStore(_, _, _) => CpuOp::Service,
        }
    }
}

impl ConsumerFlight {
    /// The call that is in flight.
    pub fn op(self) -> ConsumerOp
        ensures { result ≡ consumer_op_of self }
    {
        match self {
            ConsumerFlight::Begun(op) => op,
            ConsumerFlight::CleanLoad(_, _)
            | ConsumerFlight::CleanAck(_, _, _, _)
            | ConsumerFlight::CleanReap(_, _, _) => ConsumerOp::Clean,
        }
    }
}
