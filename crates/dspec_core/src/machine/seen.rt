use dspec_deeds::{Answer, Config, Deed};
use dspec_interleaving::{CallPlace, CpuProgress, Spare};
use dspec_word::{SpecId, Word};

/// What a step of a CPU goes by: the configuration, the CPU's progress, and what the step measures, of the slot and the
/// speculation that its call is at. What it doesn't measure is false, or 0.
#[derive(Clone, Copy)]
pub struct Seen {
    /// What the session was set up with.
    pub config: Config,
    /// The CPU.
    pub cpu: u32,
    /// Its progress.
    pub me: CpuProgress,
    /// Whether the CPU has made all its calls.
    pub worn: bool,
    /// Whether the session was stopped.
    pub stopped: bool,
    /// The slot's word.
    pub word: Word,
    /// The CPU's acknowledgement of the slot.
    pub acked: u64,
    /// Whether the CPU is a caller of the speculation.
    pub mine: bool,
    /// Whether the call's record fits its buffer.
    pub fits: bool,
    /// Whether all that the CPU holds of the speculation fits the principal buffer.
    pub copies: bool,
    /// How many records the CPU holds of the speculation.
    pub count: u32,
    /// Whether the call has missed a slot that was decided.
    pub missed_busy: bool,
    /// How many batches the CPU has sealed.
    pub seals: u64,
}

/// The deeds that a step enters.
#[derive(Clone, Copy)]
pub enum Entry {
    /// None.
    Nothing,
    /// One deed.
    One(Deed),
    /// A discard of so many records by the one caller, and the slot's release.
    Alone(SpecId, u32),
}

/// What a step makes of its CPU: the next place of its call, if it goes on, where its second buffer is then, how many calls were
/// worn, the deeds that it enters, and the answer where it is its call's last.
#[derive(Clone, Copy)]
pub struct Move {
    /// The call in flight after the step.
    pub flight: Option<CallPlace>,
    /// Where the second principal buffer is then.
    pub spare: Spare,
    /// How many calls were answered Worn.
    pub worn: u64,
    /// The deeds.
    pub entry: Entry,
    /// The answer.
    pub answer: Option<Answer>,
}
