ghost use Rattle.std.specs.Prelude.{◌≡◌};
ghost use Rattle.dspec_interleaving.specs.declared.outcome.PlayFault.TheVariants as play_fault;
ghost use Rattle.dspec_replay.specs.declared.session_fault.SessionFault.TheVariants as session_fault;

use dspec_interleaving::PlayFault;
use std::alloc::{AllocError, AllocFailed};

/// Why a session doesn't go on with a schedule. Turns are counted from 0.
#[derive(Clone, Copy, Debug, PartialEq, Eq)]
pub enum SessionFault {
    /// As the player refuses it.
    Play(PlayFault),
    /// The turn is no whole call.
    NoWholeCall(usize),
    /// A buffer of this CPU is no text.
    NoText(u32),
}

impl From<AllocError> for SessionFault {
    ghost from_gives = { λ _ fault. fault ≡ session_fault.Play play_fault.Memory };

    fn from(_refused: AllocError) -> Self {
        SessionFault::Play(PlayFault::Memory)
    }
}

impl<T: Drop> From<AllocFailed<T>> for SessionFault {
    ghost from_gives = { λ _ fault. fault ≡ session_fault.Play play_fault.Memory };

    fn from(_refused: AllocFailed<T>) -> Self {
        SessionFault::Play(PlayFault::Memory)
    }
}
