//! The laws of the close of a session, each a function without a body.
ghost use Rattle.dspec_session_core.specs.Finishing.{ListsClose, OneBatchIsLeft, SettlesWhatIsOwed};

/// Once all seats and ring ends are back, and each CPU has settled by the last words, one legal list of deeds closes whichever
/// lists the CPUs had; what was taken, then what is left, is what was accepted.
pub fn close_of_lists()
    ensures { ListsClose }
{}

/// Where the batches sealed, and the spare in hand, are no more than one and the spares that came, one sealed batch at most was
/// not taken: the one that is drained, or else the one in hand.
pub fn one_batch_left()
    ensures { OneBatchIsLeft }
{}

/// What the close settles is what each CPU owes: each speculation that was decided, that no CPU decided alone, and that the CPU hasn't
/// settled, with what becomes of its buffer of it; and nothing else.
pub fn settles_what_is_owed()
    ensures { SettlesWhatIsOwed }
{}
