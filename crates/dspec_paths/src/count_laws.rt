//! The laws of a table's counts, each a function without a body: those that began are those that are open, were kept, were thrown away or
//! are lost, modulo 2^64.
ghost use Rattle.std.specs.Prelude.{None, replicate};
ghost use Rattle.dspec_paths.specs.CountLaws.{AdoptingBalances, BeginningBalances, DiscardingBalances, KeepingBalances, KeepingPartBalances, LosingBalances, ManyBalance, TurningBalances};
ghost use Rattle.dspec_paths.specs.Counts.{CountsAddUp, KeptCounted, ThrownCounted, no_counts};

use crate::speculation_calls::SpeculationCalls;

/// So it is of a table in which no path has begun.
pub fn no_path_balances()
    ensures { CountsAddUp (replicate 64 None) no_counts }
{}

/// A path that begins is counted, and is one more that is open.
pub fn beginning_balances()
    ensures { BeginningBalances }
{}

/// A path that goes on in a new speculation is open as before.
pub fn turning_balances()
    ensures { TurningBalances }
{}

/// A path that is kept, or lost, is counted once, and is open no more; one that waits for room is open as before.
pub fn keeping_balances<B: SpeculationCalls>()
    ensures { (cpu : B) → KeepingBalances (B.lacks_room cpu) }
{}

/// The same of a path of which a part is kept: it is open until its last part is decided.
pub fn keeping_a_part_balances<B: SpeculationCalls>()
    ensures { (cpu : B) → KeepingPartBalances (B.lacks_room cpu) }
{}

/// A path that is thrown away is counted once, and is open no more.
pub fn discarding_balances()
    ensures { DiscardingBalances }
{}

/// The same of one that is lost as a whole.
pub fn losing_balances()
    ensures { LosingBalances }
{}

/// A path that is another thread's from now on is open as before.
pub fn adopting_balances()
    ensures { AdoptingBalances }
{}

/// The paths of a thread, or all, are counted once each where they are thrown away.
pub fn throwing_many_balances()
    ensures { ManyBalance ThrownCounted }
{}

/// The same where they are kept.
pub fn keeping_many_balances()
    ensures { ManyBalance KeptCounted }
{}
