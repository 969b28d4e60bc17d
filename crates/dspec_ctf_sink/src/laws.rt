//! What follows from the definitions, as clauses of functions that have nothing to do.

ghost use Rattle.std.specs.Prelude.{◌<◌, length};
ghost use Rattle.dspec_record.specs.EnablingRows.{EnabledRows};
ghost use Rattle.dspec_ring.specs.declared.batch.Batch.{Batch};
ghost use Rattle.dspec_ctf_sink.specs.{Accounts.Accounts, Accounts.HasText, Accounts.IsCountable, Accounts.TimedAccounts, Timed.GetsRuns, Timed.TimedTracing, Writing.GetsPacket, Writing.Tracing};

/// Nothing is lost uncounted: of each batch whose bytes are a text, the records are in the packet that was written of it, or are counted as
/// missed with its drops, up to 2^64 of them.
pub fn nothing_is_lost_uncounted()
    ensures taken { (e : EnabledRows) (old new : Tracing) (b : Batch) → b.cpu < length old.missed → HasText e b
        → IsCountable e b old.missed → GetsPacket e old b new → Accounts e old b new }
    ensures timed { (e : EnabledRows) (old new : TimedTracing) (b : Batch) → b.cpu < length old.missed → HasText e b
        → IsCountable e b old.missed → GetsRuns e old b new → TimedAccounts e old b new }
{}
