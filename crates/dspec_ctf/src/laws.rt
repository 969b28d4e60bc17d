//! What follows from the definitions, as clauses of functions that have nothing to do.

ghost use Rattle.std.specs.Prelude.{◌≤◌, ◌++◌, ℕ, List, length};
ghost use Rattle.dspec_record.specs.Record.{Record};
ghost use Rattle.dspec_ctf.specs.{Laws.AreFiled, Laws.HaveAllBetween, Laws.MissedPacketsAreWhole, Laws.PacketIsOfOneList, Laws.PacketsAreWhole, Laws.PortionsFit, Laws.PortionsHaveAll};
ghost use Rattle.dspec_ctf.specs.{Laws.StampsRise, Laws.StreamIsOfOneList, Rows.AreRuns, Rows.Spreads, declared.rows.Run.Run};

use dspec_record::Enablings;

/// Bytes are the packet of one list of records at most, as they are taken, whatever the packet says else.
pub fn one_packet(_enablings: &Enablings)
    ensures { PacketIsOfOneList _enablings.now }
{}

/// Bytes are the packets by time of one list of records at most.
pub fn one_stream(_enablings: &Enablings)
    ensures { StreamIsOfOneList _enablings.now }
{}

/// The packets of files have all records, in order, each in one packet whose 1,024 bytes its events don't leave. What is written at once are whole packets,
/// each of 1,024 bytes: so no packet of a file lies in two of its pages.
pub fn packets_are_whole(_enablings: &Enablings)
    ensures records { PortionsHaveAll _enablings.now }
    ensures fit { PortionsFit _enablings.now }
    ensures sizes { PacketsAreWhole _enablings.now }
    ensures missed { MissedPacketsAreWhole }
{}

/// In each file of a CPU stamps don't fall, nor to before the last stamp that it had.
pub fn files_rise()
    ensures { (lasts : List ℕ) (rs : List Record) (files new : List ℕ) → Spreads lasts rs files new
        → (file : ℕ) → StampsRise lasts rs files file }
{}

/// Each record is in one file, of 64 at most: records and the numbers of their files, side by side, are all the records in their order.
pub fn files_have_all()
    ensures { (lasts : List ℕ) (rs : List Record) (files new : List ℕ) → length lasts ≤ 64 → Spreads lasts rs files new
        → AreFiled rs files (length new) }
{}

/// Runs from one place to another, one after another, have all the records between, in their order, each once; and each record goes to
/// the file of its run.
pub fn runs_have_all()
    ensures { (lasts new : List ℕ) (rs : List Record) (from to : ℕ) (runs : List Run) → AreRuns lasts rs from runs to new
        → HaveAllBetween lasts rs from runs to new }
{}

/// Records of one batch after those of another go to files as those of a single batch.
pub fn batches_go_on()
    ensures { (lasts mid new : List ℕ) (rs qs : List Record) (files more : List ℕ)
        → Spreads lasts rs files mid → Spreads mid qs more new → Spreads lasts (rs ++ qs) (files ++ more) new }
{}
