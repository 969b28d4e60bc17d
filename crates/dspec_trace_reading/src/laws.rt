//! The laws, as clauses of functions that have nothing to do.

ghost use Rattle.std.specs.Prelude.{List};
ghost use Rattle.dspec.specs.{Serving.ThenServed, Workers.WorkedBy};
ghost use Rattle.dspec_trace_reading.specs.Laws.{KeptIsRead, TakenIsRead, TimedIsRead, TimedKeptIsRead};

use dspec::{Enablings, Work, Worker};
use dspec_ctf::laws::{files_have_all, runs_have_all};
use dspec_ctf_reading::laws::{files_join, live_file_reads_back, metadata_reads_back};

/// A session was traced into a folder that had no file, as its batches were taken. Where nothing was lost, the folder is read as what the
/// page promises of each CPU: its stream, all of it, in order, and how many it dropped. Where some couldn't be written, it is read as that
/// stream without the batches that were lost, and what it tells as missed, or the next packet would, are the drops and the records of those.
pub fn trace_reads_back<W: Work<Enablings>>(_schema: &Enablings, _work: &W)
    ensures taken { TakenIsRead _schema.now (ThenServed (W.does _schema.now _work.now)) }
    ensures kept { KeptIsRead _schema.now (ThenServed (W.does _schema.now _work.now)) }
{
    metadata_reads_back();
    live_file_reads_back();
}

/// The same by time. Where nothing was lost, each record of a CPU's stream is in one of its files, in order, and no other is; the first file
/// tells how many the CPU dropped. Where some couldn't be written, it is so of the records that are kept: of each batch those up to some record.
pub fn timed_trace_reads_back<W: Work<Enablings>>(_schema: &Enablings, _work: &W)
    ensures whole { TimedIsRead _schema.now (ThenServed (W.does _schema.now _work.now)) }
    ensures kept { TimedKeptIsRead _schema.now (ThenServed (W.does _schema.now _work.now)) }
{
    metadata_reads_back();
    live_file_reads_back();
    files_join();
    files_have_all();
    runs_have_all();
}

/// So it is of a session that was traced with a worker for each CPU, which came back as its work had left it.
pub fn workers_read_back<W: Worker<Enablings>>(_schema: &Enablings)
    ensures taken { (workers back : List W) → TakenIsRead _schema.now (ThenServed (WorkedBy (W.does _schema.now) workers back)) }
    ensures kept { (workers back : List W) → KeptIsRead _schema.now (ThenServed (WorkedBy (W.does _schema.now) workers back)) }
    ensures timed { (workers back : List W) → TimedIsRead _schema.now (ThenServed (WorkedBy (W.does _schema.now) workers back)) }
    ensures timed_kept { (workers back : List W) → TimedKeptIsRead _schema.now (ThenServed (WorkedBy (W.does _schema.now) workers back)) }
{
    metadata_reads_back();
    live_file_reads_back();
    files_join();
    files_have_all();
    runs_have_all();
}
