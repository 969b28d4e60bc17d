//! The law, as the clause of a function that has nothing to do.

ghost use Rattle.dspec_filing_reading.specs.Laws.{WrittenIsRead};

use dspec_ctf::laws::{files_have_all, runs_have_all};
use dspec_ctf_reading::laws::{files_join, live_file_reads_back};

/// Whatever calls were made on a CPU's files, what the caller wrote of the packets is read back: the first records of each batch, each in one of 64 files, in
/// order, and in the first file how many were told as missed. All others of a batch are lost, and counted with its drops and with what else was missed. So it is
/// of the packets that count as written, and of these with the one that was handed out last.
pub fn written_packets_read_back()
    ensures { WrittenIsRead }
{
    live_file_reads_back();
    files_join();
    files_have_all();
    runs_have_all();
}
