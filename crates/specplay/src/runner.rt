ghost use Rattle.std.specs.Io.KnownBytes.{Appends};
ghost use Rattle.std.specs.Prelude.{◌≡◌, ◌≢◌, ◌<◌, List, ℕ, length, IfErr, IfSome, IsErrAnd, OnErr, OnOk};
ghost use Rattle.specplay.specs.{Runs.IsInputFault, Schedules.IsCutOff, Schedules.IsToldOf, Schedules.Prints, Written.AppendsBeginning};

use crate::fault::RunFault;
use dspec_replay::input::MAX_INPUT;
use dspec_replay::{play_text, read_whole};
use dspec_schedule::printed;
use std::alloc::Global;
use std::io::{self, Read, Write};

/// Reads a whole schedule, plays it, and writes what its play prints. Nothing is written before the play has succeeded;
/// after a write fault a beginning of the output has been.
#[tactic(auto, using(crate::proofs::WritingLemmas::prints_of))]
pub fn run<R: Read, W: Write>(alloc: Global, input: &mut R, output: &mut W) -> Result<(), RunFault>
    ensures unwritten { IfErr result (λ fault. fault ≢ RunFault.Write → output.new ≡ output.old) }
    ensures too_long { IfSome (R.remaining input.old) (λ known. MAX_INPUT < length known → IsErrAnd result IsInputFault) }
    ensures limit { result ≡ Err RunFault.TooLong → IfSome (R.remaining input.old) (λ known. MAX_INPUT < length known) }
    ensures printed { OnOk result (IfSome (R.remaining input.old) (λ text.
        (printed : List ℕ) × Prints text printed × Appends (W.contents output.old) (W.contents output.new) printed)) }
    ensures told { IfErr result (λ fault. IfSome (R.remaining input.old) (λ text. IsToldOf text fault)) }
    ensures cut_off { result ≡ Err RunFault.Write → IfSome (R.remaining input.old) (λ text. IsCutOff text (W.contents output.old) (W.contents output.new)) }
{
    let text = read_whole(alloc, input)?;
    let played = play_text(alloc, text.as_slice())?;
    let page = printed(alloc, played.schedule.header(), &played.outcome)?;
    write_whole(output, page.as_str())
}

/// Writes a text, and has it go out.
pub(crate) fn write_whole<W: Write>(output: &mut W, text: &str) -> Result<(), RunFault>
    ensures ok { OnOk result (Appends (W.contents output.old) (W.contents output.new) text.now) }
    ensures err { IfErr result (λ fault. fault ≡ RunFault.Write) }
    ensures cut_off { OnErr result (AppendsBeginning (W.contents output.old) (W.contents output.new) text.now) }
{
    write_bytes(output, text.as_bytes())?;
    match output.flush() {
        Ok(()) => Ok(()),
        Err(_) => Err(RunFault::Write),
    }
}

/// Writes bytes, as many at a time as the writer takes. A write that is interrupted is made again.
fn write_bytes<W: Write>(output: &mut W, bytes: &[u8]) -> Result<(), RunFault>
    ensures ok { OnOk result (Appends (W.contents output.old) (W.contents output.new) bytes.now) }
    ensures err { IfErr result (λ fault. fault ≡ RunFault.Write) }
    ensures cut_off { OnErr result (AppendsBeginning (W.contents output.old) (W.contents output.new) bytes.now) }
{
    let mut rest = bytes;
    for _ in 0..u64::MAX {
        if rest.is_empty() {
            return Ok(());
        }
        match output.write(rest) {
            Ok(0) => return Err(RunFault::Write),
            Ok(count) => rest = rest.split_at(count).1,
            Err(error) => {
                if error.kind() != io::ErrorKind::Interrupted {
                    return Err(RunFault::Write);
                }
            }
        }
    }
    Err(RunFault::Write)
}

#[cfg(test)]
mod tests;
