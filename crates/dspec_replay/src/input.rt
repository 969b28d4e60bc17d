ghost use Rattle.std.specs.Prelude.{◌≡◌, ◌≤◌, ◌<◌, length, vec_len, IfOk, IfSome};
ghost use Rattle.dspec_replay.specs.declared.input.InputFault.TheVariants.{Memory};

use std::alloc::{AllocError, Global};
use std::io::Read;
use thiserror::Error;

/// The longest input that is played, in bytes.
pub const MAX_INPUT: usize = 1_048_576;

/// The most reads that are made of one input.
const MAX_READS: u32 = 2_097_152;

/// How many bytes one read asks for.
const BUFFER_SIZE: usize = 4096;

/// Why an input wasn't read to its end.
#[derive(Clone, Copy, Debug, PartialEq, Eq, Error)]
pub enum InputFault {
    /// It has more bytes than are played.
    #[error("input too long")]
    TooLong,
    /// A read failed, or there were too many.
    #[error("read fault")]
    Read,
    /// A growth was refused.
    #[error("out of memory")]
    Memory,
}

impl From<AllocError> for InputFault {
    ghost from_gives = { λ _ fault. fault ≡ Memory };

    fn from(_refused: AllocError) -> Self {
        InputFault::Memory
    }
}

/// Reads an input to its end, by reads into one buffer. A read that fails, or one too many, is a read fault.
pub fn read_whole<R: Read>(alloc: Global, input: &mut R) -> Result<Vec<u8>, InputFault>
    ensures whole { IfOk result (λ bytes. IfSome (R.remaining input.old) (λ known. bytes.items ≡ known)) }
    ensures within { IfOk result (λ bytes. vec_len bytes ≤ MAX_INPUT) }
    ensures too_long { result ≡ Err InputFault.TooLong → IfSome (R.remaining input.old) (λ known. MAX_INPUT < length known) }
{
    let mut bytes = Vec::new(alloc);
    let mut buffer = [0u8; BUFFER_SIZE];
    for _ in 0..MAX_READS {
        let Ok(count) = input.read(&mut buffer) else {
            return Err(InputFault::Read);
        };
        if count == 0 {
            return Ok(bytes);
        }
        if count > MAX_INPUT - bytes.len() {
            return Err(InputFault::TooLong);
        }
        bytes.extend_from_slice(&buffer[..count])?;
    }
    Err(InputFault::Read)
}
