ghost use Rattle.std.specs.Prelude.{◌≡◌};
ghost use Rattle.core.specs.Ptr.{as_ptr};
ghost use Rattle.dspec_c.specs.Shows.{TellsBatch};

use dspec_ring::Batch;

/// A batch, as C reads it: its bytes stay where they are. No other file reads or writes what is in it, so that an export tells the batch
/// that it found, whole, or leaves what C has.
#[repr(C)]
#[derive(Drop)]
pub struct CBatch {
    /// Where they begin.
    bytes: *const u8,
    /// How many bytes.
    len: usize,
    /// How many reservations were refused since the last switch.
    drops: u64,
    /// The CPU whose batch it is.
    cpu: u32,
}

fn start_of(bytes: &[u8]) -> *const u8
    ensures { result ≡ as_ptr bytes.entry }
{
    bytes.as_ptr()
}

impl CBatch {
    /// Where these bytes of the batch, which are all of its own, are, and what it says of itself.
    pub(crate) fn of(batch: &Batch, bytes: &[u8]) -> CBatch
        requires { bytes.now ≡ batch.now.buffer.text }
        ensures told { TellsBatch result batch.now }
        ensures start { result.bytes ≡ as_ptr bytes.entry }
    {
        CBatch {
            bytes: start_of(bytes),
            len: bytes.len(),
            drops: batch.drops,
            cpu: batch.cpu,
        }
    }
}
