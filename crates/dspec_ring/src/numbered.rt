ghost use Rattle.std.specs.Prelude.{◌<◌, ◌^◌, length};

use crate::Batch;
use rtrb::Protocol;

/// Fewer than 2^62 batches were handed before each: so the consumer's thread knows that it can count those it takes.
#[derive(Clone, Copy)]
pub(crate) struct Numbered;

impl Protocol<Batch> for Numbered {
    ghost allows = { λ before _. length before < 2 ^ 62 };
}
