//! What the types of an origin's numbers say, as clauses of functions that have nothing to do.

ghost use Rattle.std.specs.{Option.option_map_or, Prelude.◌≡◌, Prelude.◌<◌, Prelude.◌^◌, Prelude.[], Prelude.All, Prelude.length, Prelude.unwrap_or};
ghost use Rattle.dspec_trace_reading.specs.Begun.{HasOriginNumbers};

use dspec_ctf::{ClockStart, Process};
use dspec_ctf_sink::Origin;

// There are 16 bytes.
fn uuid_told(bytes: &[u8; 16])
    ensures { length bytes.now ≡ 16 }
{}

// Each is a byte.
fn bytes_told(bytes: &[u8])
    ensures { All (λ b. b < 256) bytes.now }
{}

// A number has 64 bits.
pub(crate) fn number_told(number: u64)
    ensures { number < 2 ^ 64 }
{}

// So has that of a process.
fn process_told(process: &Option<Process<'_>>)
    ensures { option_map_or (λ p. p.pid) process.now 0 < 2 ^ 64 }
{
    let Some(process) = process else {
        return;
    };
    number_told(u64::from(process.pid));
}

// So have those of the beginning of a clock.
fn start_told(start: &Option<ClockStart>)
    ensures clock { All (λ b. b < 256) (option_map_or (λ s. unwrap_or s.clock []) start.now []) }
    ensures seconds { option_map_or (λ s. s.seconds) start.now 0 < 2 ^ 64 }
    ensures ticks { option_map_or (λ s. s.ticks) start.now 0 < 2 ^ 64 }
{
    let Some(start) = start else {
        return;
    };
    number_told(start.seconds);
    number_told(start.ticks);
    let Some(clock) = &start.clock else {
        return;
    };
    bytes_told(clock.as_slice());
}

/// What an origin tells: its uuid has 16 bytes, and its numbers have 64 bits.
pub(crate) fn origin_told(origin: &Origin<'_>)
    ensures long { length origin.now.uuid ≡ 16 }
    ensures numbers { HasOriginNumbers origin.now }
{
    uuid_told(&origin.uuid);
    bytes_told(origin.uuid.as_slice());
    process_told(&origin.process);
    start_told(&origin.start);
}
