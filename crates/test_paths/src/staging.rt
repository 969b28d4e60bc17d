//! A CPU of a session of its own.
ghost use Rattle.std.specs.Prelude.{◌≡◌, IfOk, None};
ghost use Rattle.dspec_deeds.specs.Ranges.{start_fault};
ghost use Rattle.dspec_table.specs.Seats.{IsAt, cpu_of, fresh_seat, known};
ghost use Rattle.dspec_cpu.specs.{Lists.words_of, Standing.Belongs, Standing.identity};

use dspec_cpu::{Cpu, Shared};
use dspec_deeds::{Config, StartFault};
use dspec_record::{Enablings, Field};
use dspec_ring::pair;
use dspec_table::{CpuSeat, Words};
use std::alloc::{AllocError, Global};
use std::fmt::Debug;
use std::process::Abort;

/// Asserts that what was found is what is wanted.
pub fn same<T: PartialEq + Debug + Drop>(rt: &impl Abort, found: T, wanted: T) {
    assert_eq!(rt; found, wanted);
}

/// Records of one byte, which have eight bytes with their EPID, 1.
fn schema() -> Enablings {
    let mut schema = Enablings::new();
    let _ = schema.enable(&[Field::One]);
    schema
}

/// The words of a session of one CPU, and its seat.
fn dealt(alloc: Global, config: &Config) -> Result<(Words, CpuSeat), StartFault>
    requires one { config.now.cpus ≡ 1 }
    ensures fine { IfOk result (λ _. start_fault config.now ≡ None) }
    ensures first { IfOk result (λ r. IsAt r.0 r.1 × (cpu_of r.1 ≡ 0) × (known r.1 ≡ fresh_seat config.now 0)) }
{
    let (words, mut seats, _consumer) = Words::start(alloc, config)?;
    let first = seats.pop().unwrap();
    Ok((words, first))
}

/// What a session of one CPU shares, and the CPU, which has made no call.
pub fn session(alloc: Global, config: &Config) -> Result<(Shared, Cpu<Enablings>), StartFault>
    requires one { config.now.cpus ≡ 1 }
    ensures of { IfOk result (λ r. Belongs (words_of r.0) (identity r.1)) }
{
    let (words, seat) = dealt(alloc, config)?;
    let Ok((near, _far)) = pair(alloc) else {
        return Err(StartFault::Memory);
    };
    match Cpu::make(alloc, 0, config, schema(), seat, near) {
        Ok(cpu) => Ok((Shared::make(words), cpu)),
        Err(AllocError) => Err(StartFault::Memory),
    }
}
