//! The consumer of two CPUs, whose seats and ends of the rings are used by hand.
ghost use Rattle.std.specs.Prelude.{◌≡◌, IfOk, []};
ghost use Rattle.dspec_ring.specs.Known.{IsUnusedCpu};
ghost use Rattle.dspec_table.specs.Seats.{known, IsAt, set_up, cpu_of};
ghost use Rattle.dspec_cpu.specs.Lists.{words_of};
ghost use Rattle.dspec_session_core.specs.Consumers.{IsConsumerOf};

use dspec_cpu::Shared;
use dspec_ring::{CpuEnd, pair};
use dspec_samples::sized;
use dspec_session::Consumer;
use dspec_table::{CpuSeat, Words};
use std::alloc::{AllocError, Global};
use std::process::Abort;
use std::test::Fail;

mod asking;
mod batches;
mod calls;
mod damage;
mod demonstrated;
mod demonstration;
mod growths;
mod refusing;
mod speculations;
mod staging;

/// A session that has just begun: what is shared, its CPUs' seats, the first CPU's end of its rings, and the consumer.
fn begun(alloc: Global) -> Result<(Shared, CpuSeat, CpuSeat, CpuEnd, Consumer), AllocError>
    ensures first { IfOk result (λ r. IsAt (words_of r.0) r.1 × (cpu_of r.1 ≡ 0) × ((known r.1).own ≡ [])) }
    ensures second { IfOk result (λ r. IsAt (words_of r.0) r.2 × (cpu_of r.2 ≡ 1) × ((known r.2).own ≡ [])) }
    ensures end { IfOk result (λ r. IsUnusedCpu r.3) }
    ensures consumer { IfOk result (λ r. IsConsumerOf (words_of r.0) r.4) }
    ensures sizes { IfOk result (λ r. ((set_up (words_of r.0)).cpus ≡ 2) × ((set_up (words_of r.0)).nspec ≡ 1) × ((set_up (words_of r.0)).max_issues ≡ 8)) }
{
    let config = sized(2, 1, 16, 64);
    let Ok((words, mut seats, seat)) = Words::start(alloc, &config) else {
        return Err(AllocError);
    };
    let (end, one) = pair(alloc)?;
    let (_, two) = pair(alloc)?;
    let mut ends = Vec::with_capacity(alloc, 2)?;
    ends.push(one)?;
    ends.push(two)?;
    let consumer = Consumer::make(alloc, &config, seat, ends)?;
    let second = seats.pop().unwrap();
    let first = seats.pop().unwrap();
    Ok((Shared::make(words), first, second, end, consumer))
}
