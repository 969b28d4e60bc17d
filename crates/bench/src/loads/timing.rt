//! Times of loads, alone and beside another thread's exchanges.
ghost use Rattle.std.specs.Prelude.{◌≡◌, ◌^◌};
ghost use Rattle.dspec_deeds.specs.History.{scan};
ghost use Rattle.dspec_table.specs.Seats.{known, IsAt, IsConsumerAt, set_up, cpu_of};
ghost use Rattle.test_words.specs.Calls.{Unused};

use crate::loads::loading::load_all;
use crate::loads::stirring::stir;
use dspec_record::Rec;
use dspec_table::{ConsumerSeat, CpuSeat, Words};
use std::alloc::AllocError;
use std::sync::Wait;
use std::thread::{Promise, Threads};
use std::time::Instant;
use std::{io, thread};

/// How many loads are timed at once, and how often.
const LOADS: u32 = 200_000;

const ROUNDS: u32 = 2_000;

/// Nothing is promised of the seat that comes back.
#[derive(Clone, Copy)]
struct Back;

impl Promise<CpuSeat> for Back {
    ghost kept_by = { λ p r. Unit {0} };
}

/// The least time of some rounds of loads, in nanoseconds; the greatest number where no clock was read.
fn least(rt: &HostRuntime, words: &Words, seat: &mut CpuSeat, rec: Rec) -> u64
    requires seat { IsAt words.now seat.old }
    requires idle { scan (set_up words.now) (cpu_of seat.old) (known seat.old).own ≡ 0 }
    ensures seat { IsAt words.now seat.new × (cpu_of seat.new ≡ cpu_of seat.old) }
    ensures idle { scan (set_up words.now) (cpu_of seat.new) (known seat.new).own ≡ 0 }
{
    let mut least = u64::MAX;
    for _ in 0..ROUNDS {
        let start = Instant::now(rt);
        let _ = load_all(words, seat, rec, LOADS);
        if let Ok(start) = start {
            if let Ok(took) = start.elapsed(rt) {
                let nanos = u64::try_from(took.as_nanos()).unwrap_or(u64::MAX);
                if nanos < least {
                    least = nanos;
                }
            }
        }
    }
    least
}

/// The same while another thread makes exchanges on a slot's word; a stop ends that thread.
fn least_beside<R: Threads + Wait>(
    rt: &R,
    clock: &HostRuntime,
    words: &Words,
    mut seat: CpuSeat,
    other: CpuSeat,
    mut consumer: ConsumerSeat,
    rec: Rec,
) -> Result<u64, AllocError>
    requires seat { IsAt words.now seat × (scan (set_up words.now) (cpu_of seat) (known seat).own ≡ 0) }
    requires other { IsAt words.now other × Unused (set_up words.now) (cpu_of other) (known other).own }
    requires consumer { IsConsumerAt words.now consumer }
    requires slots { (set_up words.now).nspec ≡ 1 }
    requires issues { (set_up words.now).max_issues ≡ 2 ^ 57 }
{
    thread::scope(
        thread::scope_env(),
        rt,
        move |scope| -> Result<u64, AllocError>
            requires seat { IsAt words.now seat × (scan (set_up words.now) (cpu_of seat) (known seat).own ≡ 0) }
            requires other { IsAt words.now other × Unused (set_up words.now) (cpu_of other) (known other).own }
            requires consumer { IsConsumerAt words.now consumer }
            requires slots { (set_up words.now).nspec ≡ 1 }
            requires issues { (set_up words.now).max_issues ≡ 2 ^ 57 }
        {
            let stirred = scope.spawn_with(
                Back,
                move || -> CpuSeat
                    requires other { IsAt words.now other × Unused (set_up words.now) (cpu_of other) (known other).own }
                    requires slots { (set_up words.now).nspec ≡ 1 }
                    requires issues { (set_up words.now).max_issues ≡ 2 ^ 57 }
                { stir(words, other) },
            )?;
            let beside = least(clock, words, &mut seat, rec);
            consumer.store_activity(words);
            let _seat = stirred.join(rt);
            Ok(beside)
        },
    )
}

/// Times loads alone, then beside another thread's exchanges, and prints both and their ratio in hundredths.
pub fn time_all<R: Threads + Wait>(
    threads: &R,
    rt: &HostRuntime,
    words: &Words,
    mut seat: CpuSeat,
    other: CpuSeat,
    consumer: ConsumerSeat,
    rec: Rec,
) -> io::Result<()>
    requires seat { IsAt words.now seat × (scan (set_up words.now) (cpu_of seat) (known seat).own ≡ 0) }
    requires other { IsAt words.now other × Unused (set_up words.now) (cpu_of other) (known other).own }
    requires consumer { IsConsumerAt words.now consumer }
    requires slots { (set_up words.now).nspec ≡ 1 }
    requires issues { (set_up words.now).max_issues ≡ 2 ^ 57 }
{
    let alone = least(rt, words, &mut seat, rec);
    let beside = least_beside(threads, rt, words, seat, other, consumer, rec)?;
    println!(rt; "nanoseconds of {LOADS} loads of activity, least of {ROUNDS} rounds")?;
    println!(rt; "alone {alone}, beside exchanges {beside}")?;
    let hundredths = u128::from(beside) * 100 / u128::from(alone.max(1));
    println!(rt; "ratio in hundredths {hundredths}")
}
