//! Two CPUs over one Shared, and their calls.
ghost use Rattle.std.specs.Prelude.{◌≡◌, [], IfOk, None};
ghost use Rattle.dspec_deeds.specs.Ranges.{start_fault};
ghost use Rattle.dspec_table.specs.Seats.{known, known_there, cpu_of, fresh_seat, set_up, IsAt, IsConsumerAt};
ghost use Rattle.dspec_cpu.specs.{Lists.schema_of, Lists.words_of, Standing.Belongs, Standing.identity};

use dspec_cpu::{Cpu, Shared};
use dspec_deeds::{Answer, Config, CpuOp, StartFault};
use dspec_record::Schema;
use dspec_ring::{ConsumerEnd, pair};
use dspec_table::{ConsumerSeat, CpuSeat, Words};
use std::alloc::{AllocError, Global};
use std::fmt::Debug;
use std::process::Abort;

/// Asserts that what was found is what is wanted. The one `assert_eq!`: a test that has many takes long to prove.
pub fn same<T: PartialEq + Debug + Drop>(rt: &impl Abort, found: T, wanted: T) {
    assert_eq!(rt; found, wanted);
}

/// Two CPUs of one session, what they share, and the consumer's seat.
#[derive(Drop)]
pub struct Cpus<S: Schema> {
    pub shared: Shared,
    pub first: Cpu<S>,
    pub second: Cpu<S>,
    pub consumer: ConsumerSeat,
}

/// A CPU on a seat that did nothing, and the consumer's end of its rings.
fn made<S: Schema>(
    alloc: Global,
    number: u32,
    config: &Config,
    schema: S,
    seat: CpuSeat,
) -> Result<(Cpu<S>, ConsumerEnd), StartFault>
    requires fine { start_fault config.now ≡ None }
    requires seat { cpu_of seat ≡ number }
    requires unused { known seat ≡ fresh_seat config.now number }
    ensures of { IfOk result (λ r. (words : Words) → IsAt words seat → Belongs words (identity r.0)) }
    ensures schema { IfOk result (λ r. schema_of r.0 ≡ schema) }
{
    let Ok((near, far)) = pair(alloc) else {
        return Err(StartFault::Memory);
    };
    match Cpu::make(alloc, number, config, schema, seat, near) {
        Ok(cpu) => Ok((cpu, far)),
        Err(AllocError) => Err(StartFault::Memory),
    }
}

/// The words of a session of two CPUs, and all seats.
fn dealt(
    alloc: Global,
    config: &Config,
) -> Result<(Words, CpuSeat, CpuSeat, ConsumerSeat), StartFault>
    requires two { config.now.cpus ≡ 2 }
    ensures fine { IfOk result (λ _. start_fault config.now ≡ None) }
    ensures config { IfOk result (λ r. set_up r.0 ≡ config.now) }
    ensures first { IfOk result (λ r. IsAt r.0 r.1 × (cpu_of r.1 ≡ 0) × (known r.1 ≡ fresh_seat config.now 0)) }
    ensures second { IfOk result (λ r. IsAt r.0 r.2 × (cpu_of r.2 ≡ 1) × (known r.2 ≡ fresh_seat config.now 1)) }
    ensures consumer { IfOk result (λ r. IsConsumerAt r.0 r.3 × ((known_there r.3).asks ≡ [])) }
{
    let (words, mut seats, consumer) = Words::start(alloc, config)?;
    let second = seats.pop().unwrap();
    let first = seats.pop().unwrap();
    Ok((words, first, second, consumer))
}

/// A session of two CPUs that have made no call, and the consumer's ends of their rings.
pub fn session<S: Schema>(
    alloc: Global,
    config: &Config,
    schema: S,
) -> Result<(Cpus<S>, ConsumerEnd, ConsumerEnd), StartFault>
    requires two { config.now.cpus ≡ 2 }
    ensures first { IfOk result (λ r. Belongs (words_of r.0.shared) (identity r.0.first)) }
    ensures second { IfOk result (λ r. Belongs (words_of r.0.shared) (identity r.0.second)) }
    ensures schemas { IfOk result (λ r. (schema_of r.0.first ≡ schema) × (schema_of r.0.second ≡ schema)) }
    ensures consumer { IfOk result (λ r. IsConsumerAt (words_of r.0.shared) r.0.consumer) }
    ensures unasked { IfOk result (λ r. ((known_there r.0.consumer).asks ≡ []) × ((set_up (words_of r.0.shared)).cpus ≡ 2)) }
{
    let (words, seat, other, consumer) = dealt(alloc, config)?;
    let (first, near) = made(alloc, 0, config, schema, seat)?;
    let (second, far) = made(alloc, 1, config, schema, other)?;
    let shared = Shared::make(words);
    let cpus = Cpus {
        shared,
        first,
        second,
        consumer,
    };
    Ok((cpus, near, far))
}

/// Makes a call. A record that isn't one of the schema ends the test.
pub fn call<S: Schema>(
    rt: &impl Abort,
    schema: &S,
    shared: &Shared,
    cpu: &mut Cpu<S>,
    op: &CpuOp,
) -> Answer
    requires of { Belongs (words_of shared.now) (identity cpu.old) }
    requires schema { schema_of cpu.old ≡ schema.now }
    ensures same { identity cpu.new ≡ identity cpu.old }
{
    match *op {
        CpuOp::Trace(rec) => {
            assert!(rt; schema.accepts(&rec));
            Answer::Traced(cpu.trace(shared, &rec))
        }
        CpuOp::Speculation => Answer::Opening(cpu.speculation(shared)),
        CpuOp::Speculate(id, rec) => {
            assert!(rt; schema.accepts(&rec));
            Answer::Spoken(cpu.speculate(shared, id, &rec))
        }
        CpuOp::Commit(id) => Answer::Decided(cpu.commit(shared, id)),
        CpuOp::Discard(id) => Answer::Decided(cpu.discard(shared, id)),
        CpuOp::Service => Answer::Served(cpu.service(shared)),
    }
}
