//! What the demonstration did: its CPUs and its consumer in step, so that batches come whatever the schedule, and nobody held back.
ghost use Rattle.std.specs.Prelude.{◌≡◌, length};
ghost use Rattle.dspec_session.specs.Results.{IsDone};
ghost use Rattle.dspec_session_core.specs.Sessions.{IsSession};

use super::calls::valued;
use dspec_cpu::{Cpu, Listed};
use dspec_deeds::{Answer, CpuOp, Decided, Opening, Report, Spoken, Traced};
use dspec_record::Enablings;
use dspec_replay::run_cpu;
use dspec_session::{Closed, Demonstration, Gate, RoundGate, Session, demonstrate};
use dspec_word::SpecId;
use std::process::Abort;
use std::sync::atomic::{AtomicU64, Ordering};
use std::thread::yield_now;

/// How often a thread looks whether the others came as far.
const TURNS: u32 = 100_000_000;

/// Whether a count comes to this.
pub(super) fn comes_to(count: &AtomicU64, due: u64) -> bool {
    for _ in 0..TURNS {
        if count.load(Ordering::SeqCst) >= due {
            return true;
        }
        yield_now();
    }
    false
}

/// How many calls of each CPU returned.
#[derive(Drop)]
pub(super) struct Returned {
    pub(super) calls: [AtomicU64; 4],
}

impl Returned {
    /// None yet.
    pub(super) fn none() -> Returned {
        Returned {
            calls: [
                AtomicU64::new(0),
                AtomicU64::new(0),
                AtomicU64::new(0),
                AtomicU64::new(0),
            ],
        }
    }

    /// One more of this CPU.
    pub(super) fn count(&self, cpu: u32) {
        if let Some(calls) = self.calls.get(cpu as usize) {
            calls.fetch_add(1, Ordering::SeqCst);
        }
    }
}

/// Round k of each CPU comes after round k of the consumer and before its next.
#[derive(Drop)]
struct InStep {
    rounds: AtomicU64,
    returned: Returned,
}

impl Gate for InStep {
    fn before(&self, _cpu: u32, call: u32) -> bool {
        comes_to(&self.rounds, u64::from(call.saturating_sub(1) / 5) + 1)
    }

    fn after(&self, cpu: u32, _call: u32) {
        self.returned.count(cpu);
    }
}

impl RoundGate for InStep {
    fn round(&self, rounds: u32) {
        self.rounds.store(u64::from(rounds), Ordering::SeqCst);
        for calls in &self.returned.calls {
            let _ = comes_to(calls, u64::from(rounds.min(100)) * 5);
        }
    }
}

/// How many speculated records of a CPU may find no speculation that is open, since other CPUs held the slots just then.
const FEW: u64 = 10;

/// How many records a CPU offers once the session was stopped.
const LATE: u64 = 2;

/// A hundred records were traced, and a hundred speculated. Those of fifty rounds were discarded, the others committed.
fn tells_of_rounds(report: &Report) -> bool {
    let traced = report.accepted.saturating_add(report.dropped);
    let committed = traced.saturating_add(report.lost);
    let decided = committed.saturating_add(report.discarded);
    report.offered == 200 + LATE
        && report.specdropped == 0
        && report.held == 0
        && report.worn == 0
        && decided.saturating_add(report.void) == report.offered
        && report.void <= LATE + FEW
        && committed <= 150
        && report.discarded <= 50
        && traced >= 100
        && report.stopped == 5
}

/// Whether a CPU answers a call so.
fn answers(
    session: &mut Session<Enablings>,
    schema: &Enablings,
    cpu: u32,
    op: CpuOp,
    answer: Answer,
) -> bool
    requires { IsSession schema.now session.old }
    ensures { IsSession schema.now session.new }
{
    run_cpu(session, schema, cpu, op) == Ok(answer)
}

/// Each of the five calls of a CPU that a stop ends, which has to answer that the session was stopped.
fn is_stopped(rt: &impl Abort, session: &mut Session<Enablings>, schema: &Enablings, cpu: u32)
    requires { IsSession schema.now session.old }
    ensures { IsSession schema.now session.new }
{
    let rec = valued(1, 100);
    let none = SpecId::NONE;
    let traced = Answer::Traced(Traced::Stopped);
    let opening = Answer::Opening(Opening::Stopped);
    let spoken = Answer::Spoken(Spoken::Stopped);
    let decided = Answer::Decided(Decided::Stopped);
    let one = answers(session, schema, cpu, CpuOp::Trace(rec), traced);
    let two = answers(session, schema, cpu, CpuOp::Speculation, opening);
    let three = answers(session, schema, cpu, CpuOp::Speculate(none, rec), spoken);
    let four = answers(session, schema, cpu, CpuOp::Commit(none), decided);
    let five = answers(session, schema, cpu, CpuOp::Discard(none), decided);
    assert!(rt; one && two && three && four && five, "CPU {cpu}");
}

/// Calls each CPU after the stop, and ends the session: its reports have to tell of all rounds.
fn ends(rt: &impl Abort, shown: Demonstration) -> Closed
    requires { IsDone shown }
    ensures { length result ≡ 4 }
{
    let Demonstration {
        mut session,
        schema,
        ..
    } = shown;
    is_stopped(rt, &mut session, &schema, 0);
    is_stopped(rt, &mut session, &schema, 1);
    is_stopped(rt, &mut session, &schema, 2);
    is_stopped(rt, &mut session, &schema, 3);
    assert!(rt; session.cpus.len() == 4);
    let closed = session.finish();
    for cpu in 0..4 {
        assert!(rt; tells_of_rounds(closed.report(cpu)), "CPU {cpu}");
    }
    closed
}

/// What each CPU traced in its last round, after the last batch that it sealed.
const LAST_TRACED: &[u8] = &[1, 0, 0, 0, 99, 0, 0, 0];

/// In step each CPU seals in every other of its rounds, the first among them, and every batch is taken; so nothing is dropped.
#[test]
fn demonstrated(rt: HostRuntime) {
    let gate = InStep {
        rounds: AtomicU64::new(0),
        returned: Returned::none(),
    };
    let Ok(shown) = demonstrate(&rt, rt.alloc(), &gate) else {
        panic!(rt; "no demonstration");
    };
    for cpu in 0..4 {
        assert!(rt; shown.taken(cpu) == 50, "CPU {cpu}");
    }
    assert!(rt; gate.rounds.load(Ordering::SeqCst) == 1000);
    let closed = ends(&rt, shown);
    assert!(rt; closed.cpus() == 4);
    for cpu in 0..closed.cpus() {
        let (sealed, last) = closed.rest(cpu);
        let report = closed.report(cpu);
        assert!(rt;
            sealed.is_none() && last.buffer.bytes().starts_with(LAST_TRACED),
            "CPU {cpu}"
        );
        assert!(rt; report.drops == 0 && report.accepted <= 150, "CPU {cpu}");
    }
}

/// Nobody is held back, by calls or by rounds.
#[derive(Drop)]
struct Open;

impl Gate for Open {
    fn before(&self, _cpu: u32, _call: u32) -> bool {
        true
    }

    fn after(&self, _cpu: u32, _call: u32) {}
}

impl RoundGate for Open {
    fn round(&self, _rounds: u32) {}
}

/// Whatever the schedule, the CPUs make all their rounds, and are stopped.
#[test]
fn demonstrated_at_will(rt: HostRuntime) {
    let Ok(shown) = demonstrate(&rt, rt.alloc(), &Open) else {
        panic!(rt; "no demonstration");
    };
    assert!(rt; shown.taken(4) == 0);
    let _closed = ends(&rt, shown);
}
