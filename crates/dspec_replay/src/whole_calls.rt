ghost use Rattle.std.specs.Prelude.{◌≡◌, None, Some, length, true, IfErr, IfOk, OnErr};
ghost use Rattle.dspec_interleaving.specs.Calls.{record_passes};
ghost use Rattle.dspec_cpu.specs.{Lists.schema_of, Lists.words_of, Standing.Belongs, Standing.identity};
ghost use Rattle.dspec_session_core.specs.Sessions.{IsSession};
ghost use Rattle.dspec_replay.specs.Called.{Calls, IsCalled, uncalled};

use dspec_cpu::{Cpu, Listed, Shared};
use dspec_deeds::{Answer, CpuOp};
use dspec_record::Schema;
use dspec_session_core::Session;

/// Why a call of a CPU isn't made. Nothing has changed then.
#[derive(Clone, Copy, Debug, PartialEq, Eq)]
pub enum Uncalled {
    /// The session has no such CPU.
    NoSuchCpu,
    /// The record isn't one of the schema.
    BadRecord,
}

/// Whether the schema accepts the call's record, if it has one.
pub fn is_accepted<S: Schema>(schema: &S, op: &CpuOp) -> bool
    ensures { result ≡ record_passes (S.accepted schema.now) op.now }
{
    match op {
        CpuOp::Trace(rec) => schema.accepts(rec),
        CpuOp::Speculate(_, rec) => schema.accepts(rec),
        _ => true,
    }
}

/// A call of a CPU, whose record the schema accepts.
pub fn call_cpu<S: Schema>(shared: &Shared, schema: &S, cpu: &mut Cpu<S>, op: &CpuOp) -> Answer
    requires of { Belongs (words_of shared.now) (identity cpu.old) }
    requires schema { schema_of cpu.old ≡ schema.now }
    requires accepted { record_passes (S.accepted schema.now) op.now ≡ true }
    ensures same { identity cpu.new ≡ identity cpu.old }
    ensures calls { Calls ⟦<Cpu<S> as Listed>⟧.has_list op.now result cpu.old cpu.new }
{
    match op {
        CpuOp::Trace(rec) => Answer::Traced(cpu.trace(shared, rec)),
        CpuOp::Speculation => Answer::Opening(cpu.speculation(shared)),
        CpuOp::Speculate(id, rec) => Answer::Spoken(cpu.speculate(shared, *id, rec)),
        CpuOp::Commit(id) => Answer::Decided(cpu.commit(shared, *id)),
        CpuOp::Discard(id) => Answer::Decided(cpu.discard(shared, *id)),
        CpuOp::Service => Answer::Served(cpu.service(shared)),
    }
}

/// A whole call of a CPU of a session, by its number, or why it isn't made: NoSuchCpu, BadRecord, in that order. Of the session
/// that CPU alone moves; where the call isn't made nothing does.
pub fn run_cpu<S: Schema>(
    session: &mut Session<S>,
    schema: &S,
    cpu: u32,
    op: CpuOp,
) -> Result<Answer, Uncalled>
    requires session { IsSession schema.now session.old }
    ensures session { IsSession schema.now session.new }
    ensures allowed { IfOk result (λ _. uncalled (S.accepted schema.now) (length session.old.cpus.items) cpu op ≡ None) }
    ensures called { IfOk result (λ answer. IsCalled ⟦<Cpu<S> as Listed>⟧.has_list cpu op answer session.old session.new) }
    ensures refused { IfErr result (λ why. uncalled (S.accepted schema.now) (length session.old.cpus.items) cpu op ≡ Some why) }
    ensures unchanged { OnErr result (session.new ≡ session.old) }
{
    let place = cpu as usize;
    if place >= session.cpus.len() {
        return Err(Uncalled::NoSuchCpu);
    }
    if !is_accepted(schema, &op) {
        return Err(Uncalled::BadRecord);
    }
    Ok(call_cpu(&session.shared, schema, &mut session.cpus[place], &op))
}

/// The consumer meets each CPU of a session, CPU 0 first: then each has seen what any other did before.
pub fn meet_all<S: Schema>(session: &mut Session<S>, _schema: &S)
    requires session { IsSession _schema.now session.old }
    ensures session { IsSession _schema.now session.new }
    ensures cpus { length session.new.cpus.items ≡ length session.old.cpus.items }
{
    for place in 0..session.cpus.len() {
        session
            .consumer
            .meet(&session.shared, &mut session.cpus[place]);
    }
}
