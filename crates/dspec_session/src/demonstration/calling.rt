ghost use Rattle.dspec_cpu.specs.Standing.{IsCallable};
ghost use Rattle.dspec_session.specs.Demonstrated.{CanWork, Called, WorkerDecides, WorkerOpens, WorkerServed, Serviced, Speculates, Traces};

use super::records::valued_record;
use dspec_cpu::{Cpu, Shared};
use dspec_record::Enablings;
use dspec_word::SpecId;

/// Traces record 1 with this value.
pub(crate) fn trace(cpu: &mut Cpu<Enablings>, shared: &Shared, value: u32)
    requires { CanWork shared.now 1 cpu.old }
    ensures called { Called 1 cpu.old cpu.new }
    ensures traces { Traces value cpu.old cpu.new }
{
    cpu.invariant();
    cpu.trace(shared, &valued_record(1, value));
}

/// Asks for a speculation.
pub(crate) fn speculation(cpu: &mut Cpu<Enablings>, shared: &Shared) -> SpecId
    requires { CanWork shared.now 1 cpu.old }
    ensures called { Called 0 cpu.old cpu.new }
    ensures opens { WorkerOpens result cpu.old cpu.new }
{
    cpu.invariant();
    cpu.speculation(shared).id()
}

/// Speculates record 2 with this value.
pub(crate) fn speculate(cpu: &mut Cpu<Enablings>, shared: &Shared, id: SpecId, value: u32)
    requires { CanWork shared.now 1 cpu.old }
    ensures called { Called 1 cpu.old cpu.new }
    ensures speculates { Speculates id value cpu.old cpu.new }
{
    cpu.invariant();
    cpu.speculate(shared, id, &valued_record(2, value));
}

/// Decides the speculation: commits it, or throws it away.
pub(crate) fn decide(cpu: &mut Cpu<Enablings>, shared: &Shared, id: SpecId, commits: bool)
    requires { CanWork shared.now 1 cpu.old }
    ensures called { Called 0 cpu.old cpu.new }
    ensures decides { WorkerDecides commits id cpu.old cpu.new }
{
    cpu.invariant();
    if commits {
        cpu.commit(shared, id);
    } else {
        cpu.discard(shared, id);
    }
}

/// Serves the consumer and the other CPUs. It counts as no call.
pub(crate) fn service(cpu: &mut Cpu<Enablings>, shared: &Shared)
    requires { IsCallable shared.now cpu.old }
    ensures served { WorkerServed cpu.old cpu.new }
    ensures services { Serviced cpu.old cpu.new }
{
    cpu.invariant();
    cpu.service(shared);
}
