/// Stands before and after every call of the demonstration's CPUs, on the CPU's own thread. The calls of a CPU are counted
/// from 1. It may hold a CPU back, and so make the calls of several overlap as a test wants them.
pub trait Gate: Sync {
    /// Whether the CPU goes on with this call. Where it doesn't, its thread ends.
    fn before(&self, cpu: u32, call: u32) -> bool;

    /// The call has returned.
    fn after(&self, cpu: u32, call: u32);
}

/// A gate that stands after every round of the demonstration's consumer too, on the consumer's thread. It may hold the consumer
/// back until the CPUs have made calls, and the CPUs until it has made rounds, so that batches come whatever the schedule.
pub trait RoundGate: Gate {
    /// The consumer has made so many rounds.
    fn round(&self, rounds: u32);
}

/// Holds nobody back.
#[derive(Clone, Copy, Debug, PartialEq, Eq)]
pub struct Free;

impl Gate for Free {
    ghost use Rattle.std.specs.Prelude.{◌≡◌, true};

    fn before(&self, _cpu: u32, _call: u32) -> bool
        ensures { result ≡ true }
    {
        true
    }

    fn after(&self, _cpu: u32, _call: u32) {}
}

/// A gate that the consumer passes by.
#[derive(Drop)]
pub(crate) struct PassedBy<'a, G: Gate> {
    pub(crate) gate: &'a G,
}

impl<G: Gate> Gate for PassedBy<'_, G> {
    fn before(&self, cpu: u32, call: u32) -> bool {
        self.gate.before(cpu, call)
    }

    fn after(&self, cpu: u32, call: u32) {
        self.gate.after(cpu, call);
    }
}

impl<G: Gate> RoundGate for PassedBy<'_, G> {
    fn round(&self, _rounds: u32) {}
}
