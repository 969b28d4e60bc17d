use dspec::{Probe, ProbeFault, Probes};

/// The probes of the store: a request's beginning, what it did to keys, and its end.
#[derive(Clone, Copy, Drop)]
pub struct StoreProbes {
    pub begin: Probe<(u32, u32)>,
    pub added: Probe<(u32, u64, u64)>,
    pub missing: Probe<(u32,)>,
    pub end: Probe<(u32, u64)>,
}

impl StoreProbes {
    /// Declares them.
    pub fn declare(probes: &mut Probes<'static>) -> Result<StoreProbes, ProbeFault> {
        Ok(StoreProbes {
            begin: probes.probe("begin", &["request", "worker"])?,
            added: probes.probe("added", &["key", "amount", "before"])?,
            missing: probes.probe("missing", &["key"])?,
            end: probes.probe("end", &["request", "micros"])?,
        })
    }
}
