ghost use Rattle.dspec_cpu.specs.Lists.{schema_of};
ghost use Rattle.std.specs.Prelude.{◌↔◌, IsTrue};
ghost use Rattle.examples.specs.StoreProbes.{AreStoreProbesOf};

use dspec::{Enablings, Lane, Probe, ProbeFault, Probes, Rec, Recording, Text};

/// The probes of the store. Each records a stamp in microseconds too. A transfer fires `begin`, then `read`, `wait` and `write` as its
/// steps go, and `end`.
#[derive(Debug, Clone, Copy)]
pub struct StoreProbes {
    /// The transfer, its worker, and the name of the account's owner.
    pub begin: Probe<(u32, u8, Text<2>)>,
    /// The transfer, an account, and the balance that was read.
    pub read: Probe<(u32, u16, u64)>,
    /// The transfer, and the account that it waits for.
    pub wait: Probe<(u32, u16)>,
    /// The transfer, an account, and the balance that was written.
    pub write: Probe<(u32, u16, u64)>,
    /// The transfer, and its outcome.
    pub end: Probe<(u32, u8)>,
}

/// The outcomes: it went well, the balance didn't suffice, or it had to wait for long.
pub const DONE: u8 = 0;

pub const ABORTED: u8 = 1;

pub const SLOW: u8 = 2;

impl StoreProbes {
    /// Declares them.
    pub fn declare<'n>(probes: &mut Probes<'n>) -> Result<StoreProbes, ProbeFault> {
        Ok(StoreProbes {
            begin: probes.probe("begin", &["transfer", "worker", "owner"])?,
            read: probes.probe("read", &["transfer", "account", "balance"])?,
            wait: probes.probe("wait", &["transfer", "account"])?,
            write: probes.probe("write", &["transfer", "account", "balance"])?,
            end: probes.probe_labelled(
                "end",
                &["transfer", "outcome"],
                &[&[], &["done", "aborted", "slow"]],
            )?,
        })
    }

    /// Whether the lane's schema has all of them.
    pub fn are_on(&self, lane: &Lane<'_, Enablings>) -> bool
        ensures { IsTrue result ↔ AreStoreProbesOf self.now (schema_of lane.now.cpu.now) }
    {
        self.begin.on(lane).is_ok()
            && self.read.on(lane).is_ok()
            && self.wait.on(lane).is_ok()
            && self.write.on(lane).is_ok()
            && self.end.on(lane).is_ok()
    }
}

/// The number of a record's transfer: each probe records it first.
pub fn transfer_of(rec: &Rec) -> u64 {
    *rec.values().first().unwrap_or(&0)
}
