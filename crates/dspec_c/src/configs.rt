ghost use Rattle.std.specs.Prelude.{◌≡◌};
ghost use Rattle.dspec_c.specs.Configs.{asked_for, policy_numbered};

use dspec_deeds::{Config, Policy};

/// A configuration, as C writes it. A policy is 0, to switch, or 1, to fill.
#[repr(C)]
#[derive(Drop)]
pub struct CConfig {
    /// How many CPUs.
    pub cpus: u32,
    /// How many speculations at a time.
    pub nspec: u32,
    /// Bytes of a principal buffer.
    pub bufsize: u32,
    /// Bytes of a speculative buffer.
    pub specsize: u32,
    /// How many speculations a slot gives out.
    pub max_issues: u64,
    /// How many calls a CPU makes.
    pub max_calls: u64,
    /// What becomes of a full principal buffer.
    pub policy: u32,
}

fn policy_of(number: u32) -> Option<Policy>
    ensures { result ≡ policy_numbered number }
{
    match number {
        0 => Some(Policy::Switch),
        1 => Some(Policy::Fill),
        _ => None,
    }
}

impl CConfig {
    /// None: there is no such policy.
    pub(crate) fn read(&self) -> Option<Config>
        ensures { result ≡ asked_for self.now }
    {
        let policy = policy_of(self.policy)?;
        Some(Config {
            cpus: self.cpus,
            nspec: self.nspec,
            bufsize: self.bufsize,
            specsize: self.specsize,
            max_issues: self.max_issues,
            max_calls: self.max_calls,
            policy,
        })
    }
}
