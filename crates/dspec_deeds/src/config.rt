ghost use Rattle.std.specs.Prelude.{◌≡◌, ◌≤◌, ◌^◌, ◌↔◌, IsTrue, IsOk, IfErr};
ghost use Rattle.dspec_deeds.specs.Ranges.{start_fault, is_size, is_fill};

use std::error::Error;
use std::fmt;

/// What becomes of a principal buffer that is full: the Guide's chapter on buffers has both.
#[derive(Clone, Copy, Debug, PartialEq, Eq)]
pub enum Policy {
    /// The consumer has it switched for a spare one.
    Switch,
    /// The first reservation that is refused there closes it: nothing more is traced to it, and nothing sealed.
    Fill,
}

impl Policy {
    /// Whether a refused reservation closes the buffer.
    pub fn is_fill(self) -> bool
        ensures { result ≡ is_fill self }
    {
        match self {
            Policy::Switch => false,
            Policy::Fill => true,
        }
    }
}

/// What a session is set up with: numbers of CPUs and speculations, buffer sizes in bytes, two bounds, and a policy.
#[derive(Clone, Copy, Debug, PartialEq, Eq)]
pub struct Config {
    /// How many CPUs trace.
    pub cpus: u32,
    /// How many speculations may stand at once.
    pub nspec: u32,
    /// The size of a principal buffer, in bytes.
    pub bufsize: u32,
    /// The size of a speculative buffer, in bytes.
    pub specsize: u32,
    /// How many speculations one slot gives out, one after another.
    pub max_issues: u64,
    /// How many calls a CPU makes; later ones are worn.
    pub max_calls: u64,
    /// What becomes of a full principal buffer.
    pub policy: Policy,
}

/// Why a session can't start, in the order in which the fields are looked at.
#[derive(Clone, Copy, Debug, PartialEq, Eq)]
pub enum StartFault {
    /// Not 1 to 64 CPUs.
    Cpus,
    /// Not 1 to 63 speculations.
    Specs,
    /// A principal buffer of a size that isn't a multiple of 8 bytes from 8 bytes to a mebibyte.
    BufSize,
    /// A speculative buffer of such a size.
    SpecSize,
    /// Not 1 to 2^57 issues of a slot.
    Issues,
    /// Not 1 to 2^62 calls of a CPU.
    Calls,
    /// The fields are in range, and a growth was refused.
    Memory,
}

impl Error for StartFault {}

/// As a schedule's refused `config` line is told, by the number that is out of range.
impl fmt::Display for StartFault {
    fn fmt<W: fmt::Write>(&self, f: &mut fmt::Formatter<W>) -> fmt::Result {
        f.pad(match self {
            StartFault::Cpus => "config refused: cpus",
            StartFault::Specs => "config refused: nspec",
            StartFault::BufSize => "config refused: bufsize",
            StartFault::SpecSize => "config refused: specsize",
            StartFault::Issues => "config refused: issues",
            StartFault::Calls => "config refused: calls",
            StartFault::Memory => "out of memory",
        })
    }
}

/// The largest size of a buffer, in bytes.
const MAX_SIZE: u32 = 1_048_576;

/// A buffer's size is a multiple of 8 bytes, from 8 bytes to a mebibyte.
fn is_buffer_size(bytes: u32) -> bool
    ensures { result ≡ is_size bytes }
{
    (8..=MAX_SIZE).contains(&bytes) && bytes % 8 == 0
}

impl Config {
    /// So many CPUs, speculations, and bytes of a principal and of a speculative buffer. Full principal buffers are switched; slots
    /// give out as many speculations, and CPUs make as many calls, as there can be. What is out of range `check` tells.
    pub fn of(cpus: u32, nspec: u32, bufsize: u32, specsize: u32) -> Config
        ensures { result ≡ record { cpus = cpus; nspec = nspec; bufsize = bufsize; specsize = specsize; max_issues = 2 ^ 57; max_calls = 2 ^ 62; policy = Policy.Switch } }
    {
        Config {
            policy: Policy::Switch,
            max_issues: 1 << 57,
            max_calls: 1 << 62,
            bufsize,
            specsize,
            cpus,
            nspec,
        }
    }

    /// Looks at the fields in order, and refuses the first that is out of range: 1 to 64 CPUs, 1 to 63 speculations,
    /// two buffer sizes, 1 to 2^57 issues and 1 to 2^62 calls. It never answers Memory.
    pub fn check(&self) -> Result<(), StartFault>
        ensures accepted { IsOk result ↔ (start_fault self.now ≡ None) }
        ensures refused { IfErr result (λ fault. start_fault self.now ≡ Some fault) }
    {
        if self.cpus < 1 || self.cpus > 64 {
            return Err(StartFault::Cpus);
        }
        if self.nspec < 1 || self.nspec > 63 {
            return Err(StartFault::Specs);
        }
        if !is_buffer_size(self.bufsize) {
            return Err(StartFault::BufSize);
        }
        if !is_buffer_size(self.specsize) {
            return Err(StartFault::SpecSize);
        }
        if self.max_issues < 1 || self.max_issues > 1 << 57 {
            return Err(StartFault::Issues);
        }
        if self.max_calls < 1 || self.max_calls > 1 << 62 {
            return Err(StartFault::Calls);
        }
        Ok(())
    }
}
