ghost use Rattle.std.specs.Prelude.{◌≡◌, None, IfErr, IfSome, IsSome, string_bytes};
ghost use Rattle.dspec_ctf_sink.specs.Faults.{IsFolderFault};

use crate::fault::{FolderFault, look_fault};
use dspec_ctf::{Origin, Process};
use std::{fs, process};
use uuid::Uuid;

/// Where the system gives a uuid of random bytes, another one at each reading.
const RANDOM_UUID: &str = "/proc/sys/kernel/random/uuid";

/// Where it has its name.
const HOST_NAME: &str = "/proc/sys/kernel/hostname";

/// What the origin of a trace tells of this process: a uuid of the system's random bytes, the machine's name, and the number of the
/// process. What the system answers is trusted.
#[derive(Debug, Drop)]
pub struct Identity {
    pub(crate) uuid: [u8; 16],
    pub(crate) host: String,
    pub(crate) pid: u32,
}

/// The text of a file of the system, without the spaces around it.
fn line_of(rt: &HostRuntime, path: &str) -> Result<String, FolderFault>
    ensures { IfErr result IsFolderFault }
{
    match fs::read_to_string(rt, path) {
        Ok(text) => Ok(String::from_str(rt.alloc(), text.as_str().trim())?),
        Err(fault) => Err(look_fault(&fault)),
    }
}

/// A uuid that no other trace has.
fn random_uuid(rt: &HostRuntime) -> Result<[u8; 16], FolderFault>
    ensures { IfErr result IsFolderFault }
{
    let text = line_of(rt, RANDOM_UUID)?;
    match Uuid::parse_str(text.as_str()) {
        Ok(uuid) => Ok(uuid.into_bytes()),
        Err(_) => Err(FolderFault::Read),
    }
}

impl Identity {
    /// Reads it from the system, which needs `/proc`: each call has a uuid of its own.
    pub fn of_system(rt: &HostRuntime) -> Result<Identity, FolderFault>
        ensures { IfErr result IsFolderFault }
    {
        Ok(Identity {
            uuid: random_uuid(rt)?,
            host: line_of(rt, HOST_NAME)?,
            pid: process::id(rt.process()),
        })
    }

    /// The origin of a trace of this process, which is called so, without a clock's beginning.
    pub fn origin<'a>(&'a self, name: &'a str) -> Origin<'a>
        ensures uuid { result.uuid ≡ self.now.uuid }
        ensures told { IsSome result.process }
        ensures process { IfSome result.process (λ p. (p.host.now ≡ string_bytes self.now.host) × (p.name ≡ name.entry) × (p.pid ≡ self.now.pid)) }
        ensures start { result.start ≡ None }
    {
        Origin {
            uuid: self.uuid,
            process: Some(Process {
                host: self.host.as_str(),
                name,
                pid: self.pid,
            }),
            start: None,
        }
    }
}
