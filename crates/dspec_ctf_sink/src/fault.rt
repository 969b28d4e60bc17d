ghost use Rattle.std.specs.{IoError.error_kind, Prelude.◌≡◌, Prelude.◌≢◌, declared.io.ErrorKind.TheVariants.OutOfMemory};
ghost use Rattle.dspec_ctf_sink.specs.{Faults.system_code, declared.fault.FolderFault.TheVariants.Memory, declared.fault.FolderFault.TheVariants.Read, declared.fault.FolderFault.TheVariants.Write};

use dspec_ctf::{MetadataFault, PacketFault};
use std::alloc::{AllocError, AllocFailed};
use std::error::Error;
use std::{fmt, io};

/// Why a trace folder isn't made, or a write isn't taken.
#[derive(Debug, Clone, Copy, PartialEq, Eq)]
pub enum FolderFault {
    /// It is there, and has files in it.
    NotEmpty,
    /// There is no metadata for these names.
    Metadata(MetadataFault),
    /// A batch of this CPU has no packet.
    Packet { cpu: u32, fault: PacketFault },
    /// A CPU's number is 64 or more, which no session has.
    Cpu(u32),
    /// The folder can't be looked into.
    Read,
    /// The folder, or a file in it, can't be made or written, for what the system numbers so (`errno`); 0 where it gave no number.
    /// Nothing of a write that failed is left.
    Write(i32),
    /// A write failed in its middle, and what it had written couldn't be cut off: the file ends with a broken packet.
    Cut,
    /// A growth was refused.
    Memory,
}

impl From<AllocError> for FolderFault {
    ghost from_gives = { λ _ fault. fault ≡ Memory };

    fn from(_refused: AllocError) -> Self {
        FolderFault::Memory
    }
}

impl<T: Drop> From<AllocFailed<T>> for FolderFault {
    ghost from_gives = { λ _ fault. fault ≡ Memory };

    fn from(_refused: AllocFailed<T>) -> Self {
        FolderFault::Memory
    }
}

impl FolderFault {
    ghost use Rattle.std.specs.Prelude.{◌≡◌};
    ghost use Rattle.dspec_ctf_sink.specs.Faults.{is_memory};

    /// Whether memory was wanting, wherever that was.
    pub fn is_memory(&self) -> bool
        ensures { result ≡ is_memory self.now }
    {
        match self {
            FolderFault::Memory => true,
            FolderFault::Metadata(fault) => matches!(fault, MetadataFault::Memory),
            FolderFault::Packet { fault, .. } => matches!(fault, PacketFault::Memory),
            _ => false,
        }
    }
}

impl Error for FolderFault {}

/// A write fault is told in the system's own words.
impl fmt::Display for FolderFault {
    fn fmt<W: fmt::Write>(&self, f: &mut fmt::Formatter<W>) -> fmt::Result {
        match self {
            FolderFault::NotEmpty => f.write_str("the folder has files in it"),
            FolderFault::Metadata(fault) => write!(f, "{fault}"),
            FolderFault::Packet { cpu, fault } => write!(f, "a batch of cpu {cpu}: {fault}"),
            FolderFault::Cpu(cpu) => write!(f, "no cpu {cpu}"),
            Self::Read => f.write_str("read fault"),
            FolderFault::Write(0) => f.write_str("write fault"),
            FolderFault::Write(code) => {
                write!(f, "write fault: {}", io::Error::from_raw_os_error(*code))
            }
            FolderFault::Cut => f.write_str("write fault, and a file ends with a broken packet"),
            FolderFault::Memory => f.write_str("out of memory"),
        }
    }
}

/// What is told of a folder that can't be looked into.
pub(crate) fn look_fault(fault: &io::Error) -> FolderFault
    ensures memory { error_kind fault.now ≡ OutOfMemory → result ≡ Memory }
    ensures other { error_kind fault.now ≢ OutOfMemory → result ≡ Read }
{
    if fault.kind() == io::ErrorKind::OutOfMemory {
        FolderFault::Memory
    } else {
        FolderFault::Read
    }
}

/// What is told of a folder, or of a file in it, that can't be made or written.
pub(crate) fn write_fault(fault: &io::Error) -> FolderFault
    ensures memory { error_kind fault.now ≡ OutOfMemory → result ≡ Memory }
    ensures other { error_kind fault.now ≢ OutOfMemory → result ≡ Write (system_code fault.now) }
{
    if fault.kind() == io::ErrorKind::OutOfMemory {
        FolderFault::Memory
    } else {
        FolderFault::Write(fault.raw_os_error().unwrap_or(0))
    }
}
