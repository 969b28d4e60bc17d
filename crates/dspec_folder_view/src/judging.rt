//! What is wrong with a file of a trace, and what of it is kept where its writer was stopped.

ghost use Rattle.std.specs.Prelude.{◌≡◌, ◌≢◌, true, false, IfOk};
ghost use Rattle.dspec_ctf_reading.specs.Told.{told_layout};
ghost use Rattle.dspec_folder_view.specs.Examined.{IsMend, IsUuidPlace, IsSoundFile, IsVerdict};

use dspec_ctf_reading::Metadata;
use dspec_ctf_reading::folder::{Ending, FileFault, Whose, check_file, ending_of};
use std::alloc::{AllocError, Global};

/// What is wrong with a file of a trace, if anything.
pub(crate) fn wrong_with(
    alloc: Global,
    metadata: &Metadata<'_>,
    whose: &Whose,
    bytes: &[u8],
) -> Result<Option<FileFault>, AllocError>
    ensures { IfOk result (IsVerdict (told_layout metadata.now) whose.now bytes.now) }
{
    match check_file(alloc, metadata, whose, bytes) {
        Ok(()) => Ok(None),
        Err(fault) if fault.is_memory() => Err(AllocError),
        Err(fault) => Ok(Some(fault)),
    }
}

/// What is to be done with a file.
#[derive(Debug, Clone, Copy, PartialEq, Eq)]
pub(crate) enum Mend {
    /// Nothing: it is sound.
    Nothing,
    /// Its bytes from this one on are to be cut off: what stands before is sound.
    CutAt(usize),
    /// Nothing: this is wrong with it, and isn't that its end is missing.
    Leave(FileFault),
}

/// What is to be done with a file, with which this is wrong.
fn mend_wrong(
    alloc: Global,
    metadata: &Metadata<'_>,
    whose: &Whose,
    bytes: &[u8],
    fault: FileFault,
) -> Result<Mend, AllocError>
    requires { ¬ IsSoundFile (told_layout metadata.now) whose.now bytes.now }
    ensures { IfOk result (IsMend (told_layout metadata.now) whose.now bytes.now) }
{
    let Ending::Cut(at) = ending_of(metadata.clock.is_some(), &whose.uuid, bytes) else {
        return Ok(Mend::Leave(fault));
    };
    match wrong_with(alloc, metadata, whose, &bytes[..at])? {
        None => Ok(Mend::CutAt(at)),
        Some(before) => Ok(Mend::Leave(before)),
    }
}

/// What is to be done with a file, so that it is sound: it is left alone where it is already, and where cutting off what comes after
/// its last whole packet isn't enough.
pub(crate) fn mend_of(
    alloc: Global,
    metadata: &Metadata<'_>,
    whose: &Whose,
    bytes: &[u8],
) -> Result<Mend, AllocError>
    ensures { IfOk result (IsMend (told_layout metadata.now) whose.now bytes.now) }
{
    match wrong_with(alloc, metadata, whose, bytes)? {
        None => Ok(Mend::Nothing),
        Some(fault) => mend_wrong(alloc, metadata, whose, bytes, fault),
    }
}

/// Whether both are one uuid.
fn is_one_uuid(one: &[u8; 16], other: &[u8; 16]) -> bool
    ensures same { result ≡ true → one.now ≡ other.now }
    ensures other { result ≡ false → one.now ≢ other.now }
{
    one == other
}

/// The place of the first of these uuids that is this one.
pub(crate) fn place_of(uuids: &[[u8; 16]], uuid: &[u8; 16]) -> Option<usize>
    ensures { IsUuidPlace uuids.now uuid.now result }
{
    for (place, other) in uuids.iter().enumerate() {
        if is_one_uuid(other, uuid) {
            return Some(place);
        }
    }
    None
}
