//! The text of a trace's metadata.

ghost use Rattle.std.specs.Prelude.{◌≡◌, IfOk, IfErr, IsTrue, Some, None};
ghost use Rattle.dspec_ctf_reading.specs.{Faults.is_misread, Parts.Gives, ReadingMetadata.read_metadata as metadata_read, Told.told_layout};

use crate::entries::events;
use crate::fault::{MetadataReadFault, ReadStop};
use crate::heading::{clock, process, streams, trace};
use crate::scan::past_text;
use crate::told::Metadata;
use std::alloc::Global;

/// What the text tells, or where reading it stopped.
fn read<'t>(alloc: Global, text: &'t [u8]) -> Result<Metadata<'t>, ReadStop>
    ensures { Gives result told_layout (metadata_read text.now) }
{
    let (uuid, rest) = trace(text)?;
    let (process, rest) = process(rest)?;
    let rest = past_text(rest, "\ttracer_name = \"sidingyarrow\";\n};\n")?;
    let (clock, rest) = clock(rest)?;
    let rest = streams(clock.is_some(), rest)?;
    let events = events(alloc, rest)?;
    Ok(Metadata {
        uuid,
        process,
        clock,
        events,
    })
}

/// The line, from 1 on, of the byte with so many bytes left, itself among them.
fn line_of(text: &[u8], left: usize) -> u64 {
    let mut line = 1u64;
    for byte in &text[..text.len().saturating_sub(left)] {
        if *byte == b'\n' {
            line = line.saturating_add(1);
        }
    }
    line
}

/// What a trace's metadata tells.
pub fn read_metadata<'t>(alloc: Global, text: &'t [u8]) -> Result<Metadata<'t>, MetadataReadFault>
    ensures read { IfOk result (λ metadata. metadata_read text.now ≡ Some (told_layout metadata)) }
    ensures fault { IfErr result (λ fault. IsTrue (is_misread fault) → metadata_read text.now ≡ None) }
{
    match read(alloc, text) {
        Ok(metadata) => Ok(metadata),
        Err(ReadStop::Unread { left, expected }) => Err(MetadataReadFault::Line {
            line: line_of(text, left),
            expected,
        }),
        Err(ReadStop::TooLarge { left }) => Err(MetadataReadFault::TooLarge {
            line: line_of(text, left),
        }),
        Err(ReadStop::Memory) => Err(MetadataReadFault::Memory),
    }
}
