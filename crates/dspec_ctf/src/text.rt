ghost use Rattle.std.specs.Prelude.{◌≡◌, ◌++◌, ◌⊎◌, Some, None, IfOk, IfErr, OnOk, string_bytes};
ghost use Rattle.dspec_ctf.specs.{Metadata.origin_text, Metadata.metadata_text, Names.form_fault, Names.metadata_fault, Names.process_fault, Names.origin_fault};
ghost use Rattle.dspec_ctf.specs.{declared.fault.MetadataFault.TheVariants.Memory};

use crate::checking::{is_label, names_fault};
use crate::heading::{print_clock, print_environment, print_trace, stream_part, types_part};
use crate::printing::print_events;
use crate::{Form, MetadataFault, Names, Origin, Process};
use dspec_record::{Enablings, Header};
use std::alloc::{AllocError, Global};

/// The whole text.
#[tactic(auto, unfolding(crate::specs::Metadata::origin_text))]
fn print_metadata(
    text: &mut String,
    origin: &Origin<'_>,
    form: Form,
    enablings: &Enablings,
    names: &Names<'_>,
) -> Result<(), AllocError>
    ensures { OnOk result (string_bytes text.new ≡ string_bytes text.old ++ origin_text origin.now form enablings.now names.now) }
{
    text.push_str(types_part())?;
    print_trace(text, &origin.uuid)?;
    print_environment(text, origin.process)?;
    print_clock(text, origin.start, form)?;
    text.push_str(stream_part(form))?;
    print_events(text, form, enablings, names)
}

/// What can't be in a trace of this form.
#[tactic(auto, unfolding(crate::specs::Names::form_fault))]
fn form_fault(form: Form, header: Header) -> Option<MetadataFault>
    ensures { result ≡ form_fault form header }
{
    match (form, header) {
        (Form::AsTaken, _) => None,
        (Form::ByTime(_), Header::One) => Some(MetadataFault::NoStamp),
        (Form::ByTime(0), Header::Two) => Some(MetadataFault::NoFrequency),
        (Form::ByTime(_), Header::Two) => None,
    }
}

/// Why these have no metadata.
#[tactic(auto, unfolding(crate::specs::Names::metadata_fault))]
fn metadata_fault(
    alloc: Global,
    form: Form,
    enablings: &Enablings,
    names: &Names<'_>,
) -> Result<Option<MetadataFault>, AllocError>
    ensures { IfOk result (λ fault. fault ≡ metadata_fault form enablings.now names.now) }
{
    let fault = form_fault(form, enablings.header());
    if fault.is_some() {
        return Ok(fault);
    }
    match names_fault(alloc, form, enablings, names)? {
        Some(fault) => Ok(Some(MetadataFault::Name(fault))),
        None => Ok(None),
    }
}

/// Which text of a process can't be shown.
#[tactic(auto, unfolding(crate::specs::Names::process_fault))]
fn process_fault(process: &Process<'_>) -> Option<MetadataFault>
    ensures { result ≡ process_fault process.now }
{
    if !is_label(process.host) {
        return Some(MetadataFault::HostName);
    }
    if !is_label(process.name) {
        return Some(MetadataFault::ProcessName);
    }
    None
}

/// Why these have no metadata with this origin.
#[tactic(auto, unfolding(crate::specs::Names::origin_fault))]
fn origin_fault(
    alloc: Global,
    origin: &Origin<'_>,
    form: Form,
    enablings: &Enablings,
    names: &Names<'_>,
) -> Result<Option<MetadataFault>, AllocError>
    ensures { IfOk result (λ fault. fault ≡ origin_fault origin.now form enablings.now names.now) }
{
    let fault = metadata_fault(alloc, form, enablings, names)?;
    if fault.is_some() {
        return Ok(fault);
    }
    match origin.process {
        Some(process) => Ok(process_fault(&process)),
        None => Ok(None),
    }
}

/// The metadata of a trace in the Common Trace Format, version 1.8: the text of the file `metadata`, for streams with the origin's
/// uuid in their packets. Refused in this order: a form that the records don't fit, names of events, names and labels of fields, texts
/// of the process.
pub fn metadata_from(
    alloc: Global,
    origin: &Origin<'_>,
    form: Form,
    enablings: &Enablings,
    names: &Names<'_>,
) -> Result<String, MetadataFault>
    ensures text { IfOk result (λ text. string_bytes text ≡ origin_text origin.now form enablings.now names.now) }
    ensures allowed { OnOk result (origin_fault origin.now form enablings.now names.now ≡ None) }
    ensures fault { IfErr result
        (λ fault. (fault ≡ Memory) ⊎ (origin_fault origin.now form enablings.now names.now ≡ Some fault)) }
{
    if let Some(fault) = origin_fault(alloc, origin, form, enablings, names)? {
        return Err(fault);
    }
    let mut text = String::new(alloc);
    print_metadata(&mut text, origin, form, enablings, names)?;
    Ok(text)
}

/// As `metadata_from`, where nothing is told of the origin but the uuid.
#[tactic(auto, unfolding(crate::specs::Names::origin_fault))]
pub fn metadata(
    alloc: Global,
    uuid: &[u8; 16],
    form: Form,
    enablings: &Enablings,
    names: &Names<'_>,
) -> Result<String, MetadataFault>
    ensures text { IfOk result (λ text. string_bytes text ≡ metadata_text uuid.now form enablings.now names.now) }
    ensures allowed { OnOk result (metadata_fault form enablings.now names.now ≡ None) }
    ensures fault { IfErr result
        (λ fault. (fault ≡ Memory) ⊎ (metadata_fault form enablings.now names.now ≡ Some fault)) }
{
    metadata_from(alloc, &Origin::of(*uuid), form, enablings, names)
}
