//! What a trace's metadata tells.

use dspec_probe::Kind;
use dspec_record::Field;

/// What one number of a field is called.
#[derive(Debug, Clone, Copy, PartialEq, Eq)]
pub struct Label<'t> {
    /// One printable byte or more, without quotes and backslashes.
    pub text: &'t str,
    /// The number, as the field's bytes have it.
    pub number: u64,
}

/// A field of an event.
#[derive(Debug, Drop)]
pub struct FieldText<'t> {
    /// English letters, digits and underscores.
    pub name: &'t str,
    /// In how many bytes its numbers are.
    pub width: Field,
    /// What its numbers mean.
    pub kind: Kind,
    /// What some of its numbers are called; none where the field isn't an enumeration.
    pub labels: Vec<Label<'t>>,
}

/// The events of one number.
#[derive(Debug, Drop)]
pub struct EventText<'t> {
    /// The number.
    pub id: u64,
    /// Their name: one printable byte or more, without quotes and backslashes.
    pub name: &'t str,
    /// Their fields in order.
    pub fields: Vec<FieldText<'t>>,
}

/// Who wrote the trace.
#[derive(Debug, Clone, Copy, PartialEq, Eq)]
pub struct ToldProcess<'t> {
    /// The name of the machine.
    pub host: &'t str,
    /// The name of the program.
    pub name: &'t str,
    /// The number of the process.
    pub pid: u64,
}

/// The clock of a trace's stamps.
#[derive(Debug, Clone, Copy, PartialEq, Eq)]
pub struct ClockText<'t> {
    /// Its ticks in a second.
    pub frequency: u64,
    /// Its own uuid's text, where it is told.
    pub uuid: Option<&'t str>,
    /// Where it began, where that is told: whole seconds from the beginning of 1970 on, and ticks after them.
    pub start: Option<(u64, u64)>,
}

/// What a trace's metadata tells. Its texts stand in the text that was read.
#[derive(Debug, Drop)]
pub struct Metadata<'t> {
    /// The text of the trace's uuid.
    pub uuid: &'t str,
    /// Who wrote the trace, where it is told.
    pub process: Option<ToldProcess<'t>>,
    /// The clock of its stamps; None where its events have none.
    pub clock: Option<ClockText<'t>>,
    /// Its events, in the order of the text.
    pub events: Vec<EventText<'t>>,
}
