use dspec_record::Field;
use dspec_schedule::Schedule;

/// The most fields of a random enabling.
pub const MOST_FIELDS: usize = 3;

/// The fields of one enabling.
#[derive(Debug, Clone, Copy, PartialEq, Eq)]
pub struct SampleFields {
    fields: [Field; MOST_FIELDS],
    count: usize,
}

impl SampleFields {
    /// The first of these fields, so many of them at the most.
    pub fn new(fields: [Field; MOST_FIELDS], count: usize) -> SampleFields {
        SampleFields { fields, count }
    }

    pub fn fields(&self) -> &[Field] {
        &self.fields[..self.count.min(MOST_FIELDS)]
    }
}

/// A random schedule, with the fields of its enablings.
#[derive(Drop)]
pub struct Sample {
    pub probes: Vec<SampleFields>,
    pub schedule: Schedule,
}
