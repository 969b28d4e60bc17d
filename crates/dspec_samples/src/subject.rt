use dspec_record::{Enablings, Field, Rec, SchemaFault};

/// The stamp of the records that have one.
const STAMP: u64 = 8_000_000_000_000_000_000;

/// A record by its schema and its size in bytes. The stamped ones are those of 4 and 8 bytes with a stamp.
#[derive(Debug, Clone, Copy, PartialEq, Eq)]
pub enum Subject {
    Default4,
    Enabled4,
    Enabled8,
    Enabled24,
    Stamped12,
    Stamped16,
}

/// Those without a stamp, in the order in which they are told.
pub const UNSTAMPED: [Subject; 4] = [
    Subject::Default4,
    Subject::Enabled4,
    Subject::Enabled8,
    Subject::Enabled24,
];

/// All of them, in that order.
pub const SUBJECTS: [Subject; 6] = [
    Subject::Default4,
    Subject::Enabled4,
    Subject::Enabled8,
    Subject::Enabled24,
    Subject::Stamped12,
    Subject::Stamped16,
];

impl Subject {
    /// How a table calls it.
    pub fn name(self) -> &'static str {
        match self {
            Subject::Default4 => "default-4",
            Subject::Enabled4 => "enabled-4",
            Subject::Enabled8 => "enabled-8",
            Subject::Enabled24 => "enabled-24",
            Subject::Stamped12 => "stamped-12",
            Subject::Stamped16 => "stamped-16",
        }
    }

    /// Its record. Its values have all the bytes that their fields have.
    pub fn record(self) -> Option<Rec> {
        match self {
            Subject::Default4 => Rec::new(7, &[]),
            Subject::Enabled4 => Rec::new(1, &[]),
            Subject::Enabled8 => Rec::new(2, &[4_000_000_000]),
            Subject::Enabled24 => Rec::new(
                3,
                &[200, 60_000, 4_000_000_000, 9_000_000_000_000_000_000],
            ),
            Subject::Stamped12 => Rec::stamped(7, STAMP, &[]),
            Subject::Stamped16 => Rec::stamped(2, STAMP, &[4_000_000_000]),
        }
    }
}

/// The enablings of the subjects but those of the default action: 1 none, 2 [4], 3 [1, 2, 4, 8].
pub fn timed_enablings() -> Result<Enablings, SchemaFault> {
    let mut enablings = Enablings::new();
    enablings.enable(&[])?;
    enablings.enable(&[Field::Four])?;
    enablings.enable(&[Field::One, Field::Two, Field::Four, Field::Eight])?;
    Ok(enablings)
}
