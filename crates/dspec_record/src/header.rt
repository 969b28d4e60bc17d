ghost use Rattle.std.specs.Prelude.{◌≡◌, ◌≤◌, ◌+◌, ◌↔◌, IsTrue};
ghost use Rattle.dspec_record.specs.Layout.{fields_start};

/// What stands before the fields of a record. The bytes don't say which header it is: the schema does.
#[derive(Debug, Clone, Copy, PartialEq, Eq)]
pub enum Header {
    /// The EPID alone, in 4 bytes. Every record's stamp is 0.
    One,
    /// The EPID, and a stamp after it in two words of 4 bytes, the low word first: 12 bytes in all.
    Two,
}

impl Header {
    /// Where the fields begin, in bytes from the record's start.
    #[inline(always)]
    pub(crate) fn fields_start(self) -> usize
        ensures { result ≡ fields_start self }
    {
        match self {
            Header::One => 4,
            Header::Two => 12,
        }
    }

    /// Whether it is this one.
    #[inline(always)]
    pub(crate) fn is(self, other: Header) -> bool
        ensures { IsTrue result ↔ (self ≡ other) }
    {
        self == other
    }

    /// How much of it is the stamp, in bytes: by so much it moves each field.
    #[inline(always)]
    pub(crate) fn stamp_size(self) -> usize
        ensures moves { 4 + result ≡ fields_start self }
        ensures few { result ≤ 8 }
    {
        match self {
            Header::One => 0,
            Header::Two => 8,
        }
    }
}
