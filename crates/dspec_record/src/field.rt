ghost use Rattle.std.specs.Prelude.{◌≡◌, ◌<◌, ◌^◌, ◌+◌, length};
ghost use Rattle.dspec_record.specs.{Layout.width, Layout.limit, Layout.rounded_up, RecordText.little_endian};

/// A field of a record, by its width: 1, 2, 4 or 8 bytes, little-endian.
#[derive(Debug, Clone, Copy, PartialEq, Eq)]
pub enum Field {
    /// One byte.
    One,
    /// Two bytes.
    Two,
    /// Four bytes.
    Four,
    /// Eight bytes.
    Eight,
}

impl Field {
    /// In bytes.
    #[inline(always)]
    pub fn width(self) -> usize
        ensures { result ≡ width self }
    {
        match self {
            Field::One => 1,
            Field::Two => 2,
            Field::Four => 4,
            Field::Eight => 8,
        }
    }

    /// The first place for the field at `end` or after it, both in bytes from the record's start.
    #[inline(always)]
    pub(crate) fn place(self, end: usize) -> usize
        requires { end < 2 ^ 32 }
        ensures { result ≡ rounded_up end (width self) }
    {
        match self {
            Field::One => end,
            Field::Two => (end + 1) / 2 * 2,
            Field::Four => (end + 3) / 4 * 4,
            Field::Eight => (end + 7) / 8 * 8,
        }
    }

    /// The greatest value that the field holds.
    pub(crate) fn limit(self) -> u64
        ensures { result ≡ limit self }
    {
        match self {
            Field::One => 0xff,
            Field::Two => 0xffff,
            Field::Four => 0xffff_ffff,
            Field::Eight => u64::MAX,
        }
    }

    /// The value that these bytes hold, the lowest byte first.
    pub(crate) fn read(self, bytes: &[u8]) -> u64
        requires { length bytes.now ≡ width self }
        ensures holds { result < 256 ^ width self }
        ensures written { little_endian (width self) result ≡ bytes.now }
    {
        match self {
            Field::One => u64::from(bytes[0]),
            Field::Two => u64::from(u16::from_le_bytes([bytes[0], bytes[1]])),
            Field::Four => {
                u64::from(u32::from_le_bytes([bytes[0], bytes[1], bytes[2], bytes[3]]))
            }
            Field::Eight => u64::from_le_bytes([
                bytes[0], bytes[1], bytes[2], bytes[3], bytes[4], bytes[5], bytes[6], bytes[7],
            ]),
        }
    }
}

/// The size of a record's text in bytes, a multiple of 4, and what its place in a buffer is a multiple of.
#[derive(Debug, Clone, Copy, PartialEq, Eq)]
pub struct Shape {
    /// In bytes, from the EPID to the end of the last gap.
    pub size: u32,
    /// 4 or 8, in bytes.
    pub align: u32,
}
