ghost use Rattle.std.specs.Prelude.{◌≡◌};
ghost use Rattle.dspec_record.specs.declared.header.Header.{Header};

use crate::Header;

/// A header that is known when a program is compiled.
pub trait KnownHeader: Copy {
    /// The header.
    ghost header_is: { Header };

    /// The header.
    fn header() -> Header
        ensures { result ≡ header_is };
}

/// Records have no stamp.
#[derive(Debug, Clone, Copy)]
pub struct Unstamped;

/// Records have a stamp.
#[derive(Debug, Clone, Copy)]
pub struct Stamped;

impl KnownHeader for Unstamped {
    ghost use Rattle.dspec_record.specs.declared.header.Header.TheVariants.{One};

    ghost header_is = { One };

    #[inline(always)]
    fn header() -> Header {
        Header::One
    }
}

impl KnownHeader for Stamped {
    ghost use Rattle.dspec_record.specs.declared.header.Header.TheVariants.{Two};

    ghost header_is = { Two };

    #[inline(always)]
    fn header() -> Header {
        Header::Two
    }
}
