use std::fmt;
use std::marker::Model;

/// The most values that a record has.
pub(crate) const MAX_VALUES: usize = 8;

/// A record as it is traced: an EPID (the enabled probe identifier of the USENIX 2004 paper by Cantrill,
/// Shapiro and Leventhal), a stamp, which is any number of the caller's and 0 where none was given, and at most
/// eight values. It is equal to another where all three are.
#[derive(Debug, Clone, Copy, PartialEq, Eq, Hash)]
pub struct Rec {
    epid: u32,
    len: u32,
    stamp: u64,
    values: [u64; MAX_VALUES],
}

impl Model for Rec {
    ghost use Rattle.std.specs.Prelude.{◌≡◌, ◌≤◌, ◌-◌, ◌++◌, length, take, drop, replicate};
    ghost use Rattle.dspec_record.specs.Record.{Record};

    ghost Value = { Record };

    ghost use Rattle.dspec_record.specs.{Laws.Records.fields_of-record_of, RecordFields.record_of, RecordFields.IsPadded, RecordFields.fields_of};

    ghost view = { record_of };

    ghost invariant = { IsPadded };

    ghost inverse = { fields_of };

    ghost inverse_ok = { fields_of-record_of };
}

impl Rec {
    ghost use Rattle.std.specs.Prelude.{◌≡◌, ◌≤◌, ◌<◌, ◌-◌, ◌↔◌, ◌++◌, ◌∷◌, [], length, take, drop, replicate, IfSome, IsSome};

    /// The record with these values and stamp 0; None for more than eight values.
    #[inline]
    pub fn new(epid: u32, values: &[u64]) -> Option<Rec>
        ensures present { IsSome result ↔ (length values.now ≤ 8) }
        ensures holds { IfSome result (λ r. r ≡ record { epid = epid; stamp = 0; values = values.now }) }
    {
        Rec::stamped(epid, 0, values)
    }

    /// The record with this stamp and these values; None for more than eight values.
    #[inline]
    pub fn stamped(epid: u32, stamp: u64, values: &[u64]) -> Option<Rec>
        ensures present { IsSome result ↔ (length values.now ≤ 8) }
        ensures holds { IfSome result (λ r. r ≡ record { epid = epid; stamp = stamp; values = values.now }) }
    {
        match values {
            [] => Some(Rec::of(epid, stamp, 0, [0; MAX_VALUES])),
            [a] => Some(Rec::of(epid, stamp, 1, [*a, 0, 0, 0, 0, 0, 0, 0])),
            [a, b] => Some(Rec::of(epid, stamp, 2, [*a, *b, 0, 0, 0, 0, 0, 0])),
            [a, b, c] => Some(Rec::of(epid, stamp, 3, [*a, *b, *c, 0, 0, 0, 0, 0])),
            [a, b, c, d] => Some(Rec::of(epid, stamp, 4, [*a, *b, *c, *d, 0, 0, 0, 0])),
            [a, b, c, d, e] => Some(Rec::of(epid, stamp, 5, [*a, *b, *c, *d, *e, 0, 0, 0])),
            [a, b, c, d, e, f] => Some(Rec::of(epid, stamp, 6, [*a, *b, *c, *d, *e, *f, 0, 0])),
            [a, b, c, d, e, f, g] => Some(Rec::of(epid, stamp, 7, [*a, *b, *c, *d, *e, *f, *g, 0])),
            [a, b, c, d, e, f, g, h] => Some(Rec::of(
                epid,
                stamp,
                8,
                [*a, *b, *c, *d, *e, *f, *g, *h],
            )),
            _ => None,
        }
    }

    /// The record with the first so many of these values; those after them are 0.
    #[inline(always)]
    fn of(epid: u32, stamp: u64, len: u32, values: [u64; MAX_VALUES]) -> Rec
        requires few { len ≤ 8 }
        requires zeros { drop len values ≡ replicate (8 - len) 0 }
        ensures { result ≡ record { epid = epid; stamp = stamp; values = take len values } }
    {
        Rec {
            epid,
            len,
            stamp,
            values,
        }
    }

    /// The record with this stamp and these values, which are eight at most.
    #[inline(always)]
    pub(crate) fn few(epid: u32, stamp: u64, values: &[u64]) -> Rec
        requires few { length values.now ≤ 8 }
        ensures { result ≡ record { epid = epid; stamp = stamp; values = values.now } }
    {
        let mut held = [0; MAX_VALUES];
        held[..values.len()].copy_from_slice(values);
        Rec::of(epid, stamp, values.len() as u32, held)
    }

    /// The record with no value.
    #[inline]
    pub(crate) fn bare(epid: u32, stamp: u64) -> Rec
        ensures { result ≡ record { epid = epid; stamp = stamp; values = [] } }
    {
        Rec {
            epid,
            len: 0,
            stamp,
            values: [0; MAX_VALUES],
        }
    }

    /// Adds a value after the others.
    #[inline]
    pub(crate) fn add(&mut self, value: u64)
        requires { length self.old.values < 8 }
        ensures { self.new ≡ record { epid = self.old.epid; stamp = self.old.stamp; values = self.old.values ++ value ∷ [] } }
    {
        self.values[self.len as usize] = value;
        self.len += 1;
    }

    /// The enabled probe identifier.
    pub fn epid(&self) -> u32
        ensures { result ≡ self.now.epid }
    {
        self.epid
    }

    /// The number that the caller stamped it with; 0 where there was none.
    pub fn stamp(&self) -> u64
        ensures { result ≡ self.now.stamp }
    {
        self.stamp
    }

    /// The values, in the order of the fields.
    pub fn values(&self) -> &[u64]
        ensures values { result.now ≡ self.now.values }
        ensures few { length result.now ≤ 8 }
    {
        &self.values[..self.len as usize]
    }
}

/// As `4@9(5,6)`: the EPID, the stamp unless it is 0, and the values, if there are any.
impl fmt::Display for Rec {
    fn fmt<W: fmt::Write>(&self, f: &mut fmt::Formatter<W>) -> fmt::Result {
        let Rec { epid, stamp, .. } = *self;
        write!(f, "{epid}")?;
        if stamp != 0 {
            write!(f, "@{stamp}")?;
        }
        let mut before = "(";
        for value in self.values() {
            write!(f, "{before}{value}")?;
            before = ",";
        }
        if self.len != 0 {
            write!(f, ")")?;
        }
        Ok(())
    }
}
