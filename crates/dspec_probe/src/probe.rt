ghost use Rattle.std.specs.Prelude.{◌≡◌, ◌↔◌, Some, IsTrue};
ghost use Rattle.dspec_record.specs.{EnablingRows.EnabledRows, RecordText.record_text, RecordText.fits};
ghost use Rattle.dspec_probe.specs.Probes.{IsProbeOf, epid_of_probe, header_of_probe, probed_record, read_values};

use crate::Fields;
use dspec_record::{Enablings, Field, Header, Rec, Schema};
use std::marker::PhantomData;

/// A probe whose records have fields of these types. `Probes` declares it. A record of it is one of each schema that has the
/// probe, so none can be refused.
#[derive(Debug, Clone, Copy)]
pub struct Probe<F> {
    pub(crate) epid: u32,
    pub(crate) header: Header,
    pub(crate) fields: PhantomData<F>,
}

// Whether these are the same fields in the same order.
fn same_fields(fields: &[Field], others: &[Field]) -> bool
    ensures { IsTrue result ↔ (fields.now ≡ others.now) }
{
    fields == others
}

impl<F: Fields> Probe<F> {
    /// The enabled probe identifier of its records.
    #[inline]
    pub fn epid(self) -> u32
        ensures { result ≡ epid_of_probe self }
    {
        self.epid
    }

    /// The header of its records.
    #[inline(always)]
    pub fn header(self) -> Header
        ensures { result ≡ header_of_probe self }
    {
        self.header
    }

    /// The record with these values; the stamp is left out where records have none. Each schema that has the probe accepts it,
    /// and `read` gives the values back.
    #[inline(always)]
    pub fn rec(self, stamp: u64, values: F) -> Rec
        ensures holds { result ≡ probed_record self stamp (F.numbers_of values) }
        ensures fits { IsTrue (fits F.fields_are (F.numbers_of values)) }
        ensures accepted { (schema : EnabledRows) → IsProbeOf F.fields_are self schema → IsTrue (⟦<Enablings as Schema>⟧.accepted schema result) }
        ensures text { (schema : EnabledRows) → IsProbeOf F.fields_are self schema
            → ⟦<Enablings as Schema>⟧.text schema result ≡ record_text (header_of_probe self) F.fields_are result }
        ensures back { read_values F.values_of self result ≡ Some values }
    {
        let stamp = match self.header {
            Header::One => 0,
            Header::Two => stamp,
        };
        values.rec(self.epid, stamp)
    }

    /// The values of a record of this probe; None where it is one of another probe, or has numbers that stand for no values.
    #[inline]
    pub fn read(self, rec: &Rec) -> Option<F>
        ensures { result ≡ read_values F.values_of self rec.now }
    {
        if rec.epid() != self.epid {
            return None;
        }
        F::values(rec.values())
    }

    /// Whether a schema has the probe: its records have a stamp where the probe's have one, and the probe's EPID has these fields.
    pub fn is_of(self, schema: &Enablings) -> bool
        ensures { IsTrue result ↔ IsProbeOf F.fields_are self schema.now }
    {
        let Some(fields) = schema.fields(self.epid) else {
            return false;
        };
        schema.header() == self.header && same_fields(fields, F::fields().as_slice())
    }
}
