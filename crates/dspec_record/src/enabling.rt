use crate::laid_out::laid_shape;
use crate::layout::{limits_of, places_of};
use crate::packing::{claim_for, masks_of, words_for};
use crate::{Field, Header, Shape};
use std::error::Error;
use std::fmt;
use std::marker::Model;

/// The most fields that an enabling has.
pub(crate) const MAX_FIELDS: usize = 8;

/// The most words of eight bytes that the text of a record has without a stamp.
pub(crate) const MAX_WORDS: usize = 9;

/// The most enablings that there are.
const MAX_ENABLINGS: usize = 64;

/// Why fields can't be enabled.
#[derive(Debug, Clone, Copy, PartialEq, Eq)]
pub enum SchemaFault {
    /// There are more than eight fields.
    TooManyFields,
    /// There are 64 enablings already.
    TooManyEnablings,
}

impl Error for SchemaFault {}

impl fmt::Display for SchemaFault {
    fn fmt<W: fmt::Write>(&self, f: &mut fmt::Formatter<W>) -> fmt::Result {
        f.pad(match self {
            SchemaFault::TooManyFields => "too many fields",
            SchemaFault::TooManyEnablings => "too many enablings",
        })
    }
}

/// The fields of one enabling, with their layout, the place of each without a stamp, the greatest value of each, how many words
/// their text has and the mask of each word, which are worked out once.
#[derive(Debug, Clone, Copy, PartialEq, Eq)]
pub(crate) struct Enabling {
    fields: [Field; MAX_FIELDS],
    len: u32,
    shape: Shape,
    places: [u8; MAX_FIELDS],
    limits: [u64; MAX_FIELDS],
    words: u32,
    masks: [u64; MAX_WORDS],
}

impl Model for Enabling {
    ghost use Rattle.std.specs.Prelude.{List};
    ghost use Rattle.dspec_record.specs.declared.field.Field.{Field};

    ghost Value = { List Field };

    ghost use Rattle.dspec_record.specs.{EnablingFields.fields_of, EnablingFields.IsLaidOut, EnablingFields.inside_of, Laws.Enablings.inside_of-fields_of};

    ghost view = { fields_of };

    ghost invariant = { IsLaidOut };

    ghost inverse = { inside_of };

    ghost inverse_ok = { inside_of-fields_of };
}

impl Enabling {
    ghost use Rattle.std.specs.Prelude.{◌≡◌, ◌≤◌, ◌+◌, length, map, take};
    ghost use Rattle.dspec_record.specs.{Layout.limit, Layout.field_places, Layout.fields_start, Layout.layout, Packing.words_in, Packing.masks_for};

    fn of(fields: &[Field]) -> Enabling
        requires { length fields.now ≤ 8 }
        ensures { result ≡ fields.now }
    {
        let mut held = [Field::One; MAX_FIELDS];
        held[..fields.len()].copy_from_slice(fields);
        Enabling {
            fields: held,
            len: fields.len() as u32,
            shape: laid_shape(Header::One, fields),
            places: places_of(fields),
            limits: limits_of(fields),
            words: words_for(fields),
            masks: masks_of(fields),
        }
    }

    pub(crate) fn fields(&self) -> &[Field]
        ensures fields { result.now ≡ self.now }
        ensures few { length result.now ≤ 8 }
    {
        &self.fields[..self.len as usize]
    }

    /// Where each field stands where there is no stamp, in bytes from the record's start.
    #[inline(always)]
    pub(crate) fn places(&self) -> &[u8]
        ensures { result.now ≡ field_places 4 self.now }
    {
        &self.places[..self.len as usize]
    }

    /// The greatest value of each field.
    #[inline(always)]
    pub(crate) fn limits(&self) -> &[u64]
        ensures { result.now ≡ map limit self.now }
    {
        &self.limits[..self.len as usize]
    }

    /// The fields in eight places, so that they can be copied by one store.
    #[inline(always)]
    pub(crate) fn held(&self) -> [Field; MAX_FIELDS]
        ensures fields { take (length self.now) result ≡ self.now }
        ensures eight { length result ≡ 8 }
    {
        self.fields
    }

    /// How many fields there are.
    #[inline(always)]
    pub(crate) fn len(&self) -> u32
        ensures many { result ≡ length self.now }
        ensures few { result ≤ 8 }
    {
        self.len
    }

    /// How many words of eight bytes the text has without a stamp; 0 where there is no field.
    #[inline(always)]
    pub(crate) fn words(&self) -> u32
        ensures { result ≡ words_in self.now }
    {
        self.words
    }

    /// Which bits of each of these words are bits of fields.
    #[inline(always)]
    pub(crate) fn masks(&self) -> &[u64; MAX_WORDS]
        ensures { result.now ≡ masks_for self.now }
    {
        &self.masks
    }

    /// The layout after this header, whose stamp has so many bytes: it moves each field by them, and no gap changes.
    #[inline(always)]
    pub(crate) fn shape(&self, _header: Header, stamp: u32) -> Shape
        requires moves { 4 + stamp ≡ fields_start _header }
        requires little { stamp ≤ 8 }
        ensures layout { result ≡ layout _header self.now }
        ensures few { length self.now ≤ 8 }
    {
        Shape {
            size: self.shape.size + stamp,
            align: self.shape.align,
        }
    }
}

/// Enabled probes: which fields the records of an EPID have, and the header of them all. EPIDs are 1, 2, .. in the
/// order of `enable`; there are at most 64 enablings of at most eight fields. How many bytes the header's stamp has is kept,
/// and the claim that is true of each enabling.
#[derive(Debug, Clone, Copy, PartialEq, Eq)]
pub struct Enablings {
    header: Header,
    stamp: u32,
    rows: [Enabling; MAX_ENABLINGS],
    claims: [u64; MAX_ENABLINGS],
    count: u32,
}

impl Model for Enablings {
    ghost use Rattle.dspec_record.specs.EnablingRows.{EnabledRows};

    ghost Value = { EnabledRows };

    ghost use Rattle.dspec_record.specs.{EnablingRows.rows_of, EnablingRows.IsFilled, EnablingRows.inside_of, Laws.Enablings.inside_of-rows_of};

    ghost view = { rows_of };

    ghost invariant = { IsFilled };

    ghost inverse = { inside_of };

    ghost inverse_ok = { inside_of-rows_of };
}

impl Enablings {
    ghost use Rattle.std.specs.Prelude.{◌≡◌, ◌≤◌, ◌<◌, ◌+◌, ◌-◌, ◌++◌, ◌∷◌, ◌↔◌, [], length, Some, IsSome, option_copied, IfOk, OnErr};
    ghost use Rattle.dspec_record.specs.{Layout.fields_start, Packing.claimed, Schemas.enabling_of};

    /// No enabling; records have no stamp.
    pub fn new() -> Enablings
        ensures { result ≡ record { header = Header.One; rows = [] } }
    {
        Enablings {
            header: Header::One,
            stamp: 0,
            rows: [Enabling::of(&[]); MAX_ENABLINGS],
            claims: [0; MAX_ENABLINGS],
            count: 0,
        }
    }

    /// Enables these fields, and answers their EPID, the number of enablings so far.
    pub fn enable(&mut self, fields: &[Field]) -> Result<u32, SchemaFault>
        ensures enabled { IfOk result (λ epid. epid ≡ length self.new.rows × self.new.rows ≡ self.old.rows ++ fields.now ∷ []) }
        ensures header { self.new.header ≡ self.old.header }
        ensures refused { OnErr result (self.new ≡ self.old) }
        ensures too_many_fields { (result ≡ Err SchemaFault.TooManyFields) ↔ (8 < length fields.now) }
        ensures too_many_enablings { (result ≡ Err SchemaFault.TooManyEnablings)
            ↔ ((length fields.now ≤ 8) × (64 ≤ length self.old.rows)) }
    {
        if fields.len() > MAX_FIELDS {
            return Err(SchemaFault::TooManyFields);
        }
        let place = self.count as usize;
        if place == MAX_ENABLINGS {
            return Err(SchemaFault::TooManyEnablings);
        }
        self.rows[place] = Enabling::of(fields);
        self.count += 1;
        self.claims[place] = claim_for(self.count, fields);
        Ok(self.count)
    }

    /// The same enablings, whose records have a stamp.
    pub fn stamped(&self) -> Enablings
        ensures { result ≡ record { header = Header.Two; rows = self.now.rows } }
    {
        Enablings {
            header: Header::Two,
            stamp: 8,
            ..*self
        }
    }

    /// The header of all records.
    pub fn header(&self) -> Header
        ensures { result ≡ self.now.header }
    {
        self.header
    }

    /// How many bytes the stamp of a record has.
    #[inline(always)]
    pub(crate) fn stamp_size(&self) -> u32
        ensures moves { 4 + result ≡ fields_start self.now.header }
        ensures little { result ≤ 8 }
    {
        self.stamp
    }

    /// How many enablings there are. Their EPIDs are 1, 2, .. up to this number.
    pub fn count(&self) -> u32
        ensures count { result ≡ length self.now.rows }
        ensures few { result ≤ 64 }
    {
        self.count
    }

    /// The fields of the records with this EPID, in their order; None where it isn't enabled.
    pub fn fields(&self, epid: u32) -> Option<&[Field]>
        ensures { option_copied result ≡ enabling_of self.now.rows epid }
    {
        match self.enabling(epid) {
            Some(enabling) => Some(enabling.fields()),
            None => None,
        }
    }

    #[inline(always)]
    pub(crate) fn enabling(&self, epid: u32) -> Option<&Enabling>
        ensures { option_copied result ≡ enabling_of self.now.rows epid }
    {
        // 0 becomes the greatest number, so that one question tells both refusals
        if epid.wrapping_sub(1) >= self.count {
            return None;
        }
        Some(self.row(epid))
    }

    /// The enabling that this claim and this number of words are of, if there is one.
    #[inline(always)]
    pub(crate) fn claimed_row(&self, claim: u64, count: usize) -> Option<&Enabling>
        ensures { option_copied result ≡ claimed self.now.rows claim count }
    {
        let place = (claim.wrapping_sub(1) % MAX_ENABLINGS as u64) as usize;
        let row = &self.rows[place];
        // where nothing is enabled there are no words
        if self.claims[place] != claim || row.words() as usize != count || count == 0 {
            return None;
        }
        Some(row)
    }

    /// The enabling with this EPID, which is one of them.
    #[inline(always)]
    pub(crate) fn row(&self, epid: u32) -> &Enabling
        requires { IsSome (enabling_of self.now.rows epid) }
        ensures { Some result.now ≡ enabling_of self.now.rows epid }
    {
        &self.rows[epid as usize - 1]
    }
}

impl Default for Enablings {
    ghost use Rattle.std.specs.Prelude.{◌≡◌, []};
    ghost use Rattle.dspec_record.specs.declared.header.Header.TheVariants.{One};

    ghost is_default = { λ e. e ≡ record { header = One; rows = [] } };

    fn default() -> Self {
        Enablings::new()
    }
}
