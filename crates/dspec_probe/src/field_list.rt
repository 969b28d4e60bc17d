use dspec_record::Field;
use std::marker::Model;

/// The most fields that a record has.
const MAX_FIELDS: usize = 8;

/// The fields of a record in their order, eight at the most.
#[derive(Debug, Clone, Copy)]
pub struct FieldList {
    held: [Field; MAX_FIELDS],
    len: usize,
}

impl Model for FieldList {
    ghost use Rattle.std.specs.Prelude.{List};
    ghost use Rattle.dspec_record.specs.declared.field.Field.{Field};

    ghost Value = { List Field };

    ghost use Rattle.dspec_probe.specs.{FieldLists.listed_fields, FieldLists.IsFieldList, FieldLists.list_places, Laws.list_places-listed_fields};

    ghost view = { listed_fields };

    ghost invariant = { IsFieldList };

    ghost inverse = { list_places };

    ghost inverse_ok = { list_places-listed_fields };
}

impl FieldList {
    ghost use Rattle.std.specs.Prelude.{◌≡◌, ◌≤◌, ◌<◌, ◌++◌, ◌∷◌, [], length};

    /// These fields.
    #[inline(always)]
    pub fn of(fields: &[Field]) -> FieldList
        requires { length fields.now ≤ 8 }
        ensures { result ≡ fields.now }
    {
        let mut held = [Field::One; MAX_FIELDS];
        held[..fields.len()].copy_from_slice(fields);
        FieldList {
            held,
            len: fields.len(),
        }
    }

    /// None yet.
    #[inline(always)]
    pub fn new() -> FieldList
        ensures { result ≡ [] }
    {
        FieldList {
            held: [Field::One; MAX_FIELDS],
            len: 0,
        }
    }

    /// One more after them.
    #[inline(always)]
    pub fn with(self, field: Field) -> FieldList
        requires { length self < 8 }
        ensures { result ≡ self ++ field ∷ [] }
    {
        let mut held = self.held;
        held[self.len] = field;
        FieldList {
            held,
            len: self.len + 1,
        }
    }

    /// The fields, in their order.
    #[inline(always)]
    pub fn as_slice(&self) -> &[Field]
        ensures fields { result.now ≡ self.now }
        ensures few { length result.now ≤ 8 }
    {
        &self.held[..self.len]
    }
}
