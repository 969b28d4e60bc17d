//! What follows from the laws of a schema, as clauses of functions that have nothing to do.

ghost use Rattle.dspec_record.specs.Reading.{GivesBack};

use crate::Schema;

/// What reading answers where an accepted record's text is at the front, whatever follows: that record.
pub fn reads_back<S: Schema>(_schema: &S)
    ensures { GivesBack (S.shape_of _schema.now) (S.accepted _schema.now) (S.text _schema.now) }
{}
