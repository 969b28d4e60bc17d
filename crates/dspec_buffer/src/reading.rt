ghost use Rattle.std.specs.Prelude.{◌≤◌, [], length, take};
ghost use Rattle.dspec_buffer.specs.{Laws.Remaining.Remaining-prop, Remaining.Remaining};

use crate::ReadFault;
use crate::reader::read_next;
use dspec_record::{Rec, Schema};
use std::marker::Model;

/// The records of a text one after another, each checked as it is come to, up to the first fault. Unlike `read_all`, which reads
/// a text twice, it reads it once. It borrows the schema and the text, and takes no memory.
#[derive(Drop)]
pub struct Reading<'a, S: Schema> {
    schema: &'a S,
    text: &'a [u8],
    place: usize,
    ghost within: { place ≤ length text.now },
    ghost given: { Remaining (S.shape_of schema.now) (S.accepted schema.now) (S.text schema.now) (take place text.now) 0 } by { Remaining-prop (S.shape_of schema.now) (S.accepted schema.now) (S.text schema.now) (take place text.now) 0 },
}

impl<'a, S: Schema> Model for Reading<'a, S> {
    ghost use Rattle.dspec_buffer.specs.Progress.{Progress};

    ghost Value = { Progress S };

    ghost view = { λ a. record { schema = a.schema.now; text = a.text.now; place = a.place; read = a.given.0 } };
}

impl<'a, S: Schema> Reading<'a, S> {
    ghost use Rattle.std.specs.Prelude.{◌≡◌, []};
    ghost use Rattle.dspec_buffer.specs.Progress.{Advances};

    /// Nothing of the text is read yet.
    pub fn new(schema: &'a S, text: &'a [u8]) -> Reading<'a, S>
        ensures { result ≡ record { schema = schema.now; text = text.now; place = 0; read = [] } }
    {
        Reading {
            schema,
            text,
            place: 0,
        }
    }

    /// The next record; None at the text's end. At the first fault it answers that, then and at each later call.
    pub fn next(&mut self) -> Result<Option<Rec>, ReadFault>
        ensures { Advances (S.shape_of self.old.schema) (S.accepted self.old.schema) (S.text self.old.schema) self.old result self.new }
    {
        let Some(found) = read_next(self.schema, self.text, self.place)? else {
            return Ok(None);
        };
        self.place = found.1;
        Ok(Some(found.0))
    }
}
