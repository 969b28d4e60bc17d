ghost use Rattle.std.specs.Prelude.{◌≤◌, length};
ghost use Rattle.dspec_buffer.specs.{Laws.Remaining.Remaining-prop, Remaining.Remaining};

use crate::reader::next_of_text;
use dspec_record::{Rec, Schema};
use std::fmt;
use std::marker::Model;

/// The records of a text that `read_all` has read through, in order. It borrows the schema and the text, and takes no memory.
#[derive(Drop)]
pub struct Records<'a, S: Schema> {
    pub(crate) schema: &'a S,
    pub(crate) text: &'a [u8],
    pub(crate) place: usize,
    ghost within: { place ≤ length text.now },
    ghost readable: { Remaining (S.shape_of schema.now) (S.accepted schema.now) (S.text schema.now) text.now place } by { Remaining-prop (S.shape_of schema.now) (S.accepted schema.now) (S.text schema.now) text.now place },
}

impl<'a, S: Schema> Model for Records<'a, S> {
    ghost use Rattle.std.specs.Prelude.{List};
    ghost use Rattle.dspec_record.specs.Record.{Record};

    ghost Value = { List Record };

    ghost view = { λ a. a.readable.0 };
}

/// How far the text has been read.
impl<'a, S: Schema> fmt::Debug for Records<'a, S> {
    fn fmt<W: fmt::Write>(&self, f: &mut fmt::Formatter<W>) -> fmt::Result {
        let (place, length) = (self.place, self.text.len());
        write!(f, "Records {{ place: {place}, length: {length} }}")
    }
}

impl<'a, S: Schema> Iterator for Records<'a, S> {
    type Item = Rec;

    ghost use Rattle.std.specs.Iterator.{YieldsFirst, item_count};

    ghost next_gives = { YieldsFirst (λ s. s) };

    ghost remaining = { item_count (λ s. s) };

    fn next(&mut self) -> Option<Rec> {
        let found = next_of_text(self.schema, self.text, self.place)?;
        self.place = found.1;
        Some(found.0)
    }
}
