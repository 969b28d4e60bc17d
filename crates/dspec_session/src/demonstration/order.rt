ghost use Rattle.std.specs.Prelude.{◌≡◌, None, true};
ghost use Rattle.dspec_session.specs.Rising.{FollowsText, with_record, with_records};

use dspec_buffer::{Records, read_all};
use dspec_record::{Rec, Schema};

/// Whether the values of EPID 1 rise strictly in what was read so far, and the last of them.
#[derive(Clone, Copy, Debug, PartialEq, Eq)]
pub(crate) struct Order {
    pub(crate) last: Option<u64>,
    pub(crate) rises: bool,
}

impl Order {
    /// Before anything was read.
    pub(crate) fn new() -> Order
        ensures { result ≡ record { last = None; rises = true } }
    {
        Order {
            last: None,
            rises: true,
        }
    }

    // One record more.
    fn follow(&mut self, rec: &Rec)
        ensures { self.new ≡ with_record self.old rec.now }
    {
        if rec.epid() != 1 {
            return;
        }
        let Some(value) = rec.values().first() else {
            return;
        };
        let rises = match self.last {
            Some(last) => last < *value,
            None => true,
        };
        self.rises = self.rises && rises;
        self.last = Some(*value);
    }

    // All records of a text that was read through.
    fn follow_all<S: Schema>(&mut self, records: Records<S>)
        ensures { self.new ≡ with_records self.old records.entry }
    {
        let mut records = records;
        while let Some(rec) = records.next() {
            self.follow(&rec);
        }
    }

    /// The records of a text, in order. One that can't be read doesn't rise.
    pub(crate) fn read<S: Schema>(&mut self, schema: &S, text: &[u8])
        ensures { FollowsText (S.shape_of schema.now) (S.accepted schema.now) (S.text schema.now) text.now self.old self.new }
    {
        match read_all(schema, text) {
            Ok(records) => self.follow_all(records),
            Err(_) => self.rises = false,
        }
    }
}
