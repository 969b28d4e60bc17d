use std::error::Error;
use std::fmt;

/// The values aren't a record of the lane's schema: there are more than eight, the schema has no such EPID, it has another number of
/// fields, or a value doesn't fit its field. Nothing was offered, and no count tells of it.
#[derive(Debug, Clone, Copy, PartialEq, Eq)]
pub struct BadRecord;

impl Error for BadRecord {}

impl fmt::Display for BadRecord {
    fn fmt<W: fmt::Write>(&self, f: &mut fmt::Formatter<W>) -> fmt::Result {
        f.pad("the schema doesn't accept the record")
    }
}
