//! Packets and metadata in a caller's memory.
use dspec_record::{Enablings, Field, SchemaFault};

mod metadata;
mod packets;

/// Records of one field of 4 bytes, with stamps.
fn one_enabling() -> Result<Enablings, SchemaFault> {
    let mut enablings = Enablings::new();
    enablings.enable(&[Field::Four])?;
    Ok(enablings.stamped())
}
