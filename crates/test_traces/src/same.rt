ghost use Rattle.std.specs.Prelude.{◌≡◌};

use dspec_ctf::Stream;
use dspec_record::{Enablings, Field, SchemaFault};
use std::fmt::Debug;
use std::process::Abort;

/// Asserts that what was found is what is wanted. The one `assert_eq!` of the crate: a test that has many takes long to
/// prove.
pub fn same<T: PartialEq + Debug + Drop>(rt: &impl Abort, found: T, wanted: T) {
    assert_eq!(rt; found, wanted);
}

/// The uuid of all traces here.
pub const UUID: [u8; 16] = [
    0, 17, 34, 51, 68, 85, 102, 119, 136, 153, 170, 187, 204, 221, 238, 255,
];

/// The stream of CPU 1 that missed so many.
pub fn stream_of(enablings: &Enablings, missed: u64) -> Stream<'_>
    ensures { result.enablings.now ≡ enablings.now }
{
    Stream {
        uuid: UUID,
        enablings,
        cpu: 1,
        missed,
    }
}

/// The enablings 1 none, 2 [8], 3 [1, 2].
pub fn three_enablings() -> Result<Enablings, SchemaFault> {
    let mut enablings = Enablings::new();
    enablings.enable(&[])?;
    enablings.enable(&[Field::Eight])?;
    enablings.enable(&[Field::One, Field::Two])?;
    Ok(enablings)
}
