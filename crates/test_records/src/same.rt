use std::fmt::Debug;
use std::process::Abort;

/// Asserts that what was found is what is wanted. The one `assert_eq!` of the crate: a test that has many takes long to
/// prove.
pub fn same<T: PartialEq + Debug + Drop>(rt: &impl Abort, found: T, wanted: T) {
    assert_eq!(rt; found, wanted);
}
