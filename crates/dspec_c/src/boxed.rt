ghost use Rattle.std.specs.{Borrow.Lends, Borrow.sem, Prelude.◌≡◌, Prelude.IfOk};

use std::alloc::{AllocError, Global};
use std::marker::Model;

/// A value in a box of its own. It stays where it is in memory, so that a handle that holds something else has no room for one.
#[derive(Drop)]
pub struct Boxed<T> {
    inner: Box<T>,
}

impl<T> Model for Boxed<T> {
    ghost Value = { T };

    ghost coded = { T.code };

    ghost view = { λ b. b.inner.value };
}

impl<T> Boxed<T> {
    ghost use Rattle.dspec_c.specs.contracts.boxed.Boxed.{the_row};

    /// The value, for a call.
    pub fn lend(&mut self) -> &mut T
        ensures* writes_back { sem 𝓛 (Lends (the_row T.row) T.row self.entry result (λ w. w)) }
        ensures value { result.now ≡ self.old }
    {
        self.inner.as_mut()
    }
}

impl<T> Boxed<T> {
    /// What is in a box already.
    pub fn of_box(inner: Box<T>) -> Boxed<T>
        ensures { result ≡ inner.value }
    {
        Boxed { inner }
    }
}

impl<T: Drop> Boxed<T> {
    /// The value, which goes into a box.
    pub fn new(alloc: Global, value: T) -> Result<Boxed<T>, AllocError>
        ensures { IfOk result (λ boxed. boxed ≡ value) }
    {
        Ok(Boxed {
            inner: Box::new(alloc, value)?,
        })
    }
}
