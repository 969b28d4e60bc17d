//! A subject's setup, whichever schema it has.

use crate::push::setup::{Setup, WayResult};
use crate::push::way::Way;
use dspec_record::{DefaultAction, Enablings, Rec, Schema, StampedAction};
use dspec_samples::{Subject, timed_enablings};
use std::alloc::Global;
use std::io;

#[derive(Drop)]
pub enum Ready {
    Default(Setup<DefaultAction>),
    Enabled(Setup<Enablings>),
    Stamped(Setup<StampedAction>),
}

impl Ready {
    pub fn make(alloc: Global, subject: Subject) -> io::Result<Ready> {
        let (Some(rec), Ok(enablings)) = (subject.record(), timed_enablings()) else {
            return Err(no_setup());
        };
        match subject {
            Subject::Default4 => Ok(Ready::Default(setup(alloc, DefaultAction, rec)?)),
            Subject::Stamped12 => Ok(Ready::Stamped(setup(alloc, StampedAction, rec)?)),
            Subject::Stamped16 => Ok(Ready::Enabled(setup(alloc, enablings.stamped(), rec)?)),
            _ => Ok(Ready::Enabled(setup(alloc, enablings, rec)?)),
        }
    }

    /// What stands before the way is taken by at most so many records.
    pub fn prepare(&mut self, way: Way, most: u32) {
        match self {
            Ready::Default(setup) => setup.prepare(way, most),
            Ready::Enabled(setup) => setup.prepare(way, most),
            Ready::Stamped(setup) => setup.prepare(way, most),
        }
    }

    /// Takes the way by so many records.
    pub fn take(&mut self, way: Way, number: u32) -> WayResult {
        match self {
            Ready::Default(setup) => setup.take(way, number),
            Ready::Enabled(setup) => setup.take(way, number),
            Ready::Stamped(setup) => setup.take(way, number),
        }
    }
}

/// A record that its schema doesn't accept has none.
fn no_setup() -> io::Error {
    io::Error::from(io::ErrorKind::InvalidData)
}

fn setup<S: Schema>(alloc: Global, schema: S, rec: Rec) -> io::Result<Setup<S>> {
    match Setup::make(alloc, schema, rec)? {
        Some(setup) => Ok(setup),
        None => Err(no_setup()),
    }
}
